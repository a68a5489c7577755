// The documents' numbers of a refusal that comes before any work, for whoever prints it or hands it on.
ghost use Rattle.std.specs.Prelude.{◌≡◌};
ghost use Rattle.input.specs.Input.{number_of, place_of};

use crate::Refusal;
use base::refusals::{BAD_EDITION, BAD_TABLE, BAD_UTF8, CUT_UTF8, TOO_LONG};

// The refusal's number.
pub fn number_of(refusal: Refusal) -> u32
    ensures { result ≡ number_of refusal }
{
    match refusal {
        Refusal::TooLong => TOO_LONG,
        Refusal::BadEdition => BAD_EDITION,
        Refusal::BadTable(_) => BAD_TABLE,
        Refusal::BadUtf8(_) => BAD_UTF8,
        Refusal::CutUtf8(_) => CUT_UTF8,
    }
}

// Its place.
pub fn place_of(refusal: Refusal) -> usize
    ensures { result ≡ place_of refusal }
{
    match refusal {
        Refusal::TooLong => 0,
        Refusal::BadEdition => 0,
        Refusal::BadTable(i) => i,
        Refusal::BadUtf8(i) => i,
        Refusal::CutUtf8(i) => i,
    }
}
