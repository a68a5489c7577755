// The documents' numbers of what `pad` answers, for whoever prints it or hands it on.
ghost use Rattle.std.specs.Prelude.{◌≡◌};
ghost use Rattle.pad.specs.Call.{number_of, place_of, len_of};

use crate::PadError;
use base::refusals::{NO_REFUSAL, NO_ROOM, NO_SUCH_FORMAT};

// The refusal's number; 0 where there is no refusal.
pub fn number_of(padded: Result<usize, PadError>) -> u32
    ensures { result ≡ number_of padded }
{
    match padded {
        Ok(_) => NO_REFUSAL,
        Err(PadError::Refused(refusal)) => input::answer::number_of(refusal),
        Err(PadError::FillRefused(refusal)) => input::answer::number_of(refusal),
        Err(PadError::NoSuchFormat) => NO_SUCH_FORMAT,
        Err(PadError::NoRoom) => NO_ROOM,
    }
}

// The refusal's place; 0 where there is no refusal.
pub fn place_of(padded: Result<usize, PadError>) -> usize
    ensures { result ≡ place_of padded }
{
    match padded {
        Ok(_) => 0,
        Err(PadError::Refused(refusal)) => input::answer::place_of(refusal),
        Err(PadError::FillRefused(refusal)) => input::answer::place_of(refusal),
        Err(PadError::NoSuchFormat) => 0,
        Err(PadError::NoRoom) => 0,
    }
}

// How many bytes the padded text has; 0 on a refusal.
pub fn len_of(padded: Result<usize, PadError>) -> usize
    ensures { result ≡ len_of padded }
{
    match padded {
        Ok(n) => n,
        Err(_) => 0,
    }
}
