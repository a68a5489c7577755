// A rescan's answer, number by number, for whoever prints it or hands it on.
ghost use Rattle.std.specs.Prelude.{◌≡◌};
ghost use Rattle.rescan.specs.Rescan.{number_of, place_of, count_of, status_of};

use crate::RescanError;
use base::refusals::{BAD_EDIT, BAD_STATE};
use reading::answer::REFUSED;
use reading::{Scan, answer};

// The refusal's number; 0 where there is no refusal.
pub fn number_of(rescanned: Result<Scan, RescanError>) -> u32
    ensures { result ≡ number_of rescanned }
{
    match rescanned {
        Ok(scan) => answer::number_of(Ok(scan)),
        Err(RescanError::Scan(error)) => answer::number_of(Err(error)),
        Err(RescanError::BadEdit) => BAD_EDIT,
        Err(RescanError::BadState) => BAD_STATE,
    }
}

// The refusal's place; the current byte where there is no refusal.
pub fn place_of(rescanned: Result<Scan, RescanError>) -> usize
    ensures { result ≡ place_of rescanned }
{
    match rescanned {
        Ok(scan) => answer::place_of(Ok(scan)),
        Err(RescanError::Scan(error)) => answer::place_of(Err(error)),
        Err(RescanError::BadEdit) => 0,
        Err(RescanError::BadState) => 0,
    }
}

// How many records were written.
pub fn count_of(rescanned: Result<Scan, RescanError>) -> usize
    ensures { result ≡ count_of rescanned }
{
    match rescanned {
        Ok(scan) => answer::count_of(Ok(scan)),
        Err(RescanError::Scan(error)) => answer::count_of(Err(error)),
        Err(RescanError::BadEdit) => 0,
        Err(RescanError::BadState) => 0,
    }
}

// How it ended.
pub fn status_of(rescanned: Result<Scan, RescanError>) -> u32
    ensures { result ≡ status_of rescanned }
{
    match rescanned {
        Ok(scan) => answer::status_of(Ok(scan)),
        Err(RescanError::Scan(error)) => answer::status_of(Err(error)),
        Err(RescanError::BadEdit) => REFUSED,
        Err(RescanError::BadState) => REFUSED,
    }
}
