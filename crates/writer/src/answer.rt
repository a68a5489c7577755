// The documents' numbers of what `write_format` answers, for whoever prints it or hands it on.
ghost use Rattle.std.specs.Prelude.{◌≡◌};
ghost use Rattle.writer.specs.Call.{number_of, place_of, len_of};

use crate::WriteError;
use base::refusals::{NO_REFUSAL, NO_ROOM, NO_SUCH_FORMAT};

// The refusal's number; 0 where there is no refusal.
pub fn number_of(written: Result<usize, WriteError>) -> u32
    ensures { result ≡ number_of written }
{
    match written {
        Ok(_) => NO_REFUSAL,
        Err(WriteError::Refused(refusal)) => input::answer::number_of(refusal),
        Err(WriteError::NoSuchFormat) => NO_SUCH_FORMAT,
        Err(WriteError::NoRoom) => NO_ROOM,
    }
}

// The refusal's place; 0 where there is no refusal.
pub fn place_of(written: Result<usize, WriteError>) -> usize
    ensures { result ≡ place_of written }
{
    match written {
        Ok(_) => 0,
        Err(WriteError::Refused(refusal)) => input::answer::place_of(refusal),
        Err(WriteError::NoSuchFormat) => 0,
        Err(WriteError::NoRoom) => 0,
    }
}

// How many bytes the format string has; 0 on a refusal.
pub fn len_of(written: Result<usize, WriteError>) -> usize
    ensures { result ≡ len_of written }
{
    match written {
        Ok(n) => n,
        Err(_) => 0,
    }
}
