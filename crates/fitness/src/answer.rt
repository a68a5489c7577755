// Document 01's numbers of what a check of a table answers, for whoever prints them or hands them on.
ghost use Rattle.std.specs.Prelude.{◌≡◌};
ghost use Rattle.fitness.specs.Fit.{number_of, place_of};

use crate::TableError;
use base::refusals::{BAD_TABLE, NO_REFUSAL};

// The number of a check's refusal; 0 where there is none.
pub fn number_of(check: Result<(), TableError>) -> u32
    ensures { result ≡ number_of check }
{
    match check {
        Ok(()) => NO_REFUSAL,
        Err(TableError::BadTable(_)) => BAD_TABLE,
    }
}

// Its place; 0 where there is none.
pub fn place_of(check: Result<(), TableError>) -> usize
    ensures { result ≡ place_of check }
{
    match check {
        Ok(()) => 0,
        Err(TableError::BadTable(i)) => i,
    }
}
