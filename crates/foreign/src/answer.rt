// The documents' numbers of what `check_list` answers, for whoever prints it or hands it on.
ghost use Rattle.std.specs.Prelude.{◌≡◌};
ghost use Rattle.foreign.specs.Check.{number_of, place_of, same_of, differs_of};

use crate::{CheckError, Comparison};
use base::refusals::{BAD_STATE, MODES_FULL, NO_REFUSAL};

// The refusal's number; 0 where there is no refusal.
pub fn number_of(checked: Result<Comparison, CheckError>) -> u32
    ensures { result ≡ number_of checked }
{
    match checked {
        Ok(_) => NO_REFUSAL,
        Err(CheckError::Refused(refusal)) => input::answer::number_of(refusal),
        Err(CheckError::BadState) => BAD_STATE,
        Err(CheckError::ModesFull(_)) => MODES_FULL,
    }
}

// The refusal's place; 0 where there is no refusal.
pub fn place_of(checked: Result<Comparison, CheckError>) -> usize
    ensures { result ≡ place_of checked }
{
    match checked {
        Ok(_) => 0,
        Err(CheckError::Refused(refusal)) => input::answer::place_of(refusal),
        Err(CheckError::BadState) => 0,
        Err(CheckError::ModesFull(byte)) => byte,
    }
}

// 1 for a yes, and else 0.
pub fn same_of(checked: Result<Comparison, CheckError>) -> u32
    ensures { result ≡ same_of checked }
{
    match checked {
        Ok(Comparison::Same) => 1,
        Ok(Comparison::Differs(_)) => 0,
        Err(_) => 0,
    }
}

// The index that is named; 0 where none is.
pub fn differs_of(checked: Result<Comparison, CheckError>) -> usize
    ensures { result ≡ differs_of checked }
{
    match checked {
        Ok(Comparison::Same) => 0,
        Ok(Comparison::Differs(index)) => index,
        Err(_) => 0,
    }
}
