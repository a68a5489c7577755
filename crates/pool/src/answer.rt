// The documents' numbers of what adding a string answers, for whoever prints it or hands it on.
ghost use Rattle.std.specs.Prelude.{◌≡◌};
ghost use Rattle.pool.specs.Pool.{number_of, place_of, added_index};

use crate::{AddError, Added};
use base::refusals::{BAD_STATE, BAD_UTF8, CUT_UTF8, NO_REFUSAL, POOL_FULL};

// The refusal's number; 0 where there is no refusal.
pub fn number_of(added: Result<Added, AddError>) -> u32
    ensures { result ≡ number_of added }
{
    match added {
        Ok(_) => NO_REFUSAL,
        Err(AddError::BadUtf8(_)) => BAD_UTF8,
        Err(AddError::CutUtf8(_)) => CUT_UTF8,
        Err(AddError::BadState) => BAD_STATE,
        Err(AddError::PoolFull) => POOL_FULL,
    }
}

// The refusal's place; 0 where there is no refusal.
pub fn place_of(added: Result<Added, AddError>) -> usize
    ensures { result ≡ place_of added }
{
    match added {
        Ok(_) => 0,
        Err(AddError::BadUtf8(i)) => i,
        Err(AddError::CutUtf8(i)) => i,
        Err(AddError::BadState) => 0,
        Err(AddError::PoolFull) => 0,
    }
}

// The string's index; 0 on a refusal.
pub fn index_of(added: Result<Added, AddError>) -> u32
    ensures { result ≡ added_index added }
{
    match added {
        Ok(added) => added.index,
        Err(_) => 0,
    }
}
