// Document 01's numbers of what the reading of a table's file answers, for whoever prints them or hands them on.
ghost use Rattle.std.specs.Prelude.{◌≡◌};
ghost use Rattle.table_file.specs.File.{number_of, place_of, read_count};

use crate::TableFileError;
use base::refusals::{BAD_FILE, BAD_TABLE, LIST_FULL, NO_REFUSAL};

// The number of a reading's refusal; 0 where there is none.
pub fn number_of(read: Result<usize, TableFileError>) -> u32
    ensures { result ≡ number_of read }
{
    match read {
        Ok(_) => NO_REFUSAL,
        Err(TableFileError::BadFile(_)) => BAD_FILE,
        Err(TableFileError::ListFull) => LIST_FULL,
        Err(TableFileError::BadTable(_)) => BAD_TABLE,
    }
}

// Its place; 0 where there is none.
pub fn place_of(read: Result<usize, TableFileError>) -> usize
    ensures { result ≡ place_of read }
{
    match read {
        Ok(_) => 0,
        Err(TableFileError::BadFile(i)) => i,
        Err(TableFileError::ListFull) => 0,
        Err(TableFileError::BadTable(i)) => i,
    }
}

// How many numbers were read; 0 on a refusal.
pub fn count_of(read: Result<usize, TableFileError>) -> usize
    ensures { result ≡ read_count read }
{
    match read {
        Ok(count) => count,
        Err(_) => 0,
    }
}
