// The documents' numbers of what `read_char` and `check_utf8` answer, for whoever prints them or hands them on.
ghost use Rattle.std.specs.Prelude.{◌≡◌};
ghost use Rattle.utf8.specs.Lengths.{len_of};
ghost use Rattle.utf8.specs.Answer.{read_number, code_of, number_of, place_of};

use crate::{ReadError, Utf8Error};
use base::refusals::{BAD_UTF8, CUT_UTF8, NO_REFUSAL};

// The number of a reading's refusal; 0 where there is none.
pub fn read_number(read: Result<(u32, usize), ReadError>) -> u32
    ensures { result ≡ read_number read }
{
    match read {
        Ok(_) => NO_REFUSAL,
        Err(ReadError::Bad) => BAD_UTF8,
        Err(ReadError::Cut) => CUT_UTF8,
    }
}

// The code point; 0 where there is no character.
pub fn read_code(read: Result<(u32, usize), ReadError>) -> u32
    ensures { result ≡ code_of read }
{
    match read {
        Ok((code, _)) => code,
        Err(_) => 0,
    }
}

// How many bytes it has; 0 where there is no character.
pub fn read_len(read: Result<(u32, usize), ReadError>) -> usize
    ensures { result ≡ len_of read }
{
    match read {
        Ok((_, len)) => len,
        Err(_) => 0,
    }
}

// The number of a check's refusal; 0 where there is none.
pub fn check_number(check: Result<(), Utf8Error>) -> u32
    ensures { result ≡ number_of check }
{
    match check {
        Ok(()) => NO_REFUSAL,
        Err(Utf8Error::BadAt(_)) => BAD_UTF8,
        Err(Utf8Error::CutAt(_)) => CUT_UTF8,
    }
}

// Its place; 0 where there is none.
pub fn check_place(check: Result<(), Utf8Error>) -> usize
    ensures { result ≡ place_of check }
{
    match check {
        Ok(()) => 0,
        Err(Utf8Error::BadAt(i)) => i,
        Err(Utf8Error::CutAt(i)) => i,
    }
}
