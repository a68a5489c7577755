// The documents' numbers of a parse's answer, for whoever prints it or hands it on.
ghost use Rattle.std.specs.Prelude.{◌≡◌};
ghost use Rattle.parse.specs.Call.{number_of, value_of};

use crate::{ParseError, Parsed};
use base::refusals::{
    BAD_STATE, EXPECTED_NUMBER, FORMAT_NUMBER_IS_TOO_LARGE, NO_REFUSAL, POOL_FULL, UNEXPECTED_TOKEN,
};

// The refusal's number; 0 where there is no refusal.
pub fn number_of(answer: Result<Parsed, ParseError>) -> u32
    ensures { result ≡ number_of answer }
{
    match answer {
        Ok(_) => NO_REFUSAL,
        Err(ParseError::Refused(refusal)) => input::answer::number_of(refusal),
        Err(ParseError::BadState) => BAD_STATE,
        Err(ParseError::ExpectedNumber(_)) => EXPECTED_NUMBER,
        Err(ParseError::FormatNumberIsTooLarge(_)) => FORMAT_NUMBER_IS_TOO_LARGE,
        Err(ParseError::UnexpectedToken(_)) => UNEXPECTED_TOKEN,
        Err(ParseError::PoolFull) => POOL_FULL,
    }
}

// The refusal's place or value; 0 where there is no refusal.
pub fn value_of(answer: Result<Parsed, ParseError>) -> u64
    ensures { result ≡ value_of answer }
{
    match answer {
        Ok(_) => 0,
        Err(ParseError::Refused(refusal)) => input::answer::place_of(refusal) as u64,
        Err(ParseError::BadState) => 0,
        Err(ParseError::ExpectedNumber(code)) => code as u64,
        Err(ParseError::FormatNumberIsTooLarge(value)) => value,
        Err(ParseError::UnexpectedToken(code)) => code as u64,
        Err(ParseError::PoolFull) => 0,
    }
}
