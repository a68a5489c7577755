// A parse's options as seven numbers, for whoever hands them on.
ghost use Rattle.std.specs.Prelude.{◌≡◌};
ghost use Rattle.parse.specs.Numbers.{given_number, shown_number, fill_place, fill_len, options_numbers, no_numbers, numbers_of};

use crate::{ParseError, Parsed};
use format_options::{Options, Part, Representation};

// No number: every option's own number is smaller.
pub const NONE: u64 = 18446744073709551615;

fn shown_number(shown: Option<Representation>) -> u64
    ensures { result ≡ shown_number shown }
{
    match shown {
        Some(representation) => format_options::representation_number(representation) as u64,
        None => NONE,
    }
}

fn given_number(given: Option<u32>) -> u64
    ensures { result ≡ given_number given }
{
    match given {
        Some(n) => n as u64,
        None => NONE,
    }
}

fn fill_place(fill: Option<Part>) -> u64
    ensures { result ≡ fill_place fill }
{
    match fill {
        Some(part) => part.place as u64,
        None => NONE,
    }
}

fn fill_len(fill: Option<Part>) -> u64
    ensures { result ≡ fill_len fill }
{
    match fill {
        Some(part) => part.len as u64,
        None => NONE,
    }
}

// The seven numbers of options and of their fill's index.
fn options_numbers(options: Options, index: Option<u32>) -> [u64; 7]
    ensures { result ≡ options_numbers options index }
{
    [
        format_options::alignment_number(options.alignment) as u64,
        given_number(options.width),
        given_number(options.precision),
        shown_number(options.representation),
        fill_place(options.fill),
        fill_len(options.fill),
        given_number(index),
    ]
}

// A refusal has none of them.
fn no_numbers() -> [u64; 7]
    ensures { result ≡ no_numbers }
{
    [NONE; 7]
}

// The seven numbers of an answer.
pub fn numbers_of(answer: Result<Parsed, ParseError>) -> [u64; 7]
    ensures { result ≡ numbers_of answer }
{
    match answer {
        Ok(read) => options_numbers(read.options, read.index),
        Err(_) => no_numbers(),
    }
}
