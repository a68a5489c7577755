// Whether an answer of the parse is that of a line: `0 A W P R I FILL`, or the number of a refusal and its place or value. A is the alignment;
// the width, the precision, the representation and the fill's index are 0 for none, else one more than their number; FILL is 0 for none, else 1
// and the fill's place and length (tools/README.md).
ghost use Rattle.std.specs.Prelude.{◌≡◌, true, ◌<◌};
ghost use Rattle.parse.specs.Call.{value_of};

use format_options::{Options, Part, Representation};
use lines::Fields;
use parse::{ParseError, Parsed, answer};

// 0 for none, else one more than the number.
fn given_number(given: Option<u32>) -> usize {
    match given {
        Some(n) => 1 + n as usize,
        None => 0,
    }
}

// The same of a representation.
fn shown_number(shown: Option<Representation>) -> usize {
    match shown {
        Some(representation) => {
            1 + format_options::representation_number(representation) as usize
        }
        None => 0,
    }
}

// Whether the next fields are a fill.
fn same_fill(fields: &mut Fields, fill: Option<Part>) -> bool {
    match fill {
        Some(part) => fields.same(1) && fields.same(part.place) && fields.same(part.len),
        None => fields.same(0),
    }
}

// The same of options with the fill's index.
fn same_options(fields: &mut Fields, options: Options, index: Option<u32>) -> bool {
    fields.same(format_options::alignment_number(options.alignment) as usize)
        && fields.same(given_number(options.width))
        && fields.same(given_number(options.precision))
        && fields.same(shown_number(options.representation))
        && fields.same(given_number(index))
        && same_fill(fields, options.fill)
}

// The same of an answer: its number, and then the options, or the refusal's place or value.
pub fn same_answer(fields: &mut Fields, parsed: Result<Parsed, ParseError>) -> bool
    ensures { result ≡ true → value_of parsed < 10000000000000000000 }
{
    if !fields.same(answer::number_of(parsed) as usize) {
        return false;
    }
    match parsed {
        Ok(read) => same_options(fields, read.options, read.index),
        Err(_) => fields.same(answer::value_of(parsed) as usize),
    }
}
