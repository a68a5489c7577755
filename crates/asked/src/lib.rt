// The options of a format string from numbers (document 02, C-10): an alignment, a width, a precision and a representation, each the number
// that the parse of a format string tells. It knows no format strings, no fills and no bytes.
#![tactic(auto)]

ghost use Rattle.std.specs.Prelude.{◌≡◌, true};
ghost use Rattle.fills.specs.Pad.{is_width};
ghost use Rattle.asked.specs.Fields.{is_shown_number, are_numbers, are_fields, alignment_of, number_of, shown_of, fields_of};

use fills::{NONE, RIGHT, is_width};
use format_options::{Alignment, Representation};

// `StringFormatOptions` without its fill.
#[derive(Clone, Copy, Debug, PartialEq, Eq)]
pub struct Fields {
    pub alignment: Alignment,
    pub width: Option<u32>,
    pub precision: Option<u32>,
    pub representation: Option<Representation>,
}

// The greatest number of a representation.
const REPRESENTATION_MOST: u64 = 6;

// Whether a number is a representation's, or says that there is none.
fn is_shown_number(representation: u64) -> bool
    ensures { result ≡ is_shown_number representation }
{
    representation == NONE || representation <= REPRESENTATION_MOST
}

// Whether two numbers are a width and a precision, which has the numbers of a width.
fn are_numbers(width: u64, precision: u64) -> bool
    ensures { result ≡ are_numbers width precision }
{
    is_width(width) && is_width(precision)
}

// Whether four numbers are those of some options.
pub fn are_fields(alignment: u64, width: u64, precision: u64, representation: u64) -> bool
    ensures { result ≡ are_fields alignment width precision representation }
{
    alignment <= RIGHT && (are_numbers(width, precision) && is_shown_number(representation))
}

// The alignment of a number.
fn alignment_of(number: u64) -> Alignment
    ensures { result ≡ alignment_of number }
{
    match number {
        1 => Alignment::Left,
        2 => Alignment::Center,
        3 => Alignment::Right,
        _ => Alignment::Default,
    }
}

// The width, or the precision, of a number.
fn number_of(number: u64) -> Option<u32>
    requires { is_width number ≡ true }
    ensures { result ≡ number_of number }
{
    if number == NONE {
        return None;
    }
    Some(number as u32)
}

// The representation of a number.
fn shown_of(number: u64) -> Option<Representation>
    ensures { result ≡ shown_of number }
{
    match number {
        0 => Some(Representation::Debug),
        1 => Some(Representation::HexLower),
        2 => Some(Representation::HexUpper),
        3 => Some(Representation::Binary),
        4 => Some(Representation::Octal),
        5 => Some(Representation::ExpLower),
        6 => Some(Representation::ExpUpper),
        _ => None,
    }
}

// The options of four numbers that are some.
pub fn fields_of(alignment: u64, width: u64, precision: u64, representation: u64) -> Fields
    requires { are_fields alignment width precision representation ≡ true }
    ensures { result ≡ fields_of alignment width precision representation }
{
    Fields {
        alignment: alignment_of(alignment),
        width: number_of(width),
        precision: number_of(precision),
        representation: shown_of(representation),
    }
}
