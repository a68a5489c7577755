// The parts of a format string behind its fill (document 02, C-10): the sign of an alignment, a width, a dot and a precision, and the letter
// of a representation, each where there is one; how many bytes they have, and writing them into a row of bytes. It knows no fills.
#![tactic(auto)]

ghost use Rattle.std.specs.Prelude.{◌≡◌, ◌+◌, ◌≤◌, length};
ghost use Rattle.pool.specs.Pool.{written};
ghost use Rattle.wanted.specs.Candidate.{letter, width_part};
ghost use Rattle.format_parts.specs.Parts.{parts_of, byte_part, sign_byte, dot_byte, letter_byte};

use asked::Fields;
use decimal::{digit_count, put_digits};
use format_options::{Alignment, Representation};

// The sign of an alignment, if it has one.
fn sign_of(alignment: Alignment) -> Option<u8>
    ensures { result ≡ sign_byte alignment }
{
    match alignment {
        Alignment::Default => None,
        Alignment::Left => Some(b'<'),
        Alignment::Center => Some(b'^'),
        Alignment::Right => Some(b'>'),
    }
}

// The dot before a precision.
fn dot_of(precision: Option<u32>) -> Option<u8>
    ensures { result ≡ dot_byte precision }
{
    match precision {
        Some(_) => Some(b'.'),
        None => None,
    }
}

// The letter of a representation.
fn letter(representation: Representation) -> u8
    ensures { result ≡ letter representation }
{
    match representation {
        Representation::Debug => b'?',
        Representation::HexLower => b'x',
        Representation::HexUpper => b'X',
        Representation::Binary => b'b',
        Representation::Octal => b'o',
        Representation::ExpLower => b'e',
        Representation::ExpUpper => b'E',
    }
}

fn letter_of(shown: Option<Representation>) -> Option<u8>
    ensures { result ≡ letter_byte shown }
{
    match shown {
        Some(representation) => Some(letter(representation)),
        None => None,
    }
}

// How many bytes a byte is, if there is one.
fn byte_len(byte: Option<u8>) -> usize
    ensures { (result ≡ length (byte_part byte)) × (result ≤ 1) }
{
    match byte {
        Some(_) => 1,
        None => 0,
    }
}

// How many bytes a number has, if there is one.
fn number_len(number: Option<u32>) -> usize
    ensures { (result ≡ length (width_part number)) × (result ≤ 4294967296) }
{
    match number {
        Some(n) => digit_count(n),
        None => 0,
    }
}

// Writes a byte, if there is one, at index `at`: the index behind it.
fn put_byte(row: &mut [u8], at: usize, byte: Option<u8>) -> usize
    requires { at + length (byte_part byte) ≤ length row.old }
    ensures { (result ≡ at + length (byte_part byte)) × (row.new ≡ written row.old at (byte_part byte)) }
{
    match byte {
        Some(byte) => {
            row[at] = byte;
            at + 1
        }
        None => at,
    }
}

// Writes a number, if there is one, from index `at` on: the index behind it.
fn put_number(row: &mut [u8], at: usize, number: Option<u32>) -> usize
    requires { at + length (width_part number) ≤ length row.old }
    ensures { (result ≡ at + length (width_part number)) × (row.new ≡ written row.old at (width_part number)) }
{
    match number {
        Some(n) => put_digits(row, at, n),
        None => at,
    }
}

// How many bytes the parts have.
pub fn parts_len(fields: Fields) -> usize
    ensures { (result ≡ length (parts_of fields)) × (result ≤ 8589934595) }
{
    let sign = byte_len(sign_of(fields.alignment));
    let dot = byte_len(dot_of(fields.precision));
    let letter = byte_len(letter_of(fields.representation));
    sign + number_len(fields.width) + dot + number_len(fields.precision) + letter
}

// Writes the parts into a row of bytes, from index `at` on: the index behind them.
pub fn put_parts(row: &mut [u8], at: usize, fields: Fields) -> usize
    requires { at + length (parts_of fields) ≤ length row.old }
    ensures { (result ≡ at + length (parts_of fields)) × (row.new ≡ written row.old at (parts_of fields)) }
{
    let sign = sign_of(fields.alignment);
    let dot = dot_of(fields.precision);
    let letter = letter_of(fields.representation);
    let behind_sign = put_byte(row, at, sign);
    let behind_width = put_number(row, behind_sign, fields.width);
    let behind_dot = put_byte(row, behind_width, dot);
    let behind_precision = put_number(row, behind_dot, fields.precision);
    put_byte(row, behind_precision, letter)
}
