// Whitespace and numbers (lexer.rs `consume_number`, and the arm of whitespace). It knows no names, no list and no records.
#![tactic(auto)]

ghost use Rattle.std.specs.Prelude.{◌≡◌, ◌+◌, ◌≤◌, drop};
ghost use Rattle.utf8.specs.Chars.{chars};
ghost use Rattle.text.specs.Bytes.{byte_at};
ghost use Rattle.text.specs.Tests.{is_digit};
ghost use Rattle.text.specs.Stands.{Stands, chars_from};
ghost use Rattle.state.specs.Lexer.{reach_of};
ghost use Rattle.numbers.specs.Places.{PlaceIn};
ghost use Rattle.numbers.specs.ConsumeWhitespace.{consume_whitespace};
ghost use Rattle.numbers.specs.ConsumeNumber.{exponent_bytes, is_fraction, tail_bytes, zero_bytes, number_bytes, consume_number};

use base::chars::{
    DOT, LETTER_B, LETTER_E, LETTER_O, LETTER_X, MINUS, NINE, PLUS, UNDERSCORE, ZERO,
};
use base::code_between;
use state::{Lexer, Taken};
use text::{BinaryDigit, DecimalDigit, HexDigit, OctalDigit, Whitespace, byte_at, run_end};
use token::kinds;

// Spaces and tabs. One has been matched.
pub fn consume_whitespace(source: &[u8], lexer: Lexer) -> Taken
    requires { Stands source.now (reach_of lexer) }
    ensures { result ≡ consume_whitespace (chars_from source.now (reach_of lexer)) lexer }
{
    let reach = lexer.reach();
    let at = reach.byte.0;
    let count = run_end::<Whitespace>(source, at) - at;
    lexer
        .indent_by(count as u32)
        .token(kinds::WHITESPACE, count)
}

// The byte after the exponent at `at`, or `at` where there is none.
fn exponent_end(source: &[u8], at: usize) -> usize
    requires { PlaceIn source.now at }
    ensures { result ≡ at + exponent_bytes (chars (drop at source.now)) }
{
    if byte_at(source, at) != LETTER_E {
        return at;
    }
    let sign = byte_at(source, at + 1);
    if sign == PLUS || sign == MINUS {
        return run_end::<DecimalDigit>(source, at + 2);
    }
    run_end::<DecimalDigit>(source, at + 1)
}

fn is_digit(b: u32) -> bool
    ensures { result ≡ is_digit b }
{
    code_between(b, ZERO, NINE)
}

// Does what stands at `at`, after a dot, belong to the number? A digit does, and an exponent; `1.exp()` is a call.
fn is_fraction(source: &[u8], at: usize) -> bool
    requires { PlaceIn source.now at }
    ensures { result ≡ is_fraction (chars (drop at source.now)) }
{
    let b = byte_at(source, at);
    if is_digit(b) {
        return true;
    }
    if b != LETTER_E {
        return false;
    }
    let c = byte_at(source, at + 1);
    if is_digit(c) {
        return true;
    }
    if c == UNDERSCORE {
        return true;
    }
    if c == PLUS {
        return true;
    }
    if c == MINUS {
        return true;
    }
    false
}

// The byte after a number whose whole part ends at `at`.
fn tail_end(source: &[u8], at: usize) -> usize
    requires { PlaceIn source.now at }
    ensures { result ≡ at + tail_bytes (chars (drop at source.now)) }
{
    if byte_at(source, at) != DOT {
        return exponent_end(source, at);
    }
    if !is_fraction(source, at + 1) {
        return at;
    }
    exponent_end(source, run_end::<DecimalDigit>(source, at + 1))
}

// The byte after a number whose whole part is the zero before `at`.
fn zero_end(source: &[u8], at: usize) -> usize
    requires { PlaceIn source.now at }
    ensures { result ≡ at + zero_bytes (chars (drop at source.now)) }
{
    match byte_at(source, at) {
        LETTER_B => run_end::<BinaryDigit>(source, at + 1),
        LETTER_O => run_end::<OctalDigit>(source, at + 1),
        LETTER_X => run_end::<HexDigit>(source, at + 1),
        _ => tail_end(source, at),
    }
}

// The byte after the number at `at`.
pub fn number_end(source: &[u8], at: usize) -> usize
    requires place_in { PlaceIn source.now at }
    requires bound { (48 ≤ byte_at source.now at) × (byte_at source.now at ≤ 57) }
    ensures { result ≡ at + number_bytes (chars (drop at source.now)) }
{
    let whole = run_end::<DecimalDigit>(source, at + 1);
    if byte_at(source, at) != ZERO {
        return tail_end(source, whole);
    }
    if whole != at + 1 {
        return tail_end(source, whole);
    }
    zero_end(source, whole)
}

// lexer.rs `consume_number`. A digit has been matched.
pub fn consume_number(source: &[u8], lexer: Lexer) -> Taken
    requires stands { Stands source.now (reach_of lexer) }
    requires bound { (48 ≤ byte_at source.now (reach_of lexer).byte.0) × (byte_at source.now (reach_of lexer).byte.0 ≤ 57) }
    ensures { result ≡ consume_number (chars_from source.now (reach_of lexer)) lexer }
{
    let reach = lexer.reach();
    let at = reach.byte.0;
    lexer.token(kinds::NUMBER, number_end(source, at) - at)
}
