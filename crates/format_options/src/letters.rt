// What a single character of a format string means: a sign is an alignment, a digit begins a number, a letter is a representation.
ghost use Rattle.std.specs.Prelude.{◌≡◌};
ghost use Rattle.format_options.specs.Letters.{is_sign, is_digit, char_to_alignment, representation_of};

use crate::{Alignment, Representation};
use base::chars::{
    CAPITAL_E, CAPITAL_X, CARET, GREATER, LESS, LETTER_B, LETTER_E, LETTER_O, LETTER_X, NINE,
    QUESTION, ZERO,
};
use base::code_between;

// No character is left: one more than the last code point.
pub const NO_CHAR: u32 = 0x110000;

// `'<' | '^' | '>'`
pub fn is_sign(c: u32) -> bool
    ensures { result ≡ is_sign c }
{
    c == LESS || (c == CARET || c == GREATER)
}

// `'0'..='9'`
pub fn is_digit(c: u32) -> bool
    ensures { result ≡ is_digit c }
{
    code_between(c, ZERO, NINE)
}

// `char_to_alignment`. It is only asked about the three signs.
pub fn char_to_alignment(c: u32) -> Alignment
    ensures { result ≡ char_to_alignment c }
{
    if c == LESS {
        return Alignment::Left;
    }
    if c == CARET {
        return Alignment::Center;
    }
    Alignment::Right
}

// The representation that the character names, if it names one.
pub fn representation_of(c: u32) -> Option<Representation>
    ensures { result ≡ representation_of c }
{
    if c == QUESTION {
        return Some(Representation::Debug);
    }
    if c == LETTER_B {
        return Some(Representation::Binary);
    }
    if c == LETTER_O {
        return Some(Representation::Octal);
    }
    if c == LETTER_X {
        return Some(Representation::HexLower);
    }
    if c == CAPITAL_X {
        return Some(Representation::HexUpper);
    }
    if c == LETTER_E {
        return Some(Representation::ExpLower);
    }
    if c == CAPITAL_E {
        return Some(Representation::ExpUpper);
    }
    None
}
