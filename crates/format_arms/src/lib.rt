// Which arm of `StringFormatOptions::parse`'s match is taken (string_format_options.rs), for a character, the one after it and the
// position: the patterns, in their order. Left out: what stands behind an arm.
#![tactic(auto)]

ghost use Rattle.std.specs.Prelude.{◌≡◌};
ghost use Rattle.format_arms.specs.Arms.{is_fill_sign, is_align, is_zero_fill, is_width, is_precision, is_before_end};
ghost use Rattle.format_arms.specs.Arms.{letter_of, last_arm, arm_of};

use base::chars::{DOT, ZERO};
use format_options::Representation;
use format_options::letters::{NO_CHAR, is_digit, is_sign, representation_of};

// `FormatParsePosition`
#[derive(Clone, Copy, Debug, PartialEq, Eq)]
pub enum Position {
    Start,
    Alignment,
    MinWidth,
    Precision,
    Type,
    End,
}

// The arms of `parse`, in its order; the seven of the representations are one.
#[derive(Clone, Copy, Debug, PartialEq, Eq)]
pub enum Arm {
    FillSign,
    Align,
    ZeroFill,
    MinWidth,
    Precision,
    Represent(Representation),
    FillCluster,
    Unexpected,
}

// `(_, Some('<' | '^' | '>'), Start)`
fn is_fill_sign(peeked: u32, position: Position) -> bool
    ensures { result ≡ is_fill_sign peeked position }
{
    is_sign(peeked) && matches!(position, Position::Start)
}

// `('<' | '^' | '>', _, Start | Alignment)`
fn is_align(c: u32, position: Position) -> bool
    ensures { result ≡ is_align c position }
{
    is_sign(c) && matches!(position, Position::Start | Position::Alignment)
}

// `('0', Some('0'..='9'), Start | MinWidth)`
fn is_zero_fill(c: u32, peeked: u32, position: Position) -> bool
    ensures { result ≡ is_zero_fill c peeked position }
{
    c == ZERO && (is_digit(peeked) && matches!(position, Position::Start | Position::MinWidth))
}

// `('0'..='9', _, Start | MinWidth)`
fn is_width(c: u32, position: Position) -> bool
    ensures { result ≡ is_width c position }
{
    is_digit(c) && matches!(position, Position::Start | Position::MinWidth)
}

// `('.', Some(_), Start | MinWidth | Precision)`
fn is_precision(c: u32, peeked: u32, position: Position) -> bool
    ensures { result ≡ is_precision c peeked position }
{
    c == DOT
        && (peeked < NO_CHAR
            && matches!(
                position,
                Position::Start | Position::MinWidth | Position::Precision
            ))
}

// `Start | MinWidth | Precision | Type`
fn is_before_end(position: Position) -> bool
    ensures { result ≡ is_before_end position }
{
    matches!(
        position,
        Position::Start | Position::MinWidth | Position::Precision | Position::Type
    )
}

// The representation that the character names at this position.
fn letter_of(c: u32, position: Position) -> Option<Representation>
    ensures { result ≡ letter_of c position }
{
    if is_before_end(position) {
        return representation_of(c);
    }
    None
}

// The arms from the representations on.
fn last_arm(c: u32, position: Position) -> Arm
    ensures { result ≡ last_arm c position }
{
    match letter_of(c, position) {
        Some(representation) => Arm::Represent(representation),
        None => match position {
            Position::Start => Arm::FillCluster,
            _ => Arm::Unexpected,
        },
    }
}

// The first arm of `parse` that matches.
pub fn arm_of(c: u32, peeked: u32, position: Position) -> Arm
    ensures { result ≡ arm_of c peeked position }
{
    if is_fill_sign(peeked, position) {
        return Arm::FillSign;
    }
    if is_align(c, position) {
        return Arm::Align;
    }
    if is_zero_fill(c, peeked, position) {
        return Arm::ZeroFill;
    }
    if is_width(c, position) {
        return Arm::MinWidth;
    }
    if is_precision(c, peeked, position) {
        return Arm::Precision;
    }
    last_arm(c, position)
}
