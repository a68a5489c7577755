// Reading a format string without a pool (string_format_options.rs, `StringFormatOptions::parse`): its loop over the format string. The
// answer has the options by value and the strings that `parse` would add to its pool, as parts of the format string.
// Which arm is taken is told in `format_arms`, what it does to the state in `format_state`, and `consume_u32` in `format_number`.
// Left out: the pool, the messages.
//
// Q. Why are there at most two strings to add? A. What `parse` adds after its first string is always "0", and adding a string that is there
// already changes nothing.
#![tactic(auto)]

ghost use Rattle.std.specs.Prelude.{◌≡◌, ◌+◌, ◌≤◌, true, false, length, drop};
ghost use Rattle.base.specs.Refusal.{format_most};
ghost use Rattle.utf8.specs.Encode.{WellFormed};
ghost use Rattle.utf8.specs.Chars.{chars};
ghost use Rattle.property.specs.Table.{properties_at, Rises};
ghost use Rattle.cluster.specs.First.{first_end};
ghost use Rattle.format_number.specs.Number.{consume_u32};
ghost use Rattle.format_state.specs.State.{number_to};
ghost use Rattle.format.specs.Read.{ended, cluster_to, Here, turn_at, read_format};

use format_arms::{Arm, Position, arm_of};
use format_number::{consume_u32, peek};
use format_options::{FormatError, Options};
use format_state::{Parsing, Strings};

// A reading: the options so far, how it ends, and the strings to add. An error takes no string back.
#[derive(Clone, Copy, Debug, PartialEq, Eq)]
pub struct FormatRead {
    pub options: Options,
    pub outcome: Result<(), FormatError>,
    pub added: Strings,
}

// The reading ends here.
fn end(p: Parsing) -> FormatRead
    ensures { result ≡ ended p }
{
    FormatRead {
        options: p.result,
        outcome: p.outcome,
        added: p.added,
    }
}

// The arm of a width: c is its first digit, and the others stand from `at` on.
fn take_width(format: &[u8], p: Parsing, c: u32, at: usize) -> Parsing
    requires { (length format.now ≤ format_most) × (at ≤ format_most) }
    ensures { result ≡ number_to p false at (consume_u32 c (chars (drop at format.now))) }
{
    let consumed = consume_u32(format, c, at);
    p.take_number(false, consumed, at)
}

// The arm of a precision: c stands after the dot, and the digits after it from `at` on.
fn take_precision(format: &[u8], p: Parsing, c: u32, at: usize) -> Parsing
    requires { (length format.now ≤ format_most) × (at ≤ format_most) }
    ensures { result ≡ number_to p true at (consume_u32 c (chars (drop at format.now))) }
{
    let consumed = consume_u32(format, c, at);
    p.take_number(true, consumed, at)
}

// The arm of a fill that is a whole cluster. The fill can only stand at the start of the format string.
fn take_cluster(format: &[u8], table: &[u32], edition: u32, p: Parsing) -> Parsing
    requires { WellFormed (drop p.at format.now) × Rises table.now }
    ensures { result ≡ cluster_to p (first_end (properties_at table.now) edition p.at (chars (drop p.at format.now))) }
{
    let end = cluster::cluster_end(format, table, edition, p.at);
    p.go_filled(p.result, Position::Alignment, end, end)
}

// One turn of the loop, for the character c of `len` bytes, which stands at `p.at`.
fn take_turn(format: &[u8], table: &[u32], edition: u32, p: Parsing, c: u32, len: usize) -> Parsing
    requires { Here format.now p.at c len × Rises table.now }
    ensures { result ≡ turn_at (properties_at table.now) edition p c (chars (drop (p.at + len) format.now)) }
{
    let next = p.at + len;
    let peeked = peek(format, next);
    match arm_of(c, peeked, p.position) {
        Arm::FillSign => p.fill_sign(peeked, next),
        Arm::Align => p.align(c, next),
        Arm::ZeroFill => p.go_filled(p.result, Position::MinWidth, next, next),
        Arm::MinWidth => take_width(format, p, c, next),
        Arm::Precision => take_precision(format, p, peeked, next + 1),
        Arm::Represent(representation) => p.represent(representation, next),
        Arm::FillCluster => take_cluster(format, table, edition, p),
        Arm::Unexpected => p.fail(FormatError::UnexpectedToken(c)),
    }
}

// `StringFormatOptions::parse`, less the pool: the options, how it ends, and the strings to add.
pub fn read_format(format: &[u8], table: &[u32], edition: u32) -> FormatRead
    requires { WellFormed format.now × (length format.now ≤ format_most) × Rises table.now }
    ensures { result ≡ read_format (properties_at table.now) edition (chars format.now) }
{
    let mut p = Parsing::new();
    loop {
        let Ok((code, len)) = utf8::read_char(format, p.at) else {
            return end(p);
        };
        p = take_turn(format, table, edition, p, code, len);
        if p.outcome.is_err() {
            return end(p);
        }
    }
}
