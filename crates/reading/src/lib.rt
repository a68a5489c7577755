// The reading of a source by the language alone, and what a scan must answer and write (see specs/). What every reader of tokens shares stands
// here, so that whatever scans meets the same contract without knowing how another does: the types of the answer with its numbers, and a token's
// record.
#![tactic(auto)]

pub mod answer;

ghost use Rattle.std.specs.Prelude.{◌≡◌, ◌≤◌};
ghost use Rattle.base.specs.Refusal.{source_most};
ghost use Rattle.rows.specs.First.{depth_most};
ghost use Rattle.reading.specs.declared.ScanError.TheVariants.{Refused};
ghost use Rattle.reading.specs.Reading.{row_of};

use input::Refusal;
use rows::Row;
use state::Lexer;
use token::Token;

// How a scan ends that is not refused (document 01, "Records"): it answers `Result<Scan, ScanError>`. `count` is how many records were written, and
// `byte` is the current byte.
#[derive(Clone, Copy, Debug, PartialEq, Eq)]
pub enum Scan {
    // Nothing is left to read: the Rust would answer None.
    End { count: usize, byte: usize },
    // The last record is an Error that advanced nothing, which the Rust repeats for ever.
    Stuck { count: usize, byte: usize },
}

// Why a scan is refused (document 01, "Refusal numbers"), with the same two numbers where it had begun.
#[derive(Clone, Copy, Debug, PartialEq, Eq)]
pub enum ScanError {
    // One of refusals 1, 17, 2, 3 and 15, before any work: a source of over 1,048,576 bytes, a number that is no edition, an unfit table, bytes
    // that are wrong or cut.
    Refused(Refusal),
    // Refusal 4: a token is left to read and no record fits.
    ListFull { count: usize, byte: usize },
    // Refusal 5: a token would push a 65th mode.
    ModesFull { count: usize, byte: usize },
}

impl From<Refusal> for ScanError {
    ghost from_gives = { λ r e. e ≡ Refused r };

    fn from(r: Refusal) -> ScanError {
        ScanError::Refused(r)
    }
}

// The record of a token, from the lexer after it (lexer.rs `LexedToken`); the depth is that of the lexer before it.
pub fn row_of(token: Token, before: Lexer, after: Lexer) -> Row
    requires previous_byte_bound { (after.place.previous_byte.0 ≤ source_most) × (after.place.current_byte.0 ≤ source_most) }
    requires depth_le_depth_most { before.depth ≤ depth_most }
    ensures { result ≡ row_of token before after }
{
    let place = after.place;
    let start = place.span.start;
    let end = place.span.end;
    Row {
        kind: token.kind as u32,
        detail: token.detail as u32,
        start: place.previous_byte.0 as u32,
        end: place.current_byte.0 as u32,
        start_line: start.line,
        start_column: start.column.0,
        end_line: end.line,
        end_column: end.column.0,
        indent: after.indent,
        depth: before.depth as u32,
    }
}
