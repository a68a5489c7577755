// A token by its parts, as the arms of the fast engine find it: few numbers, which the loop puts into one record, whatever arm they are of. It
// knows no source, no lists and no classes of bytes.
#![tactic(auto)]

ghost use Rattle.std.specs.Prelude.{◌≡◌, ◌≤◌};
ghost use Rattle.base.specs.Refusal.{source_most};
ghost use Rattle.position.specs.Position.{column_most};
ghost use Rattle.token.specs.Kind.{error};
ghost use Rattle.state.specs.Lexer.{reach_of};
ghost use Rattle.found.specs.Found.{found_along, found_to, found_of};

use position::{ByteOffset, Column, Place, Position, Reach, Span};
use state::{Change, Lexer, Taken};
use token::kinds;

// The token that follows: its kind and detail, where it ends, the indent of its line, and what becomes of the modes. The kind Error says that none was found, and that
// the whole read step is to be taken.
#[derive(Clone, Copy)]
pub struct Found {
    pub kind: u8,
    pub detail: u16,
    pub end: usize,
    pub line: u32,
    pub column: u32,
    pub indent: u32,
    pub change: Change,
}

// No token was found.
pub fn nothing() -> Found
    ensures { result.kind ≡ error }
{
    Found {
        kind: kinds::ERROR,
        detail: 0,
        end: 0,
        line: 0,
        column: 0,
        indent: 0,
        change: Change::Keep,
    }
}

// The token of so many ASCII bytes on this line.
pub fn along(lexer: Lexer, kind: u8, detail: u16, len: usize, change: Change) -> Found
    requires lexer_bound { ((reach_of lexer).byte.0 ≤ source_most) × (len ≤ source_most) }
    requires lexer_bound_2 { (reach_of lexer).position.column.0 ≤ column_most }
    ensures { result ≡ found_along kind detail len change lexer }
{
    let end = lexer.place.span.end;
    Found {
        kind,
        detail,
        end: lexer.place.current_byte.0 + len,
        line: end.line,
        column: end.column.0 + (len as u32),
        indent: lexer.indent,
        change,
    }
}

// The token that reaches so far.
pub fn to(lexer: Lexer, kind: u8, end: Reach) -> Found
    ensures { result ≡ found_to kind end lexer }
{
    let position = end.position;
    Found {
        kind,
        detail: 0,
        end: end.byte.0,
        line: position.line,
        column: position.column.0,
        indent: lexer.indent,
        change: Change::Keep,
    }
}

// The token that a `consume_*` took.
pub fn of(taken: Taken) -> Found
    ensures { result ≡ found_of taken }
{
    let end = taken.lexer.place.span.end;
    Found {
        kind: taken.token.kind,
        detail: taken.token.detail,
        end: taken.lexer.place.current_byte.0,
        line: end.line,
        column: end.column.0,
        indent: taken.lexer.indent,
        change: taken.change,
    }
}

// The same lexer, field by field: what is lent to a function that is not compiled into its caller has to stand in memory, and so the caller's own
// can stay in registers.
pub fn copied(lexer: Lexer) -> Lexer
    ensures { result ≡ lexer }
{
    let place = lexer.place;
    let start = place.span.start;
    let end = place.span.end;
    Lexer {
        place: Place {
            previous_byte: ByteOffset(place.previous_byte.0),
            current_byte: ByteOffset(place.current_byte.0),
            span: Span {
                start: Position {
                    line: start.line,
                    column: Column(start.column.0),
                },
                end: Position {
                    line: end.line,
                    column: Column(end.column.0),
                },
            },
        },
        depth: lexer.depth,
        indent: lexer.indent,
        mode: lexer.mode,
        previous_token: lexer.previous_token,
    }
}
