// The read step of the second engine (lexer.rs `get_next_token`), from a lexer to the lexer's half of the answer, as the crate `lexer` has it. A token is
// read by the class of its first byte (the crate `short`); else, where it is a comment or the contents of a string, by blocks, and where it is a name that
// begins above 127, by `wide_names`; else by the step of `lexer`. It knows no lists and no records.
#![tactic(auto)]

ghost use Rattle.std.specs.Prelude.{◌≡◌, false, ◌<◌, eqb, length};
ghost use Rattle.property.specs.Table.{properties_at};
ghost use Rattle.fitness.specs.Fit.{FitTable};
ghost use Rattle.token.specs.Kind.{error};
ghost use Rattle.text.specs.Stands.{Stands};
ghost use Rattle.state.specs.Lexer.{reach_of, settled, remembered};
ghost use Rattle.lexer.specs.Fine.{Fine};
ghost use Rattle.lexer.specs.Step.{half_of, half};
ghost use Rattle.classes.specs.Classes.{ClassTable};
ghost use Rattle.found.specs.Found.{found_taken};
ghost use Rattle.short.specs.Short.{CodeFinds, LiteralFinds, TokenFinds};
ghost use Rattle.fast_step.specs.FastStep.{StepFinds};

use base::between;
use base::chars::CURLY_OPEN;
use fast_options::find_options;
use found::{Found, copied, nothing, of};
use lexer::{Half, What, is_full, read_half};
use position::{ByteOffset, Column, Place, Position, Span};
use state::{Change, LITERAL, Lexer, RAW_END, RAW_START, TEMPLATE_EXPR_FORMAT};
use text::byte_at;
use token::{Token, kinds};

// The lexer after a token that was found.
fn after(lexer: Lexer, found: Found) -> Lexer
    ensures { result ≡ remembered found.kind (found_taken found (settled lexer)).lexer }
{
    let current_byte = lexer.place.current_byte;
    let start = lexer.place.span.end;
    Lexer {
        place: Place {
            previous_byte: current_byte,
            current_byte: ByteOffset(found.end),
            span: Span {
                start,
                end: Position {
                    line: found.line,
                    column: Column(found.column),
                },
            },
        },
        depth: lexer.depth,
        indent: found.indent,
        mode: lexer.mode,
        previous_token: found.kind,
    }
}

// The lexer's half of the read step, from a token that was found.
pub fn found_half(lexer: Lexer, found: Found) -> Half
    requires { eqb found.kind error ≡ false }
    ensures { result ≡ half_of lexer (found_taken found (settled lexer)) }
{
    if is_full(found.change, lexer.depth) {
        return Half {
            what: What::ModesFull,
            lexer,
            change: Change::Keep,
        };
    }
    Half {
        what: What::Token(Token {
            kind: found.kind,
            detail: found.detail,
        }),
        lexer: after(lexer, found),
        change: found.change,
    }
}

// The token that follows, if its first byte is ASCII and its class tells it.
fn find_short(source: &[u8], table: &[u32], classes: &[u8; 256], lexer: Lexer) -> Found
    requires { Fine source.now lexer × FitTable table.now × ClassTable classes.now }
    ensures { StepFinds source.now table.now lexer result }
{
    let at = lexer.place.current_byte.0;
    if 127 < byte_at(source, at) {
        return nothing();
    }
    short::find(source, table, classes, lexer.settle())
}

// A comment, or a name whose first character is above 127, outside a string. The run `near` of the table is tried first for such a character, and then the
// one to try next stands there.
fn long_in_code(source: &[u8], table: &[u32], lexer: Lexer, near: &mut usize) -> Found
    requires stands { Stands source.now (reach_of lexer) × ((reach_of lexer).byte.0 < length source.now) }
    requires fit_table { FitTable table.now }
    ensures { CodeFinds source.now table.now lexer result }
{
    let at = lexer.place.current_byte.0;
    let b = source[at];
    if b == b'#' {
        return of(fast_comments::consume_comment(source, table, lexer));
    }
    if b < 128 {
        return nothing();
    }
    let wide = wide_names::wide_name(source, table, lexer, *near);
    *near = wide.run;
    wide.found
}

// The contents of a literal.
fn contents_in_literal(source: &[u8], table: &[u32], lexer: Lexer, quote: u32) -> Found
    requires stands { Stands source.now (reach_of lexer) × ((reach_of lexer).byte.0 < length source.now) }
    requires fit_table { FitTable table.now × (quote < 128) }
    ensures { LiteralFinds source.now table.now quote lexer result }
{
    let at = lexer.place.current_byte.0;
    let b = byte_at(source, at);
    if b == quote {
        return nothing();
    }
    if b == CURLY_OPEN {
        return nothing();
    }
    of(fast_strings::consume_string_literal(source, table, lexer, quote))
}

// What is passed by blocks, or a name that begins above 127, by the mode on top.
fn find_by_blocks(source: &[u8], table: &[u32], lexer: Lexer, near: &mut usize) -> Found
    requires stands { Stands source.now (reach_of lexer) × ((reach_of lexer).byte.0 < length source.now) }
    requires fit_table { FitTable table.now }
    ensures { TokenFinds source.now table.now lexer result }
{
    let tag = lexer.mode / 512;
    let delimiter = lexer.mode % 512;
    match tag {
        LITERAL => contents_in_literal(source, table, lexer, state::quote_of(delimiter)),
        TEMPLATE_EXPR_FORMAT => find_options(source, lexer),
        RAW_START => of(fast_strings::consume_raw_string_contents(source, table, lexer, delimiter)),
        RAW_END => nothing(),
        _ => long_in_code(source, table, lexer, near),
    }
}

// The token that follows, if a character begins there, and it is passed by blocks or is a name that begins above 127.
fn find_long(source: &[u8], table: &[u32], lexer: Lexer, near: &mut usize) -> Found
    requires { Fine source.now lexer × FitTable table.now }
    ensures { StepFinds source.now table.now lexer result }
{
    let at = lexer.place.current_byte.0;
    if source.len() <= at {
        return nothing();
    }
    if between(source[at], 0x80, 0xbf) {
        return nothing();
    }
    find_by_blocks(source, table, lexer.settle(), near)
}

// The lexer's half of the read step, as `lexer::read_half` answers it, where it is known or hoped that the token is passed by blocks or is a name that begins
// above 127. The run of the table to try first for a character above 127 is `near`, which may be any number. What is lent to a function that is not compiled into
// this one is a copy.
pub fn long_half(source: &[u8], table: &[u32], edition: u32, lexer: Lexer, near: &mut usize) -> Half
    requires { Fine source.now lexer × FitTable table.now }
    ensures { result ≡ half (properties_at table.now) edition source.now lexer }
{
    let long = find_long(source, table, copied(lexer), near);
    if long.kind != kinds::ERROR {
        return found_half(lexer, long);
    }
    let half = read_half(source, table, edition, copied(lexer));
    Half {
        what: half.what,
        lexer: copied(half.lexer),
        change: half.change,
    }
}

// The same, where the token may be any.
pub fn fast_half_near(
    source: &[u8],
    table: &[u32],
    edition: u32,
    classes: &[u8; 256],
    lexer: Lexer,
    near: &mut usize,
) -> Half
    requires { Fine source.now lexer × FitTable table.now × ClassTable classes.now }
    ensures { result ≡ half (properties_at table.now) edition source.now lexer }
{
    let short = find_short(source, table, classes, lexer);
    if short.kind != kinds::ERROR {
        return found_half(lexer, short);
    }
    long_half(source, table, edition, lexer, near)
}

// The same with no run to try first.
pub fn fast_half(
    source: &[u8],
    table: &[u32],
    edition: u32,
    classes: &[u8; 256],
    lexer: Lexer,
) -> Half
    requires { Fine source.now lexer × FitTable table.now × ClassTable classes.now }
    ensures { result ≡ half (properties_at table.now) edition source.now lexer }
{
    let mut near = 0;
    fast_half_near(source, table, edition, classes, lexer, &mut near)
}
