// The token that follows, by the class of its first byte (the crate `classes`): what the fast engine reads by itself. What it leaves to the whole
// read step is told by `nothing`. It knows no lists and no records.
#![tactic(auto)]

ghost use Rattle.std.specs.Prelude.{◌≡◌, ◌≤◌, ◌<◌, length};
ghost use Rattle.base.specs.Refusal.{source_most};
ghost use Rattle.position.specs.Position.{column_most};
ghost use Rattle.position.specs.Place.{line_by};
ghost use Rattle.property.specs.Table.{properties_at};
ghost use Rattle.fitness.specs.Fit.{FitTable};
ghost use Rattle.token.specs.Kind.{new_line};
ghost use Rattle.text.specs.Bytes.{byte_at};
ghost use Rattle.text.specs.Stands.{Stands, chars_from};
ghost use Rattle.state.specs.Lexer.{reach_of, token_to};
ghost use Rattle.numbers.specs.Places.{GoesOn};
ghost use Rattle.numbers.specs.ConsumeWhitespace.{consume_whitespace};
ghost use Rattle.names.specs.ConsumeIdOrKeyword.{name_end, keyword_or_id, name_token, consume_id_or_keyword};
ghost use Rattle.lexer.specs.GetNextToken.{start_string};
ghost use Rattle.classes.specs.Classes.{ClassTable};
ghost use Rattle.found.specs.Found.{Finds};
ghost use Rattle.short.specs.Short.{CodeFinds, LiteralFinds, TokenFinds};

use base::chars::CURLY_OPEN;
use classes::class_at;
use found::{Found, along, nothing, to};
use position::Reach;
use state::{Change, LITERAL, Lexer, RAW_END, RAW_START, TEMPLATE_EXPR, TEMPLATE_EXPR_FORMAT};
use text::{Whitespace, byte_at, run_end};
use token::kinds;

// Spaces and tabs.
pub fn blank(source: &[u8], lexer: Lexer) -> Found
    requires { Stands source.now (reach_of lexer) }
    ensures { Finds (consume_whitespace (chars_from source.now (reach_of lexer)) lexer) lexer result }
{
    let at = lexer.place.current_byte.0;
    let len = run_end::<Whitespace>(source, at) - at;
    along(
        lexer.indent_by(len as u32),
        kinds::WHITESPACE,
        0,
        len,
        Change::Keep,
    )
}

// A line feed.
fn line_feed(lexer: Lexer) -> Found
    requires { ((reach_of lexer).byte.0 ≤ source_most) × ((reach_of lexer).position.line ≤ source_most) }
    ensures { Finds (token_to new_line (line_by 1 (reach_of lexer)) lexer) lexer result }
{
    let reach = lexer.reach();
    to(lexer, kinds::NEW_LINE, reach.next_line(1))
}

// The start of a normal string; the delimiter is 0 for a double quote and 1 for a single one.
fn start_string(lexer: Lexer, delimiter: u16) -> Found
    requires lexer_bound { ((reach_of lexer).byte.0 ≤ source_most) × ((reach_of lexer).position.column.0 ≤ column_most) }
    requires delimiter_bound { delimiter < 512 }
    ensures { Finds (start_string delimiter lexer) lexer result }
{
    along(
        lexer,
        kinds::STRING_START,
        delimiter,
        1,
        Change::Push(LITERAL * 512 + delimiter),
    )
}

// A keyword, but not after a dot; or the name that reaches to `end`.
fn keyword_or_id(source: &[u8], lexer: Lexer, end: Reach) -> Found
    requires { Stands source.now (reach_of lexer) × GoesOn source.now (reach_of lexer) end }
    ensures { Finds (keyword_or_id (chars_from source.now (reach_of lexer)) end lexer) lexer result }
{
    let previous_token = lexer.previous_token;
    if previous_token == kinds::DOT {
        return to(lexer, kinds::ID, end);
    }
    let at = lexer.place.current_byte.0;
    let len = end.byte.0 - at;
    let kind = fast_keywords::keyword(source, at, len);
    if kind == kinds::ID {
        return to(lexer, kinds::ID, end);
    }
    along(lexer, kind, 0, len, Change::Keep)
}

// The name that reaches to `end`; "else" and "r" are left to the whole read step.
fn name_to(source: &[u8], lexer: Lexer, end: Reach) -> Found
    requires { Stands source.now (reach_of lexer) × GoesOn source.now (reach_of lexer) end }
    ensures { Finds (name_token (chars_from source.now (reach_of lexer)) end lexer) lexer result }
{
    let at = lexer.place.current_byte.0;
    let len = end.byte.0 - at;
    if words::is_else(source, at, len) {
        return nothing();
    }
    if words::is_r(source, at, len) {
        return nothing();
    }
    keyword_or_id(source, lexer, end)
}

// A name whose first character is ASCII.
fn name(source: &[u8], table: &[u32], lexer: Lexer) -> Found
    requires { Stands source.now (reach_of lexer) × FitTable table.now × (byte_at source.now (reach_of lexer).byte.0 < 128) }
    ensures { Finds (consume_id_or_keyword (properties_at table.now) (chars_from source.now (reach_of lexer)) lexer) lexer result }
{
    name_to(source, lexer, fast_names::name_end(source, table, lexer, 1))
}

// What follows outside a string, by the class of its first byte.
fn in_code(source: &[u8], table: &[u32], classes: &[u8; 256], lexer: Lexer) -> Found
    requires stands { Stands source.now (reach_of lexer) × ((reach_of lexer).byte.0 < length source.now) }
    requires fit_table { FitTable table.now × ClassTable classes.now }
    ensures { CodeFinds source.now table.now lexer result }
{
    let at = lexer.place.current_byte.0;
    match class_at(source, classes, at) {
        0 => start_string(lexer, 0),
        1 => start_string(lexer, 1),
        2 => signs::curly_open(source, lexer),
        4 => name(source, table, lexer),
        7 => blank(source, lexer),
        8 => signs::single_sign(source, lexer),
        9 => signs::operator(source, lexer),
        10 => signs::dot(source, lexer),
        11 => signs::colon(source, lexer),
        12 => signs::curly_close(source, lexer),
        15 => signs::minus(source, lexer),
        16 => blank(source, lexer),
        17 => line_feed(lexer),
        _ => nothing(),
    }
}

// What follows in a literal: its end, or a template.
pub fn in_literal(source: &[u8], table: &[u32], lexer: Lexer, quote: u32) -> Found
    requires { Stands source.now (reach_of lexer) × ((reach_of lexer).byte.0 < length source.now) × (quote < 128) }
    ensures { LiteralFinds source.now table.now quote lexer result }
{
    let at = lexer.place.current_byte.0;
    let b = byte_at(source, at);
    if b == quote {
        return along(lexer, kinds::STRING_END, 0, 1, Change::Pop);
    }
    if b == CURLY_OPEN {
        return along(
            lexer,
            kinds::CURLY_OPEN,
            0,
            1,
            Change::Push(TEMPLATE_EXPR * 512),
        );
    }
    nothing()
}

// The token that follows, as far as its first byte tells it.
pub fn find(source: &[u8], table: &[u32], classes: &[u8; 256], lexer: Lexer) -> Found
    requires stands { Stands source.now (reach_of lexer) × ((reach_of lexer).byte.0 < length source.now) }
    requires fit_table { FitTable table.now × ClassTable classes.now }
    ensures { TokenFinds source.now table.now lexer result }
{
    let tag = lexer.mode / 512;
    let delimiter = lexer.mode % 512;
    match tag {
        LITERAL => in_literal(source, table, lexer, state::quote_of(delimiter)),
        TEMPLATE_EXPR_FORMAT => nothing(),
        RAW_START => nothing(),
        RAW_END => nothing(),
        _ => in_code(source, table, classes, lexer),
    }
}
