// One read step (lexer.rs `get_next_token`): from a state, the source and the table to the next state and the token. It knows no list and
// no records.
//
// The source is well formed and the table fit; a caller tests both once, in front. The lexer's half of the step takes no array: it
// answers what becomes of the modes, and only a token that changes them touches the stack.
#![tactic(auto)]

ghost use Rattle.std.specs.Prelude.{◌≡◌, ◌≤◌, ◌<◌, length, get_or};
ghost use Rattle.base.specs.Refusal.{source_most};
ghost use Rattle.position.specs.Position.{column_most};
ghost use Rattle.utf8.specs.Read.{is_tail};
ghost use Rattle.property.specs.Table.{properties_at};
ghost use Rattle.fitness.specs.Fit.{FitTable};
ghost use Rattle.text.specs.Bytes.{byte_at};
ghost use Rattle.text.specs.Stands.{Stands, chars_from};
ghost use Rattle.state.specs.Lexer.{reach_of};
ghost use Rattle.state.specs.Stack.{Agrees};
ghost use Rattle.lexer.specs.GetNextToken.{one_byte, start_string, take_token};
ghost use Rattle.lexer.specs.Step.{is_full, stood_still, half_of, half, step};
ghost use Rattle.lexer.specs.Fine.{Fine};
ghost use Rattle.lexer.specs.Arms.{InLiteralIs, InCodeIs, BeginsIs, Other};

use base::between;
use base::chars::{CR, CURLY_OPEN, DOUBLE_QUOTE, HASH, LF, SINGLE_QUOTE, SPACE, TAB, UNDERSCORE};
use state::{
    Change, LITERAL, Lexer, Modes, RAW_END, RAW_START, State, TEMPLATE_EXPR, TEMPLATE_EXPR_FORMAT,
    Taken,
};
use text::byte_at;
use token::{Token, kinds, token_of};

// What a read step finds.
#[derive(Clone, Copy)]
pub enum What {
    // A token.
    Token(Token),
    // An Error that stands still.
    Stuck,
    // A token would push a 65th mode.
    ModesFull,
    // Nothing is left, or the place is inside a longer character.
    End,
}

// The answer of the lexer's half: its next, and what becomes of the modes.
#[derive(Clone, Copy)]
pub struct Half {
    pub what: What,
    pub lexer: Lexer,
    pub change: Change,
}

// The answer of the whole step.
#[derive(Drop)]
pub struct Step {
    pub what: What,
    pub state: State,
}

// A token of one byte, with what becomes of the modes.
fn one_byte(lexer: Lexer, token: Token, change: Change) -> Taken
    requires { ((reach_of lexer).byte.0 ≤ source_most) × ((reach_of lexer).position.column.0 ≤ column_most) }
    ensures { result ≡ one_byte token change lexer }
{
    Taken {
        token,
        lexer: lexer.advance_line(1),
        change,
    }
}

// The start of a normal string; the delimiter is 0 for a double quote and 1 for a single one.
fn start_string(lexer: Lexer, delimiter: u16) -> Taken
    requires lexer_bound { ((reach_of lexer).byte.0 ≤ source_most) × ((reach_of lexer).position.column.0 ≤ column_most) }
    requires delimiter_bound { delimiter < 512 }
    ensures { result ≡ start_string delimiter lexer }
{
    one_byte(
        lexer,
        Token {
            kind: kinds::STRING_START,
            detail: delimiter,
        },
        Change::Push(LITERAL * 512 + delimiter),
    )
}

// What a character outside a string begins.
#[derive(Clone, Copy)]
enum Begins {
    Number,
    Name,
    Symbol,
}

// What the character at the lexer's place begins, if it is above ASCII: a name, or an unknown symbol.
fn begins_wide(source: &[u8], table: &[u32], lexer: Lexer) -> Begins
    requires stands { Stands source.now (reach_of lexer) × ((reach_of lexer).byte.0 < length source.now) }
    requires fit_table { FitTable table.now × (128 ≤ byte_at source.now (reach_of lexer).byte.0) }
    ensures { BeginsIs source.now table.now lexer result }
{
    let at = lexer.place.current_byte.0;
    let c = text::char_at(source, table, at);
    if property::is_id_start(c.properties) {
        return Begins::Name;
    }
    Begins::Symbol
}

// What the character at the lexer's place begins, if its byte b is none of those that `in_code` tests.
fn what_begins(source: &[u8], table: &[u32], lexer: Lexer, b: u32) -> Begins
    requires stands { Stands source.now (reach_of lexer) × ((reach_of lexer).byte.0 < length source.now) }
    requires fit_table { FitTable table.now × (byte_at source.now (reach_of lexer).byte.0 ≡ b) × Other b × (b ≡ 95 → ⊥) }
    ensures { BeginsIs source.now table.now lexer result }
{
    if b < 48 {
        return Begins::Symbol;
    }
    if b <= 57 {
        return Begins::Number;
    }
    if b < 65 {
        return Begins::Symbol;
    }
    if b <= 90 {
        return Begins::Name;
    }
    if b < 97 {
        return Begins::Symbol;
    }
    if b <= 122 {
        return Begins::Name;
    }
    if b < 128 {
        return Begins::Symbol;
    }
    begins_wide(source, table, lexer)
}

// What follows outside a string, where the byte b is none of those that `in_code` tests: a number, a name, or a symbol.
fn in_rest(source: &[u8], table: &[u32], lexer: Lexer, b: u32) -> Taken
    requires stands { Stands source.now (reach_of lexer) × ((reach_of lexer).byte.0 < length source.now) }
    requires fit_table { FitTable table.now × (byte_at source.now (reach_of lexer).byte.0 ≡ b) × Other b × (b ≡ 95 → ⊥) }
    ensures { InCodeIs source.now table.now lexer result }
{
    match what_begins(source, table, lexer, b) {
        Begins::Number => numbers::consume_number(source, lexer),
        Begins::Name => names::consume_id_or_keyword(source, table, lexer),
        Begins::Symbol => symbol_tokens::consume_symbol(source, lexer),
    }
}

// What follows outside a string.
fn in_code(source: &[u8], table: &[u32], lexer: Lexer) -> Taken
    requires stands { Stands source.now (reach_of lexer) × ((reach_of lexer).byte.0 < length source.now) }
    requires fit_table { FitTable table.now }
    ensures { InCodeIs source.now table.now lexer result }
{
    let at = lexer.place.current_byte.0;
    let b = byte_at(source, at);
    if b == SPACE || b == TAB {
        return numbers::consume_whitespace(source, lexer);
    }
    if b == LF || b == CR {
        return newlines::consume_newline(source, lexer);
    }
    if b == HASH {
        return comments::consume_comment(source, table, lexer);
    }
    if b == DOUBLE_QUOTE {
        return start_string(lexer, 0);
    }
    if b == SINGLE_QUOTE {
        return start_string(lexer, 1);
    }
    if b == UNDERSCORE {
        return names::consume_ignored(source, table, lexer);
    }
    in_rest(source, table, lexer, b)
}

// What follows in a literal: its end, a template, or contents.
fn in_literal(source: &[u8], table: &[u32], lexer: Lexer, quote: u32) -> Taken
    requires stands { Stands source.now (reach_of lexer) × ((reach_of lexer).byte.0 < length source.now) }
    requires fit_table { FitTable table.now × (quote < 128) }
    ensures { InLiteralIs source.now table.now quote lexer result }
{
    let at = lexer.place.current_byte.0;
    let b = byte_at(source, at);
    if b == quote {
        return one_byte(lexer, token_of(kinds::STRING_END), Change::Pop);
    }
    if b == CURLY_OPEN {
        return one_byte(
            lexer,
            token_of(kinds::CURLY_OPEN),
            Change::Push(TEMPLATE_EXPR * 512),
        );
    }
    strings::consume_string_literal(source, table, lexer, quote)
}

// The mode on top decides.
fn take_token(source: &[u8], table: &[u32], edition: u32, lexer: Lexer) -> Taken
    requires stands { Stands source.now (reach_of lexer) × ((reach_of lexer).byte.0 < length source.now) }
    requires fit_table { FitTable table.now }
    ensures { result ≡ take_token (properties_at table.now) edition (chars_from source.now (reach_of lexer)) lexer }
{
    let tag = lexer.mode / 512;
    let delimiter = lexer.mode % 512;
    match tag {
        LITERAL => in_literal(source, table, lexer, state::quote_of(delimiter)),
        TEMPLATE_EXPR_FORMAT => options::consume_format_options(source, table, edition, lexer),
        RAW_START => strings::consume_raw_string_contents(source, table, lexer, delimiter),
        RAW_END => strings::consume_raw_string_end(lexer, delimiter),
        _ => in_code(source, table, lexer),
    }
}

// The change is a push, and no mode fits at this depth.
pub fn is_full(change: Change, depth: usize) -> bool
    ensures { result ≡ is_full change depth }
{
    match change {
        Change::Keep => false,
        Change::Push(_) => 63 < depth,
        Change::Pop => false,
        Change::Replace(_) => false,
    }
}

// An Error that advanced nothing.
fn stood_still(before: Lexer, taken: Taken) -> bool
    ensures { result ≡ stood_still before taken }
{
    taken.token.kind == kinds::ERROR
        && taken.lexer.place.current_byte.0 == before.place.current_byte.0
}

// The lexer's half of the answer, from the token that was taken.
fn half_of(before: Lexer, taken: Taken) -> Half
    ensures { result ≡ half_of before taken }
{
    if is_full(taken.change, before.depth) {
        return Half {
            what: What::ModesFull,
            lexer: before,
            change: Change::Keep,
        };
    }
    if stood_still(before, taken) {
        return Half {
            what: What::Stuck,
            lexer: taken.lexer.remember(taken.token.kind),
            change: taken.change,
        };
    }
    Half {
        what: What::Token(taken.token),
        lexer: taken.lexer.remember(taken.token.kind),
        change: taken.change,
    }
}

// Is the byte at `at` inside a character that began before it?
fn is_inside(source: &[u8], at: usize) -> bool
    requires { at < length source.now }
    ensures { result ≡ is_tail (get_or source.now at 0) }
{
    between(source[at], 0x80, 0xbf)
}

// The lexer's half of the read step.
pub fn read_half(source: &[u8], table: &[u32], edition: u32, lexer: Lexer) -> Half
    requires { Fine source.now lexer × FitTable table.now }
    ensures { result ≡ half (properties_at table.now) edition source.now lexer }
{
    let at = lexer.place.current_byte.0;
    if source.len() <= at {
        return Half {
            what: What::End,
            lexer,
            change: Change::Keep,
        };
    }
    if is_inside(source, at) {
        return Half {
            what: What::End,
            lexer,
            change: Change::Keep,
        };
    }
    half_of(lexer, take_token(source, table, edition, lexer.settle()))
}

// The read step: from a state to the next, and what was found.
pub fn read_token(source: &[u8], table: &[u32], edition: u32, before: State) -> Step
    requires { Fine source.now before.lexer × FitTable table.now × Agrees before }
    ensures { result ≡ step (properties_at table.now) edition source.now before }
{
    let mut codes = before.modes.codes;
    let half = read_half(source, table, edition, before.lexer);
    let lexer = half.lexer.apply(&mut codes, half.change);
    Step {
        what: half.what,
        state: State {
            lexer,
            modes: Modes {
                codes,
                depth: lexer.depth,
            },
        },
    }
}
