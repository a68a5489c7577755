// Names and keywords, and the start of raw strings (lexer.rs `consume_id_or_keyword`, `parse_raw_string_start`, `consume_ignored`). It knows no
// list and no records.
#![tactic(auto)]

ghost use Rattle.std.specs.Prelude.{◌≡◌, ◌≤◌, ◌<◌, length, drop};
ghost use Rattle.base.specs.Refusal.{source_most};
ghost use Rattle.position.specs.Position.{column_most};
ghost use Rattle.utf8.specs.Chars.{chars};
ghost use Rattle.property.specs.Table.{properties_at};
ghost use Rattle.fitness.specs.Fit.{FitTable};
ghost use Rattle.text.specs.Bytes.{byte_at};
ghost use Rattle.text.specs.Chars.{LenIs};
ghost use Rattle.text.specs.Stands.{Stands, chars_from};
ghost use Rattle.state.specs.Lexer.{reach_of};
ghost use Rattle.numbers.specs.Places.{PlaceIn, GoesOn};
ghost use Rattle.names.specs.ConsumeIdOrKeyword.{name_end, parse_raw_string_start, raw_string_start, keyword_or_id, name_token, consume_id_or_keyword, consume_ignored};
ghost use Rattle.names.specs.Decided.{RawDecides};

use base::chars::{DOUBLE_QUOTE, SINGLE_QUOTE};
use position::Reach;
use state::{Change, Lexer, Taken};
use text::{Hash, IdContinue, byte_at, run_end, run_utf8};
use token::kinds;

// lexer.rs `parse_raw_string_start`: up to 255 hashes and a quote, at `at`. They give the delimiter: twice the hash count, and 1 more for a
// single quote.
#[tactic(auto, using(crate::proofs::Hashes::too_many))]
fn parse_raw_string_start(source: &[u8], at: usize) -> Option<u16>
    requires { PlaceIn source.now at }
    ensures { result ≡ parse_raw_string_start (chars (drop at source.now)) }
{
    let quote_at = run_end::<Hash>(source, at);
    let hash_count = quote_at - at;
    if 255 < hash_count {
        return None;
    }
    let quote = byte_at(source, quote_at);
    if quote == DOUBLE_QUOTE {
        return Some(2 * (hash_count as u16));
    }
    if quote == SINGLE_QUOTE {
        return Some(2 * (hash_count as u16) + 1);
    }
    None
}

// The token of a raw string's start.
fn raw_string_start(lexer: Lexer, delimiter: u16) -> Taken
    requires lexer_bound { ((reach_of lexer).byte.0 ≤ source_most) × (delimiter < 512) }
    requires lexer_bound_2 { (reach_of lexer).position.column.0 ≤ column_most }
    ensures { result ≡ raw_string_start delimiter lexer }
{
    Taken {
        token: token::Token {
            kind: kinds::STRING_START,
            detail: 2 + delimiter,
        },
        lexer: lexer.advance_line(2 + state::hash_count_of(delimiter)),
        change: Change::Push(state::RAW_START * 512 + delimiter),
    }
}

// A keyword, but not after a dot; or the name that reaches to `end`.
fn keyword_or_id(source: &[u8], lexer: Lexer, end: Reach) -> Taken
    requires { Stands source.now (reach_of lexer) × GoesOn source.now (reach_of lexer) end }
    ensures { result ≡ keyword_or_id (chars_from source.now (reach_of lexer)) end lexer }
{
    if lexer.previous_token == kinds::DOT {
        return lexer.token_to(kinds::ID, end);
    }
    let reach = lexer.reach();
    let at = reach.byte.0;
    let len = end.byte.0 - at;
    let kind = keywords::keyword(source, at, len);
    if kind == kinds::ID {
        return lexer.token_to(kinds::ID, end);
    }
    lexer.token(kind, len)
}

// The delimiter of a raw string, where the name that reaches to `end` is "r" and opens one.
fn raw_start(source: &[u8], lexer: Lexer, end: Reach) -> Option<u16>
    requires { Stands source.now (reach_of lexer) × GoesOn source.now (reach_of lexer) end }
    ensures { RawDecides source.now lexer end result }
{
    let reach = lexer.reach();
    let at = reach.byte.0;
    let len = end.byte.0 - at;
    if words::is_r(source, at, len) {
        return parse_raw_string_start(source, at + 1);
    }
    None
}

// The token of the name that reaches to `end`.
fn name_token(source: &[u8], lexer: Lexer, end: Reach) -> Taken
    requires { Stands source.now (reach_of lexer) × GoesOn source.now (reach_of lexer) end }
    ensures { result ≡ name_token (chars_from source.now (reach_of lexer)) end lexer }
{
    let reach = lexer.reach();
    let at = reach.byte.0;
    let len = end.byte.0 - at;
    if words::is_else(source, at, len) {
        if words::is_else_if(source, at) {
            return lexer.token(kinds::ELSE_IF, 7);
        }
        return lexer.token(kinds::ELSE, 4);
    }
    match raw_start(source, lexer, end) {
        Some(delimiter) => raw_string_start(lexer, delimiter),
        None => keyword_or_id(source, lexer, end),
    }
}

// How far the name at the lexer's place reaches. Its first character, of `len` bytes, counts one column, the others their width.
fn name_end(source: &[u8], table: &[u32], lexer: Lexer, len: usize) -> Reach
    requires { Stands source.now (reach_of lexer) × FitTable table.now × LenIs source.now (reach_of lexer).byte.0 len }
    ensures { result ≡ name_end (properties_at table.now) (chars_from source.now (reach_of lexer)) lexer }
{
    let reach = lexer.reach();
    run_utf8::<IdContinue>(source, table, reach.along(len, 1))
}

// lexer.rs `consume_id_or_keyword`. The first character has already been matched.
pub fn consume_id_or_keyword(source: &[u8], table: &[u32], lexer: Lexer) -> Taken
    requires stands { Stands source.now (reach_of lexer) × FitTable table.now }
    requires lexer_in_bounds { (reach_of lexer).byte.0 < length source.now }
    ensures { result ≡ consume_id_or_keyword (properties_at table.now) (chars_from source.now (reach_of lexer)) lexer }
{
    let reach = lexer.reach();
    let len = text::char_len(source, reach.byte.0);
    name_token(source, lexer, name_end(source, table, lexer, len))
}

// lexer.rs `consume_ignored`. The `_` has already been matched.
pub fn consume_ignored(source: &[u8], table: &[u32], lexer: Lexer) -> Taken
    requires stands { Stands source.now (reach_of lexer) × FitTable table.now }
    requires lexer_value { byte_at source.now (reach_of lexer).byte.0 ≡ 95 }
    ensures { result ≡ consume_ignored (properties_at table.now) (chars_from source.now (reach_of lexer)) lexer }
{
    lexer.token_to(kinds::UNDERSCORE, name_end(source, table, lexer, 1))
}
