// String literals and raw strings (lexer.rs `consume_string_literal`, `consume_raw_string_contents`, `consume_raw_string_end`). What a loop does
// at a character is a turn, a function with no loop, and the loop follows the turns. It knows no comments, no list and no records.
#![tactic(auto)]

ghost use Rattle.std.specs.Prelude.{◌≡◌, ◌+◌, ◌≤◌, ◌<◌, length, drop};
ghost use Rattle.base.specs.Refusal.{source_most};
ghost use Rattle.position.specs.Position.{column_most};
ghost use Rattle.utf8.specs.Encode.{WellFormed};
ghost use Rattle.utf8.specs.Chars.{chars};
ghost use Rattle.property.specs.Table.{properties_at};
ghost use Rattle.fitness.specs.Fit.{FitTable};
ghost use Rattle.text.specs.Follow.{turn_at};
ghost use Rattle.text.specs.Stands.{Stands, chars_from};
ghost use Rattle.state.specs.Lexer.{reach_of};
ghost use Rattle.strings.specs.ConsumeStringLiteral.{escape_turn, literal_turn, consume_string_literal};
ghost use Rattle.strings.specs.ConsumeRawString.{raw_closed, consume_raw_string_contents, consume_raw_string_end};

use base::chars::{BACKSLASH, CURLY_OPEN, HASH, LETTER_U};
use newlines::{char_turn, is_printable, plain_turn};
use position::Reach;
use state::{Change, Lexer, Taken};
use text::{Turn, byte_at};
use token::kinds;

// A backslash at `at`, and what it escapes: `\u{` covers its brace, which opens no template.
fn escape_turn(source: &[u8], at: usize, quote: u32) -> Turn
    requires well_formed { WellFormed (drop (at + 1) source.now) × (at < length source.now) }
    requires quote_bound { quote < 128 }
    ensures { result ≡ escape_turn quote (chars (drop (at + 1) source.now)) }
{
    let c = byte_at(source, at + 1);
    if c == LETTER_U {
        if byte_at(source, at + 2) == CURLY_OPEN {
            return Turn::Pass(3, 3);
        }
        return Turn::Pass(2, 2);
    }
    if c == CURLY_OPEN || c == BACKSLASH || c == quote {
        return Turn::Pass(2, 2);
    }
    Turn::Pass(1, 1)
}

// One turn in a string literal, which ends before its quote and before "{".
pub fn literal_turn(source: &[u8], table: &[u32], at: usize, quote: u32) -> Turn
    requires well_formed { WellFormed (drop at source.now) × (at < length source.now) }
    requires fit_table { FitTable table.now × (quote < 128) }
    ensures { result ≡ turn_at (literal_turn (properties_at table.now) quote) (chars (drop at source.now)) }
{
    let b = byte_at(source, at);
    if b == quote || b == CURLY_OPEN {
        return Turn::Close(0, 0);
    }
    if b == BACKSLASH {
        return escape_turn(source, at, quote);
    }
    if is_printable(b) {
        return Turn::Pass(1, 1);
    }
    char_turn(source, table, at)
}

// lexer.rs `consume_string_literal`: up to the end quote or a template's brace. Unclosed, it stands still.
pub fn consume_string_literal(source: &[u8], table: &[u32], lexer: Lexer, quote: u32) -> Taken
    requires stands { Stands source.now (reach_of lexer) × FitTable table.now }
    requires quote_bound { quote < 128 }
    ensures { result ≡ consume_string_literal (properties_at table.now) quote (chars_from source.now (reach_of lexer)) lexer }
{
    let mut reach = lexer.reach();
    let mut i = reach.byte.0;
    while i < source.len() {
        match literal_turn(source, table, i, quote) {
            Turn::Pass(bytes, columns) => {
                reach = reach.along(bytes, columns);
            }
            Turn::Line(bytes) => {
                reach = reach.next_line(bytes);
            }
            Turn::Close(bytes, columns) => {
                return lexer.token_to(kinds::STRING_LITERAL, reach.along(bytes, columns));
            }
            Turn::Stuck => {
                return lexer.stuck();
            }
        }
        i = reach.byte.0;
    }
    lexer.stuck()
}

// The contents of a raw string end: the mode RawStart gives way to RawEnd.
pub fn raw_closed(lexer: Lexer, end: Reach, delimiter: u16) -> Taken
    requires { delimiter < 512 }
    ensures { result ≡ raw_closed delimiter lexer end }
{
    Taken {
        token: token::token_of(kinds::STRING_LITERAL),
        lexer: lexer.advance_to_position(end),
        change: Change::Replace(state::RAW_END * 512 + delimiter),
    }
}

// lexer.rs `consume_raw_string_contents`: up to a quote with as many hashes after it as opened the string.
pub fn consume_raw_string_contents(
    source: &[u8],
    table: &[u32],
    lexer: Lexer,
    delimiter: u16,
) -> Taken
    requires stands { Stands source.now (reach_of lexer) × FitTable table.now }
    requires delimiter_bound { delimiter < 512 }
    ensures { result ≡ consume_raw_string_contents (properties_at table.now) delimiter (chars_from source.now (reach_of lexer)) lexer }
{
    let quote = state::quote_of(delimiter);
    let hash_count = state::hash_count_of(delimiter);
    let mut reach = lexer.reach();
    let mut i = reach.byte.0;
    'outer: while i < source.len() {
        if byte_at(source, i) == quote {
            // Is this the end delimiter?
            for k in 0..hash_count {
                if byte_at(source, i + 1 + k) != HASH {
                    // A hash is missing: the quote and the hashes before it are contents.
                    reach = reach.along_ascii(1 + k);
                    i = reach.byte.0;
                    continue 'outer;
                }
            }
            return raw_closed(lexer, reach, delimiter);
        }
        match plain_turn(source, table, i) {
            Turn::Pass(bytes, columns) => {
                reach = reach.along(bytes, columns);
            }
            Turn::Line(bytes) => {
                reach = reach.next_line(bytes);
            }
            Turn::Close(bytes, columns) => {
                return raw_closed(lexer, reach.along(bytes, columns), delimiter);
            }
            Turn::Stuck => {
                return lexer.stuck();
            }
        }
        i = reach.byte.0;
    }
    lexer.stuck()
}

// lexer.rs `consume_raw_string_end`: the end delimiter has already been matched with the contents.
pub fn consume_raw_string_end(lexer: Lexer, delimiter: u16) -> Taken
    requires lexer_bound { ((reach_of lexer).byte.0 ≤ source_most) × ((reach_of lexer).position.column.0 ≤ column_most) }
    requires delimiter_bound { delimiter < 512 }
    ensures { result ≡ consume_raw_string_end delimiter lexer }
{
    Taken {
        token: token::token_of(kinds::STRING_END),
        lexer: lexer.advance_line(1 + state::hash_count_of(delimiter)),
        change: Change::Pop,
    }
}
