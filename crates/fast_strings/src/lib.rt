// The contents of string literals and raw strings (lexer.rs `consume_string_literal`, `consume_raw_string_contents`), for the second engine: as the
// crate `strings` has them, by the same contracts, but what stays in the contents is passed by blocks; and contents that end within one block, as a
// plain token. It knows no comments, no list and no records.
#![tactic(auto)]

ghost use Rattle.std.specs.Prelude.{◌≡◌, ◌||◌, ◌<◌, eqb};
ghost use Rattle.property.specs.Table.{properties_at};
ghost use Rattle.fitness.specs.Fit.{FitTable};
ghost use Rattle.text.specs.Stands.{Stands, chars_from};
ghost use Rattle.state.specs.Lexer.{reach_of};
ghost use Rattle.strings.specs.ConsumeStringLiteral.{consume_string_literal};
ghost use Rattle.strings.specs.ConsumeRawString.{consume_raw_string_contents};
ghost use Rattle.text.specs.Tests.{curly_open};
ghost use Rattle.fast_strings.specs.Contents.{FindsContents};

use base::chars::{CURLY_OPEN, HASH};
use newlines::plain_turn;
use plain::{Plain, none};
use state::{Lexer, Taken};
use strings::{literal_turn, raw_closed};
use text::{Turn, byte_at};
use token::kinds;

// A literal ends before its quote, and before a template's brace.
fn ends(b: u32, quote: u32) -> bool
    ensures { result ≡ (eqb b quote || eqb b curly_open) }
{
    (b == quote) | (b == CURLY_OPEN)
}

// The contents of a literal that are printable ASCII without a backslash and end within one block, as most are; else none. The block is counted without a
// branch: where contents end is hard to guess.
pub fn contents(source: &[u8], lexer: Lexer, quote: u32) -> Plain
    requires { Stands source.now (reach_of lexer) × (quote < 128) }
    ensures { FindsContents source.now quote lexer result }
{
    let at = lexer.place.current_byte.0;
    let end = skip::skip_block(source, at, quote as u8, b'{', b'\\');
    if ends(byte_at(source, end), quote) {
        return Plain {
            kind: kinds::STRING_LITERAL,
            len: end - at,
        };
    }
    none()
}

// lexer.rs `consume_string_literal`: up to the end quote or a template's brace. Unclosed, it stands still.
pub fn consume_string_literal(source: &[u8], table: &[u32], lexer: Lexer, quote: u32) -> Taken
    requires stands { Stands source.now (reach_of lexer) × FitTable table.now }
    requires quote_bound { quote < 128 }
    ensures { result ≡ consume_string_literal (properties_at table.now) quote (chars_from source.now (reach_of lexer)) lexer }
{
    let end_quote = quote as u8;
    let mut reach = lexer.reach();
    loop {
        reach = skip::pass_near(source, reach, end_quote, b'{', b'\\');
        let i = reach.byte.0;
        if source.len() <= i {
            return lexer.stuck();
        }
        // Most literals end here, and need no turn.
        let b = byte_at(source, i);
        if b == quote {
            return lexer.token_to(kinds::STRING_LITERAL, reach);
        }
        if b == CURLY_OPEN {
            return lexer.token_to(kinds::STRING_LITERAL, reach);
        }
        match literal_turn(source, table, i, quote) {
            Turn::Pass(bytes, columns) => {
                reach = reach.along(bytes, columns);
            }
            Turn::Line(bytes) => {
                reach = reach.next_line(bytes);
            }
            Turn::Close(bytes, columns) => {
                return lexer.token_to(kinds::STRING_LITERAL, reach.along(bytes, columns));
            }
            Turn::Stuck => {
                return lexer.stuck();
            }
        }
    }
}

// lexer.rs `consume_raw_string_contents`: up to a quote with as many hashes after it as opened the string.
pub fn consume_raw_string_contents(
    source: &[u8],
    table: &[u32],
    lexer: Lexer,
    delimiter: u16,
) -> Taken
    requires stands { Stands source.now (reach_of lexer) × FitTable table.now }
    requires delimiter_bound { delimiter < 512 }
    ensures { result ≡ consume_raw_string_contents (properties_at table.now) delimiter (chars_from source.now (reach_of lexer)) lexer }
{
    let quote = state::quote_of(delimiter);
    let end_quote = quote as u8;
    let hash_count = state::hash_count_of(delimiter);
    let mut reach = lexer.reach();
    'outer: loop {
        reach = skip::pass(source, reach, end_quote, end_quote, end_quote);
        let i = reach.byte.0;
        if source.len() <= i {
            return lexer.stuck();
        }
        if byte_at(source, i) == quote {
            // Is this the end delimiter?
            for k in 0..hash_count {
                if byte_at(source, i + 1 + k) != HASH {
                    // A hash is missing: the quote and the hashes before it are contents.
                    reach = reach.along_ascii(1 + k);
                    continue 'outer;
                }
            }
            return raw_closed(lexer, reach, delimiter);
        }
        match plain_turn(source, table, i) {
            Turn::Pass(bytes, columns) => {
                reach = reach.along(bytes, columns);
            }
            Turn::Line(bytes) => {
                reach = reach.next_line(bytes);
            }
            Turn::Close(bytes, columns) => {
                return raw_closed(lexer, reach.along(bytes, columns), delimiter);
            }
            Turn::Stuck => {
                return lexer.stuck();
            }
        }
    }
}
