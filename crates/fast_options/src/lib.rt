// Format options in a template (lexer.rs `consume_format_options`), for the second engine, as a plain token: where they begin with three ASCII characters,
// no rule of clusters joins these, so the fill is one byte, and no table is asked. It knows no list and no records.
#![tactic(auto)]

ghost use Rattle.std.specs.Prelude.{◌≡◌, not, ◌&&◌, ◌+◌, ◌≤◌, eqb, ltb};
ghost use Rattle.base.specs.Refusal.{source_most};
ghost use Rattle.text.specs.Tests.{cr};
ghost use Rattle.text.specs.Stands.{Stands};
ghost use Rattle.state.specs.Lexer.{reach_of};
ghost use Rattle.fast_options.specs.FormatOptions.{skip_ascii, FindsOptions, FoundOptions};

use found::{Found, along, nothing};
use options::{find_brace, is_alignment};
use plain::{Plain, none};
use state::{Change, Lexer};
use token::kinds;

// Three ASCII characters of which no two are joined: the first is no carriage return.
fn stand_apart(a: u8, b: u8, c: u8) -> bool
    ensures { result ≡ (ltb a 128 && ltb b 128 && ltb c 128 && not (eqb a cr)) }
{
    (a < 128) & (b < 128) & (c < 128) & (a != 13)
}

// Where the search for the brace begins: past a fill of one byte and the alignment after it, if it is there.
fn skip_ascii(at: usize, after_fill: u8) -> usize
    requires { at ≤ source_most }
    ensures { result ≡ at + skip_ascii after_fill }
{
    if is_alignment(after_fill as u32) {
        return at + 2;
    }
    at
}

// The options up to their brace; none where the first three characters do not stand apart, or there is no brace.
pub fn format_options(source: &[u8], lexer: Lexer) -> Plain
    requires { Stands source.now (reach_of lexer) }
    ensures { FindsOptions source.now lexer result }
{
    let at = lexer.place.current_byte.0;
    if source.len() - at < 3 {
        return none();
    }
    let after_fill = source[at + 1];
    if !stand_apart(source[at], after_fill, source[at + 2]) {
        return none();
    }
    let Some(end) = find_brace(source, skip_ascii(at, after_fill)) else {
        return none();
    };
    Plain {
        kind: kinds::STRING_LITERAL,
        len: end - at,
    }
}

// The same by its parts.
pub fn find_options(source: &[u8], lexer: Lexer) -> Found
    requires { Stands source.now (reach_of lexer) }
    ensures { FoundOptions source.now lexer result }
{
    let plain = format_options(source, lexer);
    let kind = plain.kind;
    if kind == kinds::ERROR {
        return nothing();
    }
    along(lexer, kind, 0, plain.len, Change::Pop)
}
