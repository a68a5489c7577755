// Names of ASCII characters and keywords for the fast engine (lexer.rs `consume_id_or_keyword`), eight bytes at a time. What it leaves to others is told
// by `none`: "else" and "r", a name that goes on above 127, and one that begins fewer than nine bytes before the end of the source. It knows no lists.
#![tactic(auto)]

ghost use Rattle.std.specs.Prelude.{◌≡◌, true, ◌+◌, ◌≤◌, ◌<◌, eqb, length, get_or, take, drop};
ghost use Rattle.base.specs.Pick.{pick};
ghost use Rattle.fitness.specs.Ascii.{is_name_part};
ghost use Rattle.token.specs.Kind.{id, dot};
ghost use Rattle.text.specs.Stands.{Stands};
ghost use Rattle.state.specs.Lexer.{reach_of};
ghost use Rattle.fast_names.specs.NameRun.{NameRun};
ghost use Rattle.plain_names.specs.PlainNames.{NameFinds};

use fast_names::parts_end;
use name_words::count8;
use plain::{Plain, none};
use state::Lexer;
use text::byte_at;
use token::kinds;

// A keyword's kind, but Id after a dot.
fn kind_after(previous: u8, kind: u8) -> u8
    ensures { result ≡ pick (eqb previous dot) id kind }
{
    if previous == kinds::DOT {
        return kinds::ID;
    }
    kind
}

// Where the parts of a name end that stand from `at` on. Most names end among the first eight bytes.
fn name_end(source: &[u8], at: usize) -> usize
    requires { at ≤ length source.now }
    ensures { NameRun source.now at result }
{
    let mut i = at;
    while 8 <= source.len() - i {
        let n = count8(source, i);
        if n < 8 {
            return i + n;
        }
        i += 8;
    }
    parts_end(source, i)
}

// The name or keyword at the lexer's place, where a part of a name stands.
pub fn name(source: &[u8], lexer: Lexer) -> Plain
    requires stands { Stands source.now (reach_of lexer) × ((reach_of lexer).byte.0 < length source.now) }
    requires lexer_value { is_name_part (get_or source.now (reach_of lexer).byte.0 0) ≡ true }
    ensures { NameFinds source.now lexer result }
{
    let at = lexer.place.current_byte.0;
    if source.len() < at + 9 {
        return none();
    }
    let word = fast_keywords::word8(source, at);
    let end = name_end(source, at);
    if 127 < byte_at(source, end) {
        return none();
    }
    let len = end - at;
    if words::is_else(source, at, len) {
        return none();
    }
    if words::is_r(source, at, len) {
        return none();
    }
    let kind = fast_keywords::keyword_by(source, at, len, word);
    Plain {
        kind: kind_after(lexer.previous_token, kind),
        len,
    }
}
