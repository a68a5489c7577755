// Newlines (lexer.rs `consume_newline`), and the arms that the loops over comments and strings have in common. What a loop does at a character
// is a turn, a function with no loop, and the loop follows the turns. It knows no comments, no strings and no records.
#![tactic(auto)]

ghost use Rattle.std.specs.Prelude.{◌≡◌, ◌<◌, length, drop};
ghost use Rattle.utf8.specs.Encode.{WellFormed};
ghost use Rattle.utf8.specs.Chars.{chars};
ghost use Rattle.property.specs.Table.{properties_at};
ghost use Rattle.fitness.specs.Fit.{FitTable};
ghost use Rattle.fitness.specs.Ascii.{is_printable};
ghost use Rattle.text.specs.Follow.{turn_at};
ghost use Rattle.text.specs.Stands.{Stands, chars_from};
ghost use Rattle.state.specs.Lexer.{reach_of};
ghost use Rattle.newlines.specs.ConsumeNewline.{consume_newline};
ghost use Rattle.newlines.specs.PlainTurn.{plain_turn};

use base::chars::{CR, LF, SPACE, TILDE};
use base::code_between;
use state::{Lexer, Taken};
use text::{Turn, byte_at};
use token::kinds;

// lexer.rs `consume_newline`. A "\r" or a "\n" has been matched.
pub fn consume_newline(source: &[u8], lexer: Lexer) -> Taken
    requires { Stands source.now (reach_of lexer) }
    ensures { result ≡ consume_newline (chars_from source.now (reach_of lexer)) lexer }
{
    let reach = lexer.reach();
    let at = reach.byte.0;
    let b = byte_at(source, at);
    if b == CR {
        let after = byte_at(source, at + 1);
        if after == LF {
            return lexer.token_to(kinds::NEW_LINE, reach.next_line(2));
        }
        return lexer.stuck();
    }
    if b == LF {
        return lexer.token_to(kinds::NEW_LINE, reach.next_line(1));
    }
    lexer.stuck()
}

// The arms that all loops have in common, for any character: only newlines count.
pub fn char_turn(source: &[u8], table: &[u32], at: usize) -> Turn
    requires well_formed { WellFormed (drop at source.now) × (at < length source.now) }
    requires fit_table { FitTable table.now }
    ensures { result ≡ turn_at (plain_turn (properties_at table.now)) (chars (drop at source.now)) }
{
    let c = text::char_at(source, table, at);
    if c.code == CR {
        if byte_at(source, at + 1) == LF {
            return Turn::Line(2);
        }
        return Turn::Stuck;
    }
    if c.code == LF {
        return Turn::Line(1);
    }
    Turn::Pass(c.len, property::width_of(c.properties))
}

// A printable ASCII character: it has one byte and one column, so its properties need not be asked for.
pub fn is_printable(b: u32) -> bool
    ensures { result ≡ is_printable b }
{
    code_between(b, SPACE, TILDE)
}

// The arms in common, at any character. Each loop tests for a printable one by itself, so that the test is part of the loop.
pub fn plain_turn(source: &[u8], table: &[u32], at: usize) -> Turn
    requires well_formed { WellFormed (drop at source.now) × (at < length source.now) }
    requires fit_table { FitTable table.now }
    ensures { result ≡ turn_at (plain_turn (properties_at table.now)) (chars (drop at source.now)) }
{
    if is_printable(byte_at(source, at)) {
        return Turn::Pass(1, 1);
    }
    char_turn(source, table, at)
}
