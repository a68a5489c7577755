// Comments (lexer.rs `consume_comment`). It knows no strings, no list and no records.
#![tactic(auto)]

ghost use Rattle.std.specs.Prelude.{◌≡◌, ◌<◌, length, drop};
ghost use Rattle.position.specs.Place.{along_by};
ghost use Rattle.utf8.specs.Encode.{WellFormed};
ghost use Rattle.utf8.specs.Chars.{chars};
ghost use Rattle.property.specs.Table.{properties_at};
ghost use Rattle.fitness.specs.Fit.{FitTable};
ghost use Rattle.text.specs.Bytes.{byte_at};
ghost use Rattle.text.specs.Follow.{turn_at};
ghost use Rattle.text.specs.Stands.{Stands, chars_from};
ghost use Rattle.state.specs.Lexer.{reach_of};
ghost use Rattle.comments.specs.ConsumeComment.{comment_turn, consume_comment_multi, consume_comment};

use base::chars::{HASH, MINUS};
use newlines::{char_turn, is_printable};
use state::{Lexer, Taken};
use text::{Turn, byte_at};
use token::kinds;

// One turn in a multi-line comment: "#-" is passed over as a pair, and does not nest.
pub fn comment_turn(source: &[u8], table: &[u32], at: usize) -> Turn
    requires well_formed { WellFormed (drop at source.now) × (at < length source.now) }
    requires fit_table { FitTable table.now }
    ensures { result ≡ turn_at (comment_turn (properties_at table.now)) (chars (drop at source.now)) }
{
    let b = byte_at(source, at);
    if b == HASH && byte_at(source, at + 1) == MINUS {
        return Turn::Pass(2, 2);
    }
    if b == MINUS && byte_at(source, at + 1) == HASH {
        return Turn::Close(2, 2);
    }
    if is_printable(b) {
        return Turn::Pass(1, 1);
    }
    char_turn(source, table, at)
}

// The multi-line comment. Its "#" is passed, and its "-" may also begin the close.
fn consume_comment_multi(source: &[u8], table: &[u32], lexer: Lexer) -> Taken
    requires { Stands source.now (along_by 1 1 (reach_of lexer)) × FitTable table.now }
    ensures { result ≡ consume_comment_multi (properties_at table.now) (chars_from source.now (along_by 1 1 (reach_of lexer))) lexer }
{
    let mut reach = lexer.reach().along_ascii(1);
    let mut i = reach.byte.0;
    while i < source.len() {
        match comment_turn(source, table, i) {
            Turn::Pass(bytes, columns) => {
                reach = reach.along(bytes, columns);
            }
            Turn::Line(bytes) => {
                reach = reach.next_line(bytes);
            }
            Turn::Close(bytes, columns) => {
                return lexer.token_to(kinds::COMMENT_MULTI, reach.along(bytes, columns));
            }
            Turn::Stuck => {
                return lexer.stuck();
            }
        }
        i = reach.byte.0;
    }
    lexer.token_to(kinds::ERROR, reach)
}

// lexer.rs `consume_comment`. The `#` has been matched.
pub fn consume_comment(source: &[u8], table: &[u32], lexer: Lexer) -> Taken
    requires stands { Stands source.now (reach_of lexer) × FitTable table.now }
    requires lexer_value { byte_at source.now (reach_of lexer).byte.0 ≡ 35 }
    ensures { result ≡ consume_comment (properties_at table.now) (chars_from source.now (reach_of lexer)) lexer }
{
    let start = lexer.reach().along_ascii(1);
    if byte_at(source, start.byte.0) == MINUS {
        return consume_comment_multi(source, table, lexer);
    }
    lexer.token_to(
        kinds::COMMENT_SINGLE,
        text::run_utf8::<text::NoLineEnd>(source, table, start),
    )
}
