// Comments (lexer.rs `consume_comment`), for the second engine: as the crate `comments` has them, by the same contract, but what stays in a comment
// is passed by blocks. It knows no strings, no list and no records.
#![tactic(auto)]

ghost use Rattle.std.specs.Prelude.{◌≡◌};
ghost use Rattle.position.specs.Place.{along_by};
ghost use Rattle.property.specs.Table.{properties_at};
ghost use Rattle.fitness.specs.Fit.{FitTable};
ghost use Rattle.text.specs.Bytes.{byte_at};
ghost use Rattle.text.specs.Stands.{Stands, chars_from};
ghost use Rattle.state.specs.Lexer.{reach_of};
ghost use Rattle.comments.specs.ConsumeComment.{consume_comment_multi, consume_comment};

use base::chars::MINUS;
use comments::comment_turn;
use state::{Lexer, Taken};
use text::{Turn, byte_at};
use token::kinds;

// The multi-line comment. Its "#" is passed, and its "-" may also begin the close.
fn consume_comment_multi(source: &[u8], table: &[u32], lexer: Lexer) -> Taken
    requires { Stands source.now (along_by 1 1 (reach_of lexer)) × FitTable table.now }
    ensures { result ≡ consume_comment_multi (properties_at table.now) (chars_from source.now (along_by 1 1 (reach_of lexer))) lexer }
{
    let mut reach = lexer.reach().along_ascii(1);
    loop {
        reach = skip::pass(source, reach, b'#', b'-', b'-');
        let i = reach.byte.0;
        if source.len() <= i {
            return lexer.token_to(kinds::ERROR, reach);
        }
        match comment_turn(source, table, i) {
            Turn::Pass(bytes, columns) => {
                reach = reach.along(bytes, columns);
            }
            Turn::Line(bytes) => {
                reach = reach.next_line(bytes);
            }
            Turn::Close(bytes, columns) => {
                return lexer.token_to(kinds::COMMENT_MULTI, reach.along(bytes, columns));
            }
            Turn::Stuck => {
                return lexer.stuck();
            }
        }
    }
}

// lexer.rs `consume_comment`. The `#` has been matched.
pub fn consume_comment(source: &[u8], table: &[u32], lexer: Lexer) -> Taken
    requires stands { Stands source.now (reach_of lexer) × FitTable table.now }
    requires lexer_value { byte_at source.now (reach_of lexer).byte.0 ≡ 35 }
    ensures { result ≡ consume_comment (properties_at table.now) (chars_from source.now (reach_of lexer)) lexer }
{
    let start = lexer.reach().along_ascii(1);
    if byte_at(source, start.byte.0) == MINUS {
        return consume_comment_multi(source, table, lexer);
    }
    // Any byte that is not printable stands for none that is left out.
    let near = skip::pass(source, start, 0, 0, 0);
    lexer.token_to(
        kinds::COMMENT_SINGLE,
        text::run_utf8::<text::NoLineEnd>(source, table, near),
    )
}
