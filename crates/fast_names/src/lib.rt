// The end of a name (lexer.rs `consume_id_or_keyword`, `consume_ignored`), for the second engine: as the crate `names` has it, by the same contract, but
// letters, digits and the underscore are passed by blocks, and what follows above 127 by `name_runs`. It knows no keywords, no list and no records.
#![tactic(auto)]

ghost use Rattle.std.specs.Prelude.{◌≡◌, ◌+◌, ◌≤◌, length};
ghost use Rattle.property.specs.Table.{properties_at};
ghost use Rattle.fitness.specs.Fit.{FitTable};
ghost use Rattle.fitness.specs.Ascii.{is_name_part};
ghost use Rattle.text.specs.Chars.{LenIs};
ghost use Rattle.text.specs.Stands.{Stands, chars_from};
ghost use Rattle.state.specs.Lexer.{reach_of};
ghost use Rattle.names.specs.ConsumeIdOrKeyword.{name_end};
ghost use Rattle.fast_names.specs.NameRun.{NameRun};

pub use name_runs::Ended;
use name_runs::{end_of_parts, is_part, run_by};
use position::Reach;
use skip::{Stays, count, end_singly};
use state::Lexer;
use text::byte_at;

// The parts of a name: letters, digits and the underscore.
#[derive(Clone, Copy)]
struct Parts;

impl Stays for Parts {
    ghost test = { λ _. is_name_part };

    fn stays(self, x: u8) -> bool {
        is_part(x)
    }
}

// Where the parts of a name end that stand from `at` on.
pub fn parts_end(source: &[u8], at: usize) -> usize
    requires { at ≤ length source.now }
    ensures { NameRun source.now at result }
{
    let mut i = at;
    while 32 <= source.len() - i {
        let n = count(source, i, 32, Parts);
        if n < 32 {
            return i + n;
        }
        i += 32;
    }
    end_singly(source, i, Parts)
}

// How far the name at the lexer's place reaches. Its first character, of `len` bytes, counts one column, the others their width. The run `near` is
// tried first for those above 127, which may be any number.
pub fn name_end_near(source: &[u8], table: &[u32], lexer: Lexer, len: usize, near: usize) -> Ended
    requires { Stands source.now (reach_of lexer) × FitTable table.now × LenIs source.now (reach_of lexer).byte.0 len }
    ensures { result.reach ≡ name_end (properties_at table.now) (chars_from source.now (reach_of lexer)) lexer }
{
    let start = lexer.reach().along(len, 1);
    let at = start.byte.0;
    let end = parts_end(source, at);
    let reach = start.along_ascii(end - at);
    // An ASCII character that is no part of a name ends it.
    if byte_at(source, end) < 128 {
        return Ended { reach, run: near };
    }
    // What is lent to a function that is not compiled into this one is a copy.
    end_of_parts(
        source,
        table,
        start.along_ascii(end - at),
        run_by(table, near),
    )
}

// The same with no run to try first.
pub fn name_end(source: &[u8], table: &[u32], lexer: Lexer, len: usize) -> Reach
    requires { Stands source.now (reach_of lexer) × FitTable table.now × LenIs source.now (reach_of lexer).byte.0 len }
    ensures { result ≡ name_end (properties_at table.now) (chars_from source.now (reach_of lexer)) lexer }
{
    let ended = name_end_near(source, table, lexer, len, 0);
    ended.reach
}
