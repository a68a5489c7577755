// A name whose first character is above 127 (lexer.rs `consume_id_or_keyword`), for the second engine. No keyword begins so, and neither "else" nor "r"
// does, so that it is an Id, whatever stands before it. It knows no lists and no records.
#![tactic(auto)]

ghost use Rattle.std.specs.Prelude.{◌≤◌, ◌<◌, length, get_or};
ghost use Rattle.fitness.specs.Fit.{FitTable};
ghost use Rattle.text.specs.Stands.{Stands};
ghost use Rattle.state.specs.Lexer.{reach_of};
ghost use Rattle.short.specs.Short.{CodeFinds};

use found::{Found, nothing, to};
use name_runs::{decode, end_of_parts, run_by, run_with};
use state::Lexer;
use token::kinds;

// What is found, and the number of the table's run that had the last character above 127, to try first for the next name.
#[derive(Clone, Copy)]
pub struct Wide {
    pub found: Found,
    pub run: usize,
}

// The name at the lexer's place, where a character above 127 stands outside a string; nothing, where that begins no name. The run `near` is tried first,
// which may be any number.
pub fn wide_name(source: &[u8], table: &[u32], lexer: Lexer, near: usize) -> Wide
    requires stands { Stands source.now (reach_of lexer) × ((reach_of lexer).byte.0 < length source.now) }
    requires fit_table { FitTable table.now × (128 ≤ get_or source.now (reach_of lexer).byte.0 0) }
    ensures { CodeFinds source.now table.now lexer result.found }
{
    let reach = lexer.reach();
    let first = decode(source, reach.byte.0);
    let run = run_with(table, first.code, run_by(table, near));
    if !property::is_id_start(run.properties) {
        return Wide {
            found: nothing(),
            run: run.number,
        };
    }
    let ended = end_of_parts(source, table, reach.along(first.len, 1), run);
    Wide {
        found: to(lexer, kinds::ID, ended.reach),
        run: ended.run,
    }
}
