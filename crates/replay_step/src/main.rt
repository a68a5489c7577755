// Replays the read step over recorded answers of the Rust (data/steps.txt; tools/README.md says how it was made), with the full table: kind,
// detail, range, span, indent and depth of every token, and how the reading ends. Then a file with one wrong line, so that a difference is seen
// to be reported. The table is fit, since it was read; what else the step requires holds at the start of a source, and each step keeps it.
#![tactic(auto)]

ghost use Rattle.std.specs.Prelude.{◌≤◌};
ghost use Rattle.fitness.specs.Fit.{FitTable};
ghost use Rattle.state.specs.State.{start_state};
ghost use Rattle.stepping.specs.Invariant.{Ok};

use lexer::What;
use lines::Fields;
use state::{Lexer, State};
use std::io;

// Whether the next fields are the ten numbers of a record, of a token that was found at this depth.
fn same_record(fields: &mut Fields, token: token::Token, depth: usize, lexer: Lexer) -> bool {
    let place = lexer.place;
    let start = place.span.start;
    let end = place.span.end;
    fields.same(token.kind as usize)
        && fields.same(token.detail as usize)
        && fields.same(place.previous_byte.0)
        && fields.same(place.current_byte.0)
        && fields.all_same(&[
            start.line,
            start.column.0,
            end.line,
            end.column.0,
            lexer.indent,
        ])
        && fields.same(depth)
}

// Whether a reading ended as the line's status, count and byte say: 0 at the end, 1 where stuck, and 105 where there is no room for a mode. The
// Error that stands still has a record, and leaves the modes.
fn ends(end: [usize; 3], fields: &mut Fields, what: What, count: usize, lexer: Lexer) -> bool
    requires { count ≤ 4097 }
{
    let byte = lexer.place.current_byte.0;
    match what {
        What::Stuck => {
            same_record(fields, token::token_of(0), lexer.depth, lexer)
                && end == [1, count + 1, byte]
        }
        What::ModesFull => end == [105, count, byte],
        _ => end == [0, count, byte],
    }
}

// Whether the steps over a source find what a line has from its status on: `STATUS COUNT BYTE RECORDS..`.
fn steps_agree(mut fields: Fields, source: &[u8], table: &[u32]) -> bool
    requires { FitTable table.now × Ok source.now start_state }
{
    let end = [fields.number(), fields.number(), fields.number()];
    let mut state = State::new();
    for k in 0..4097 {
        let depth = state.lexer.depth;
        let step = lexer::read_token(source, table, 2, state);
        let what = step.what;
        state = step.state;
        match what {
            What::Token(token) => {
                if !same_record(&mut fields, token, depth, state.lexer) {
                    return false;
                }
            }
            _ => {
                return ends(end, &mut fields, what, k, state.lexer);
            }
        }
    }
    false
}

// The same of bytes that may be no source: one that is too long or not well formed agrees with no line.
fn source_agrees(fields: Fields, source: &[u8], table: &[u32]) -> bool
    requires { FitTable table.now }
{
    if 1_048_576 < source.len() {
        return false;
    }
    match utf8::check_utf8(source) {
        Ok(()) => steps_agree(fields, source, table),
        Err(_) => false,
    }
}

// Whether the line `HEX STATUS COUNT BYTE RECORDS..` is what the steps say.
fn agrees(line: &[u8], table: &[u32]) -> bool
    requires { FitTable table.now }
{
    let mut fields = Fields::of(line);
    let mut buffer = lines::buffer();
    let source = fields.hex(&mut buffer);
    source_agrees(fields, source, table)
}

fn main(rt: HostRuntime) -> io::Result<()> {
    let Some(table) = tables::load_table(&rt, "full.kpt")? else {
        return Ok(());
    };
    lines::replay(&rt, "steps.txt", |line| agrees(line, &table))?;
    lines::replay(&rt, "wrong.txt", |line| agrees(line, &table))
}
