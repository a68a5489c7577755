// How far the parts of a name reach (lexer.rs `consume_and_count_utf8` of `is_id_continue`), character by character, for the second engine. A character
// above 127 is decoded by the range of its lead byte, and looked up in the run of the table that had the one before it: while characters stay in one
// run, the table is not read. It knows no names, no keywords and no list.
#![tactic(auto)]

ghost use Rattle.std.specs.Prelude.{◌≡◌, ◌≤◌, ◌<◌, length, get_or, drop};
ghost use Rattle.utf8.specs.Encode.{WellFormed};
ghost use Rattle.property.specs.Table.{properties_at, Rises};
ghost use Rattle.fitness.specs.Fit.{FitTable};
ghost use Rattle.fitness.specs.Ascii.{is_name_part};
ghost use Rattle.text.specs.Tests.{id_continue};
ghost use Rattle.text.specs.Count.{run_test};
ghost use Rattle.text.specs.Stands.{Stands, chars_from};
ghost use Rattle.name_runs.specs.Runs.{run_at, RunIs, RunHas, PointIs};

use base::between;
use position::Reach;

// A letter, a digit or the underscore.
pub fn is_part(x: u8) -> bool
    ensures { result ≡ is_name_part x }
{
    (between(x, b'A', b'Z') | between(x, b'a', b'z')) | (between(x, b'0', b'9') | (x == b'_'))
}

// A run of the table: its number, its first code point, the first one behind it, and the properties of those that it has.
#[derive(Clone, Copy)]
pub struct Run {
    pub number: usize,
    pub low: u32,
    pub over: u32,
    pub properties: u32,
}

// The run of this number. The last one has every code point from its first on.
fn run_at(table: &[u32], number: usize) -> Run
    requires { number < length table.now }
    ensures { result ≡ run_at table.now number }
{
    let word = table[number];
    if number + 1 == table.len() {
        return Run {
            number,
            low: word / 2048,
            over: 1_114_112,
            properties: word % 2048,
        };
    }
    Run {
        number,
        low: word / 2048,
        over: table[number + 1] / 2048,
        properties: word % 2048,
    }
}

// The run of this number, which may be any; the first one where there is none.
pub fn run_by(table: &[u32], near: usize) -> Run
    requires { Rises table.now }
    ensures { RunIs table.now result }
{
    if near < table.len() {
        return run_at(table, near);
    }
    run_at(table, 0)
}

// The run that has a code point: this one, or by halving.
pub fn run_with(table: &[u32], code: u32, run: Run) -> Run
    requires { Rises table.now × RunIs table.now run }
    ensures { RunHas table.now code result }
{
    if code < run.low {
        return run_at(table, property::run_of(table, code));
    }
    if run.over <= code {
        return run_at(table, property::run_of(table, code));
    }
    run
}

// A character above 127 without its properties: its code point and its bytes.
#[derive(Clone, Copy)]
pub struct Point {
    pub code: u32,
    pub len: usize,
}

// The character at `at`, above 127. The bytes are well formed, so the range of the lead byte says how many it has.
pub fn decode(source: &[u8], at: usize) -> Point
    requires { WellFormed (drop at source.now) × (at < length source.now) × (128 ≤ get_or source.now at 0) }
    ensures { PointIs source.now at result }
{
    let a = source[at];
    if a < 0xe0 {
        return Point {
            code: utf8::join2(a, source[at + 1]),
            len: 2,
        };
    }
    if a < 0xf0 {
        return Point {
            code: utf8::join3(a, source[at + 1], source[at + 2]),
            len: 3,
        };
    }
    Point {
        code: utf8::join4(a, source[at + 1], source[at + 2], source[at + 3]),
        len: 4,
    }
}

// How far a run of characters reaches, and the number of the table's run that had the last one above 127, to try first for the next.
#[derive(Clone, Copy)]
pub struct Ended {
    pub reach: Reach,
    pub run: usize,
}

// How far the parts of a name from `start` on reach. The run is tried first.
pub fn end_of_parts(source: &[u8], table: &[u32], start: Reach, first: Run) -> Ended
    requires { Stands source.now start × FitTable table.now × RunIs table.now first }
    ensures { result.reach ≡ run_test (properties_at table.now) id_continue start (chars_from source.now start) }
{
    let mut reach = start;
    let mut i = reach.byte.0;
    let mut run = first;
    while i < source.len() {
        let b = source[i];
        if b < 128 {
            if !is_part(b) {
                return Ended {
                    reach,
                    run: run.number,
                };
            }
            reach = reach.along_ascii(1);
            i = reach.byte.0;
            continue;
        }
        let c = decode(source, i);
        run = run_with(table, c.code, run);
        if !property::is_id_continue(run.properties) {
            return Ended {
                reach,
                run: run.number,
            };
        }
        reach = reach.along(c.len, property::width_of(run.properties));
        i = reach.byte.0;
    }
    Ended {
        reach,
        run: run.number,
    }
}
