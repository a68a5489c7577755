// Whether a property table is fit (document 01, "The property table", and refusal 2 with its place), and the small table.
// It knows nothing of the table's file, UTF-8, clusters and tokens.
#![tactic(auto)]

pub mod answer;

ghost use Rattle.std.specs.Prelude.{◌≡◌, ◌<◌, leb, length};
ghost use Rattle.base.specs.All.{all_good};
ghost use Rattle.property.specs.Parts.{start_of};
ghost use Rattle.property.specs.Table.{Rises};
ghost use Rattle.fitness.specs.Small.{small_table};
ghost use Rattle.fitness.specs.First.{first_bad};
ghost use Rattle.fitness.specs.Fit.{start_ok, properties_ok, run_ok, start_most, ascii_ok, table_check};
ghost use Rattle.fitness.specs.Quick.{follows_ok, begins_as_small};

use property::{class_of, is_id_continue, is_id_start, lookup};

// A table has 1 to 8,000 numbers.
pub const MOST: usize = 8000;

// The last code point, U+10FFFF.
const LAST: u32 = 1114111;

// Why a table is unfit.
#[derive(Clone, Copy, Debug, PartialEq, Eq)]
pub enum TableError {
    // Refusal 2, with its place: 0 for a bad count; else the first bad run, from 0; else, if only 0 to 127 differ, the count.
    BadTable(usize),
}

// The first run starts at 0, and starts rise strictly.
fn start_ok(table: &[u32], i: usize) -> bool
    requires { i < length table.now }
    ensures { result ≡ start_ok table.now i }
{
    let start = table[i] / 2048;
    if i == 0 {
        return start == 0;
    }
    table[i - 1] / 2048 < start
}

// No class 14 or 15, no XID_Start without XID_Continue.
fn properties_ok(properties: u32) -> bool
    ensures { result ≡ properties_ok properties }
{
    (class_of(properties) <= 13) & (!is_id_start(properties) | is_id_continue(properties))
}

// The run rules at one run, but for `within`.
fn follows(table: &[u32], i: usize) -> bool
    requires { i < length table.now }
    ensures { result ≡ follows_ok table.now i }
{
    start_ok(table, i) & properties_ok(table[i] % 2048)
}

// A run starts at the last code point at most.
fn within(run: u32) -> bool
    ensures { result ≡ leb (start_of run) start_most }
{
    run / 2048 <= LAST
}

// The run rules, at one run.
fn run_ok(table: &[u32], i: usize) -> bool
    requires { i < length table.now }
    ensures { result ≡ run_ok table.now i }
{
    follows(table, i) & within(table[i])
}

// Whether every run keeps the run rules. The loop has no branch, so it is compiled to take several runs at once. Where starts rise the last
// is the greatest, so only the last run is asked for `within`.
fn all_runs_ok(table: &[u32]) -> bool
    requires { 0 < length table.now }
    ensures { result ≡ all_good (run_ok table.now) (length table.now) }
{
    let mut ok = follows(table, 0);
    for i in 1..table.len() {
        ok &= follows(table, i);
    }
    ok & within(table[table.len() - 1])
}

// The first run that breaks a run rule; the count where none does.
fn first_bad_run(table: &[u32]) -> usize
    requires { 0 < length table.now }
    ensures { result ≡ first_bad (run_ok table.now) 0 (length table.now) }
{
    if all_runs_ok(table) {
        return table.len();
    }
    for i in 0..table.len() {
        if !run_ok(table, i) {
            return i;
        }
    }
    table.len()
}

// The small table: each number is a run's start times 2,048 and its properties.
const SMALL: [u32; 22] = [
    48,
    0xa * 2048 + 32,
    0xb * 2048 + 48,
    0xd * 2048 + 16,
    0xe * 2048 + 48,
    0x20 * 2048 + 4,
    0x30 * 2048 + 6,
    0x3a * 2048 + 4,
    0x41 * 2048 + 7,
    0x5b * 2048 + 4,
    0x5f * 2048 + 6,
    0x60 * 2048 + 4,
    0x61 * 2048 + 7,
    0x7b * 2048 + 4,
    0x7f * 2048 + 48,
    0xa0 * 2048 + 4,
    0xe9 * 2048 + 7,
    0xea * 2048 + 4,
    0x300 * 2048 + 1090,
    0x370 * 2048 + 4,
    0x4e00 * 2048 + 11,
    0xa000 * 2048 + 4,
];

// The small table, which is fit (`small_fit`). A constant that is indexed is rebuilt at each use, so a caller keeps this and lends it.
pub fn small_table() -> [u32; 22]
    ensures { result ≡ small_table }
{
    SMALL
}

// Whether a table begins with the small table's runs below 128, which are 15, and its next run starts at 128 or later.
fn begins_as_small(table: &[u32], small: &[u32]) -> bool
    requires { small.now ≡ small_table }
    ensures { result ≡ begins_as_small table.now }
{
    if table.len() <= 15 {
        return false;
    }
    let same = table[..15] == small[..15];
    same & (128 <= table[15] / 2048)
}

// The first code point below 128 that has other properties than the small table gives it; 128 where there is none.
fn first_bad_ascii(table: &[u32], small: &[u32]) -> u32
    requires rises { Rises table.now }
    requires small_value { small.now ≡ small_table }
    ensures { result ≡ first_bad (ascii_ok table.now) 0 128 }
{
    if begins_as_small(table, small) {
        return 128;
    }
    for c in 0..128 {
        if lookup(table, c) != lookup(small, c) {
            return c;
        }
    }
    128
}

// Whether a table is fit, in the order of refusal 2's places: its count, its runs, code points 0 to 127.
pub fn check_table(table: &[u32]) -> Result<(), TableError>
    ensures { result ≡ table_check table.now }
{
    let count = table.len();
    if count < 1 {
        return Err(TableError::BadTable(0));
    }
    if MOST < count {
        return Err(TableError::BadTable(0));
    }
    let run = first_bad_run(table);
    if run < count {
        return Err(TableError::BadTable(run));
    }
    let small = small_table();
    if first_bad_ascii(table, &small) < 128 {
        return Err(TableError::BadTable(count));
    }
    Ok(())
}
