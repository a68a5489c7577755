// Records at half the size (document 02, C-5): five numbers of 32 bits, one record after the other from the start of a lent list. A record's start
// is the end of the record before it, and stands nowhere; bit 28 of the first number marks an Error that stands still, whose start is that of the
// record before it.
//
// The other crates know `rows::Row`; which number of such a list holds what, and where a record's start is found, are known here alone.
#![tactic(auto)]

ghost use Rattle.std.specs.Prelude.{◌≡◌, ◌-◌, ◌≤◌, ◌<◌};
ghost use Rattle.rows.specs.First.{Packs};
ghost use Rattle.half_rows.specs.Half.{room, marked, marked_first, put_half, end_before, start_at, row_at, may_stand, shown_at};

use rows::Row;
use rows::first::{ABOVE_UNIT, DEPTH_ROOM, DEPTH_UNIT, DETAIL_ROOM, KIND_ROOM, first_of, shown_by};
use token::kinds;

// How many numbers a record has.
pub const HALF_WORDS: usize = 5;

// The kind of an Error, as a first number has it.
const ERROR: u32 = kinds::ERROR as u32;

// Where a record starts or ends.
#[derive(Clone, Copy)]
pub struct Edge {
    pub byte: u32,
    pub line: u32,
    pub column: u32,
}

// How many records the list has room for.
pub fn room(list: &[u32]) -> usize
    ensures { result ≡ room list.now }
{
    list.len() / HALF_WORDS
}

// The first number of a record, with the mark of an Error that stands still.
fn marked_first(row: Row, still: bool) -> u32
    requires { Packs row }
    ensures { result ≡ marked_first (marked row still) }
{
    if still {
        return first_of(row) + ABOVE_UNIT;
    }
    first_of(row)
}

// Writes record i. Every number of the other records stays.
pub fn put_half(list: &mut [u32], i: usize, row: Row, still: bool)
    requires { (i < room list.old) × Packs row }
    ensures { list.new ≡ put_half list.old i (marked row still) }
{
    let at = HALF_WORDS * i;
    list[at] = marked_first(row, still);
    list[at + 1] = row.end;
    list[at + 2] = row.end_line;
    list[at + 3] = row.end_column;
    list[at + 4] = row.indent;
}

// Where the record before record i ends; zeros where there is none.
fn end_before(list: &[u32], i: usize) -> Edge
    requires { i ≤ room list.now }
    ensures { result ≡ end_before list.now i }
{
    if i == 0 {
        return Edge {
            byte: 0,
            line: 0,
            column: 0,
        };
    }
    let at = HALF_WORDS * (i - 1);
    Edge {
        byte: list[at + 1],
        line: list[at + 2],
        column: list[at + 3],
    }
}

// Where record i starts: where the record before it ends, or with the mark where that one starts.
fn start_at(list: &[u32], i: usize) -> Edge
    requires { i < room list.now }
    ensures { result ≡ start_at list.now i }
{
    if list[HALF_WORDS * i] / ABOVE_UNIT == 1 {
        return end_before(list, i.saturating_sub(1));
    }
    end_before(list, i)
}

// Record i as its numbers say, fit or not.
fn read_half(list: &[u32], i: usize) -> Row
    requires { i < room list.now }
    ensures { result ≡ row_at list.now i }
{
    let at = HALF_WORDS * i;
    let first = list[at];
    let start = start_at(list, i);
    Row {
        kind: first % KIND_ROOM,
        detail: first / KIND_ROOM % DETAIL_ROOM,
        start: start.byte,
        end: list[at + 1],
        start_line: start.line,
        start_column: start.column,
        end_line: list[at + 2],
        end_column: list[at + 3],
        indent: list[at + 4],
        depth: first / DEPTH_UNIT % DEPTH_ROOM,
    }
}

// Does the mark stand in a first number where it may: on an Error, and the last record?
fn may_stand(first: u32, last: bool) -> bool
    ensures { result ≡ may_stand first last }
{
    first / ABOVE_UNIT == 1 && (first % KIND_ROOM == ERROR && last)
}

// Record i of so many; `None` where it may not be shown (refusal 9).
pub fn half_at(list: &[u32], count: usize, i: usize) -> Option<Row>
    requires { i < room list.now }
    ensures { result ≡ shown_at list.now count i }
{
    let at = HALF_WORDS * i;
    let first = list[at];
    let row = read_half(list, i);
    if may_stand(first, i + 1 == count) {
        return shown_by(first % ABOVE_UNIT, row);
    }
    shown_by(first, row)
}
