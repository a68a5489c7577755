// Records (document 01, "Records"): eight numbers of 32 bits, one record after the other from the start of a lent list.
//
// The other crates know `Row`, a record with named fields; which number of the list holds what, where record i stands in a list, and how many
// records have room are known here alone. It knows no source, no state and no scan.
#![tactic(auto)]

ghost use Rattle.std.specs.Prelude.{◌≡◌, ◌*◌, ◌<◌};
ghost use Rattle.rows.specs.First.{Packs};
ghost use Rattle.rows.specs.Row.{row_words, room, put_row, row_from, first_at, shown_at};

use crate::first::{DEPTH_ROOM, DEPTH_UNIT, DETAIL_ROOM, KIND_ROOM, first_of, shown_by};

pub mod copy;
pub mod first;

// How many numbers a record has.
pub const ROW_WORDS: usize = 8;

// What a record tells of its token.
#[derive(Clone, Copy)]
pub struct Row {
    pub kind: u32,
    pub detail: u32,
    // The token's bytes, from `start` to before `end`.
    pub start: u32,
    pub end: u32,
    // Its span.
    pub start_line: u32,
    pub start_column: u32,
    pub end_line: u32,
    pub end_column: u32,
    // The indent of its line.
    pub indent: u32,
    // How many modes the lexer had before it.
    pub depth: u32,
}

// How many records the list has room for.
pub fn room(list: &[u32]) -> usize
    ensures { result ≡ room list.now }
{
    list.len() / ROW_WORDS
}

// Writes record i. Every number of the other records stays.
pub fn put_row(list: &mut [u32], i: usize, row: Row)
    requires { (i < room list.old) × Packs row }
    ensures { list.new ≡ put_row list.old i row }
{
    let at = ROW_WORDS * i;
    list[at] = first_of(row);
    list[at + 1] = row.start;
    list[at + 2] = row.end;
    list[at + 3] = row.start_line;
    list[at + 4] = row.start_column;
    list[at + 5] = row.end_line;
    list[at + 6] = row.end_column;
    list[at + 7] = row.indent;
}

// The first number of record i.
pub fn first_at(list: &[u32], i: usize) -> u32
    requires { i < room list.now }
    ensures { result ≡ first_at list.now i }
{
    list[ROW_WORDS * i]
}

// Record i as its numbers say, fit or not.
pub fn read_row(list: &[u32], i: usize) -> Row
    requires { i < room list.now }
    ensures { result ≡ row_from list.now (row_words * i) }
{
    let at = ROW_WORDS * i;
    let first = list[at];
    Row {
        kind: first % KIND_ROOM,
        detail: first / KIND_ROOM % DETAIL_ROOM,
        start: list[at + 1],
        end: list[at + 2],
        start_line: list[at + 3],
        start_column: list[at + 4],
        end_line: list[at + 5],
        end_column: list[at + 6],
        indent: list[at + 7],
        depth: first / DEPTH_UNIT % DEPTH_ROOM,
    }
}

// Record i; `None` where it may not be shown (refusal 9): its kind is over 80, its detail is none that this kind may have, its depth is over 64, or
// a bit above the depth is set. Nothing else of the record is tested.
pub fn row_at(list: &[u32], i: usize) -> Option<Row>
    requires { i < room list.now }
    ensures { result ≡ shown_at list.now i }
{
    let at = ROW_WORDS * i;
    shown_by(list[at], read_row(list, i))
}
