// Which records of an old list are kept when a line of its source is edited (document 02, C-7): those up to the NewLine before the line, if
// they chain. It is asked of any list, whoever made it, in one pass. It knows no edit, no state and no reading.
#![tactic(auto)]

ghost use Rattle.std.specs.Prelude.{◌≡◌, ◌≤◌, ◌<◌, length};
ghost use Rattle.rows.specs.Row.{room};
ghost use Rattle.keep.specs.Keep.{no_row, row_before, chained, forward, over_newline, closes, kept_rows};

use rows::{Row, first_at, read_row};
use token::kinds::{NEW_LINE, NO_TOKEN};

// The bytes of a newline.
const LF: u8 = 10;

const CR: u8 = 13;

// What stands before the first record: nothing, which ends where a source begins.
fn no_row() -> Row
    ensures { result ≡ no_row }
{
    Row {
        kind: NO_TOKEN as u32,
        detail: 0,
        start: 0,
        end: 0,
        start_line: 0,
        start_column: 0,
        end_line: 0,
        end_column: 0,
        indent: 0,
        depth: 0,
    }
}

// The record before record i, fit or not.
pub fn row_before(list: &[u32], i: usize) -> Row
    requires { i ≤ room list.now }
    ensures { result ≡ row_before list.now i }
{
    if i == 0 {
        return no_row();
    }
    read_row(list, i - 1)
}

// Whether a record starts where the one before it ends, in bytes and in its span.
fn is_chained(before: Row, row: Row) -> bool
    ensures { result ≡ chained before row }
{
    row.start == before.end
        && (row.start_line == before.end_line && row.start_column == before.end_column)
}

// Whether it does not end before it starts, in bytes and in its span.
fn is_forward(row: Row) -> bool
    ensures { result ≡ forward row }
{
    row.start <= row.end
        && (row.start_line < row.end_line
            || (row.start_line == row.end_line && row.start_column <= row.end_column))
}

// Whether it stands over "\n" or "\r\n".
fn is_over_newline(source: &[u8], row: Row) -> bool
    requires { row.end ≤ length source.now }
    ensures { result ≡ over_newline source.now row }
{
    let start = row.start as usize;
    let end = row.end as usize;
    if end == start + 1 {
        return source[start] == LF;
    }
    end == start + 2 && (source[start] == CR && source[start + 1] == LF)
}

// Whether a record with this first number may be the last that is kept, where the edited line starts at `line`.
fn is_last(source: &[u8], line: usize, first: u32, row: Row) -> bool
    requires { line ≤ length source.now }
    ensures { result ≡ closes source.now line first row }
{
    if row.end as usize != line {
        return false;
    }
    // Nothing beside the kind: no detail, depth 0, and no bit above it.
    if first != NEW_LINE as u32 {
        return false;
    }
    if row.end_column != 0 {
        return false;
    }
    if row.end < row.end_line {
        return false;
    }
    is_over_newline(source, row)
}

// How many records of an old list are kept, where the edited line starts at `line` in the new source: all up to the first that ends there
// or behind, or none.
pub fn kept_rows(source: &[u8], line: usize, list: &[u32], count: usize) -> usize
    requires { (line ≤ length source.now) × (count ≤ room list.now) }
    ensures { result ≡ kept_rows source.now line list.now count }
{
    let mut before = no_row();
    for i in 0..count {
        let row = read_row(list, i);
        if !is_chained(before, row) {
            return 0;
        }
        if !is_forward(row) {
            return 0;
        }
        if line <= row.end as usize {
            if is_last(source, line, first_at(list, i), row) {
                return i + 1;
            }
            return 0;
        }
        before = row;
    }
    0
}
