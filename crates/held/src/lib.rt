// Records that a list has already: whether one of them is a given record, number by number (document 02, C-9).
//
// It reads the list through the crate `rows`, which alone knows a record's numbers. The whole record is read before anything is compared, so that
// LLVM may load its numbers at once.
#![tactic(auto)]

ghost use Rattle.std.specs.Prelude.{◌≡◌, ◌<◌};
ghost use Rattle.rows.specs.First.{Packs};
ghost use Rattle.rows.specs.Row.{room};
ghost use Rattle.held.specs.Held.{is_span, is_one, is_row};

use rows::first::first_of;
use rows::{Row, first_at, read_row};

// Whether two records have one span.
fn is_span(row: Row, there: Row) -> bool
    ensures { result ≡ is_span row there }
{
    row.start_line == there.start_line
        && (row.start_column == there.start_column
            && (row.end_line == there.end_line && row.end_column == there.end_column))
}

// Whether a record is the one that has this first number, and else what this one has.
fn is_one(first: u32, there: Row, row: Row) -> bool
    requires { Packs row }
    ensures { result ≡ is_one first there row }
{
    first_of(row) == first
        && (row.start == there.start
            && (row.end == there.end && (is_span(row, there) && row.indent == there.indent)))
}

// Whether record i is this one, number by number.
pub fn is_row(list: &[u32], i: usize, row: Row) -> bool
    requires { (i < room list.now) × Packs row }
    ensures { result ≡ is_row list.now i row }
{
    let first = first_at(list, i);
    is_one(first, read_row(list, i), row)
}
