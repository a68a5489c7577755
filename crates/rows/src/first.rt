// The first number of a record (documents 01 and 02, C-4): the kind in bits 0 to 6, the detail in 7 to 19, the depth in 20 to 27. What stands above
// them is a layout's own matter; here is only said that it must be 0 where the record is shown.
ghost use Rattle.std.specs.Prelude.{◌≡◌};
ghost use Rattle.rows.specs.First.{first_of, Packs, depth_in, above_in, shown_below};

use crate::Row;
use token::detail_allowed;
use token::kinds::KIND_MOST;

// How many kinds, details and depths the first number has room for.
pub const KIND_ROOM: u32 = 128;

pub const DETAIL_ROOM: u32 = 8192;

pub const DEPTH_ROOM: u32 = 256;

// Where in it the depth begins, and what stands above it.
pub const DEPTH_UNIT: u32 = 1048576;

pub const ABOVE_UNIT: u32 = 268435456;

// The greatest depth: a lexer has at most 64 modes.
pub const DEPTH_MOST: u32 = 64;

// A record's first number, with nothing above the depth.
pub fn first_of(row: Row) -> u32
    requires { Packs row }
    ensures { result ≡ first_of row }
{
    row.kind + KIND_ROOM * row.detail + DEPTH_UNIT * row.depth
}

// The record, where this is its first number without what its layout allows above the depth; `None` where it may not be shown (refusal 9). The
// depth and what stands above it are one number, so one test is enough for both.
pub fn shown_by(first: u32, row: Row) -> Option<Row>
    requires { row.depth ≡ depth_in first }
    ensures { result ≡ shown_below (above_in first) row }
{
    if DEPTH_MOST < first / DEPTH_UNIT {
        return None;
    }
    if KIND_MOST < row.kind {
        return None;
    }
    if detail_allowed(row.kind, row.detail) {
        return Some(row);
    }
    None
}
