// Taking room back (document 02, C-13): the strings that stay move together in order, in place.
//
// The rows are those of the desks' pool: bytes, two numbers for each entry, and an owner for each entry. The translation row says `GONE` where
// an entry goes and another number where it stays, and each word is then the entry's new index, or `GONE`. Who decides what stays is not known here.
#![tactic(auto)]

ghost use Rattle.std.specs.Prelude.{◌≡◌, true, ◌+◌, ◌≤◌, length, take, drop};
ghost use Rattle.pool_rows.specs.Rows.{fit_pool};
ghost use Rattle.pool.specs.Pool.{written};
ghost use Rattle.slide.specs.Slide.{Turning, Turns, Slides};

use pool_rows::Counts;

// What a translation row says of an entry that is no more. No entry has this index: a pool counts at most so many.
pub const GONE: u32 = 4294967295;

// Moves some bytes of a row down, from `from` to `to`.
fn move_down(bytes: &mut [u8], from: usize, to: usize, long: usize)
    requires { (to ≤ from) × (from + long ≤ length bytes.old) }
    ensures { bytes.new ≡ written bytes.old to (take long (drop from bytes.old)) }
{
    bytes.copy_within(from..from + long, to);
}

// Entry i, where `laid` are the counts of what was kept before it: if it stays, its bytes, its numbers and its owner move down behind those,
// and its word is its new index.
fn keep_one(
    bytes: &mut [u8],
    entries: &mut [u32],
    owners: &mut [u8],
    moved: &mut [u32],
    i: usize,
    laid: Counts,
) -> Counts
    requires { Turning bytes.old entries.old owners.old moved.old i laid }
    ensures { Turns bytes.old entries.old owners.old moved.old i laid
        bytes.new entries.new owners.new moved.new result }
{
    if moved[i] == GONE {
        return laid;
    }
    let next = laid.entries;
    let end = laid.bytes;
    let start = entries[2 * i];
    let long = entries[2 * i + 1];
    move_down(bytes, start as usize, end as usize, long as usize);
    let at = next as usize;
    entries[2 * at] = end;
    entries[2 * at + 1] = long;
    owners[at] = owners[i];
    moved[i] = next;
    Counts {
        entries: next + 1,
        bytes: end + long,
    }
}

// Every entry of a fit pool, from the first on: the counts after it.
pub fn slide(
    bytes: &mut [u8],
    entries: &mut [u32],
    owners: &mut [u8],
    moved: &mut [u32],
    counts: Counts,
) -> Counts
    requires { (fit_pool bytes.old entries.old counts ≡ true)
        × (counts.entries ≤ length owners.old) × (counts.entries ≤ length moved.old) }
    ensures { Slides bytes.old entries.old owners.old moved.old counts.entries
        bytes.new entries.new owners.new moved.new result }
{
    let n = counts.entries as usize;
    let mut laid = Counts {
        entries: 0,
        bytes: 0,
    };
    for i in 0..n {
        laid = keep_one(
            &mut *bytes,
            &mut *entries,
            &mut *owners,
            &mut *moved,
            i,
            laid,
        );
    }
    laid
}
