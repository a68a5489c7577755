// Taking room back (document 02, C-13): the strings that either desk marked move together in order, in place.
//
// The translation row serves twice: it is first cleared and marked, and each word is then the entry's new index, or `slide::GONE`.
#![tactic(auto)]

pub mod answer;

ghost use Rattle.std.specs.Prelude.{◌≡◌, true, ◌≤◌, length};
ghost use Rattle.pool_rows.specs.Rows.{fit_pool};
ghost use Rattle.desks.specs.Desks.{shared};
ghost use Rattle.slide.specs.Slide.{Compacted};
ghost use Rattle.marks.specs.Marks.{is_marked, all_given};
ghost use Rattle.compact.specs.Compact.{Compacts, recharged};

use desks::{Desk, Desks};
use pool_rows::Counts;

// What a compaction leaves where nothing is refused: the counts and both desks after it.
#[derive(Clone, Copy, Debug, PartialEq, Eq)]
pub struct Kept {
    pub counts: Counts,
    pub desks: Desks,
}

// What a compaction is refused for.
#[derive(Clone, Copy, Debug, PartialEq, Eq)]
pub enum CompactError {
    // Refusal 20: a mark is no index that was given, or the translation row is shorter than the count of entries. Its place is 0.
    BadMark,
    // Refusal 8: the pool or its desks are unfit. Its place is 0.
    BadState,
}

// The rows after the marks of both desks, and the counts: what either marked stays.
fn compact_rows(
    first: &[u32],
    second: &[u32],
    bytes: &mut [u8],
    entries: &mut [u32],
    owners: &mut [u8],
    moved: &mut [u32],
    counts: Counts,
) -> Counts
    requires counts_value { (fit_pool bytes.old entries.old counts ≡ true)
        × (counts.entries ≤ length owners.old) × (counts.entries ≤ length moved.old) }
    requires entries_value { (all_given first.now counts.entries ≡ true) × (all_given second.now counts.entries ≡ true) }
    ensures { Compacted (is_marked first.now second.now) counts.entries
        bytes.old entries.old owners.old moved.old
        bytes.new entries.new owners.new moved.new result }
{
    let n = counts.entries as usize;
    marks::clear(&mut *moved, n);
    marks::mark(&mut *moved, first, n);
    marks::mark(&mut *moved, second, n);
    slide::slide(bytes, entries, owners, moved, counts)
}

// Both desks, charged anew.
fn recharge(desks: Desks, one: Counts, two: Counts) -> Desks
    ensures { result ≡ recharged desks one two }
{
    let first = desks.first;
    let second = desks.second;
    let owed = first.guaranteed;
    let also = second.guaranteed;
    Desks {
        first: Desk {
            guaranteed: owed,
            charged: one,
        },
        second: Desk {
            guaranteed: also,
            charged: two,
        },
    }
}

// Takes back the room of every string that neither desk marked: the others move together in order, each charged to the desk that added it, and
// the row `moved` tells each old index its new one, or `GONE`. Marks may come in any order, and twice. Refused are a pool or desks that are
// unfit, then a mark that is no index or a row that is too short; neither writes.
pub fn compact(
    first: &[u32],
    second: &[u32],
    bytes: &mut [u8],
    entries: &mut [u32],
    owners: &mut [u8],
    moved: &mut [u32],
    counts: Counts,
    desks: Desks,
) -> Result<Kept, CompactError>
    ensures { Compacts first.now second.now
        (shared bytes.old entries.old owners.old counts desks)
        moved.old bytes.new entries.new owners.new moved.new result }
{
    if !desks::is_fit(bytes, entries, owners, counts, desks) {
        return Err(CompactError::BadState);
    }
    if !marks::are_good(first, second, moved, counts.entries as usize) {
        return Err(CompactError::BadMark);
    }
    let after = compact_rows(
        first,
        second,
        &mut *bytes,
        &mut *entries,
        &mut *owners,
        moved,
        counts,
    );
    let n = after.entries as usize;
    let one = desks::held_by(entries, owners, 0, n);
    let two = desks::held_by(entries, owners, 1, n);
    Ok(Kept {
        counts: after,
        desks: recharge(desks, one, two),
    })
}
