// Taking room back, for C.
ghost use Rattle.koto_desks.specs.Words.{lent_by};
ghost use Rattle.koto_desks.specs.Compacts.{CompactIs};

use crate::words;
use compact::answer;

// Takes back the room of every string that neither desk marks: the others move together in order, and the row `moved` tells each old index its
// new one, or that it is gone. Refused are a pool or desks that are unfit with 8, then a mark that is no index, or a row that is shorter than the
// count, with 20; each leaves everything.
pub fn koto_compact_flat(
    first: &[u32],
    second: &[u32],
    bytes: &mut [u8],
    entries: &mut [u32],
    owners: &mut [u8],
    counts: &mut [u32; 2],
    desks: &mut [u32; 8],
    moved: &mut [u32],
) -> u32
    ensures { CompactIs first.now second.now
        (lent_by bytes.old entries.old owners.old counts.old desks.old) moved.old
        bytes.new entries.new owners.new counts.new desks.new moved.new result }
{
    let had = words::counts_in(counts);
    let both = words::desks_in(desks);
    let compaction = compact::compact(first, second, bytes, entries, owners, moved, had, both);
    *counts = words::count_words(answer::counts_after(compaction, had));
    *desks = words::desk_words(answer::desks_after(compaction, both));
    answer::number_of(compaction)
}
