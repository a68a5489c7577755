// The rescan for C (include/koto_lexer.h). It is a library of its own, so that `koto_lexer` is proved without it; `tools/archive` puts both
// into one archive. So it is compiled with a copy of the scan's loop of its own, and `koto_scan` is not compiled anew for a second caller.
//
// As there, the call takes every input, calls the inner function of its name, and hands its answer out as numbers, all of which every call
// writes.
#![tactic(auto)]

ghost use Rattle.koto_rescan.specs.Rescans.{edit_of, RescanIs};

use edit::Edit;
use rescan::answer;

// Writes the records of a source at the start of the list, after an edit that led to it from an old source; those before the edited line
// are taken from the old list. Every word past them stays. Refused are what `koto_scan` refuses of the new source before any work, then an
// edit that does not lead from the old source to the new one with 16, then an old list that is shorter than its count with 8, each before a
// word is written; then as `koto_scan` with 4 or 5.
pub fn koto_rescan(
    old: &[u8],
    old_list: &[u32],
    old_count: usize,
    edit_place: usize,
    removed: usize,
    put_in: usize,
    source: &[u8],
    table: &[u32],
    edition: u32,
    list: &mut [u32],
    status: &mut u32,
    count: &mut usize,
    byte: &mut usize,
) -> u32
    ensures { RescanIs old.now old_list.now old_count (edit_of edit_place removed put_in)
        source.now table.now edition list.old list.new
        status.new count.new byte.new result }
{
    let edit = Edit {
        place: edit_place,
        removed,
        put_in,
    };
    let rescanned = rescan::rescan(old, old_list, old_count, edit, source, table, edition, list);
    *status = answer::status_of(rescanned);
    *count = answer::count_of(rescanned);
    *byte = answer::place_of(rescanned);
    answer::number_of(rescanned)
}
