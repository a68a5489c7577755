// The scan by the second engine for C (include/koto_lexer.h). It is a library of its own, so that `koto_lexer` is proved and compiled without it, and whoever
// links `koto_scan` alone has the small engine; `tools/archive` puts both into one archive.
//
// As there, the call takes every input, calls the inner function of its name, and hands its answer out as numbers, all of which every call
// writes.
#![tactic(auto)]

ghost use Rattle.koto_fast.specs.Fast.{ScanFastIs};

use reading::answer;

// Writes the records of a source at the start of the list, as `koto_scan` does: the same answer and the same words, on every input.
pub fn koto_scan_fast(
    source: &[u8],
    table: &[u32],
    edition: u32,
    list: &mut [u32],
    status: &mut u32,
    count: &mut usize,
    byte: &mut usize,
) -> u32
    ensures { ScanFastIs source.now table.now edition list.old list.new
        status.new count.new byte.new result }
{
    let scanned = fast::scan_fast(source, table, edition, list);
    *status = answer::status_of(scanned);
    *count = answer::count_of(scanned);
    *byte = answer::place_of(scanned);
    answer::number_of(scanned)
}
