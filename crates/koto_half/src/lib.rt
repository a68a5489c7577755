// The scan into records at half the size for C (include/koto_lexer.h). It stands in a crate of its own, so that here and in the crate `koto_lexer`
// LLVM compiles the scan's loop for the one layout.
//
// As there, the call takes every input, calls the inner function of its name, and hands its answer out as numbers, all of which every call
// writes.
#![tactic(auto)]

ghost use Rattle.koto_half.specs.Halves.{ScanHalfIs};

use reading::answer;

// Scans as `koto_scan` does, with its refusals, into records of five numbers; the status tells a cursor so.
pub fn koto_scan_half(
    source: &[u8],
    table: &[u32],
    edition: u32,
    list: &mut [u32],
    status: &mut u32,
    count: &mut usize,
    byte: &mut usize,
) -> u32
    ensures { ScanHalfIs source.now table.now edition list.old list.new
        status.new count.new byte.new result }
{
    let scanned = scan::scan_half(source, table, edition, list);
    *status = answer::half_status_of(scanned);
    *count = answer::count_of(scanned);
    *byte = answer::place_of(scanned);
    answer::number_of(scanned)
}
