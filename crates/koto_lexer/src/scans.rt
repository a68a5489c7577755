// The scan for C.
ghost use Rattle.koto_lexer.specs.Scans.{ScanIs};

use reading::answer;

// Writes the records of a source at the start of the list; every word past them stays. Refused are a source that is too long with 1, then
// a number that is no edition with 17, then a table that is unfit with 2, then bytes that are wrong with 3 or that the end cuts with 15, each
// before a word is written; then a token for which there is no record with 4, or no mode with 5, which leave the records before it.
pub fn koto_scan(
    source: &[u8],
    table: &[u32],
    edition: u32,
    list: &mut [u32],
    status: &mut u32,
    count: &mut usize,
    byte: &mut usize,
) -> u32
    ensures { ScanIs source.now table.now edition list.old list.new
        status.new count.new byte.new result }
{
    let scanned = scan::scan(source, table, edition, list);
    *status = answer::status_of(scanned);
    *count = answer::count_of(scanned);
    *byte = answer::place_of(scanned);
    answer::number_of(scanned)
}
