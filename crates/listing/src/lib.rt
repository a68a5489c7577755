// What the list program does with the bytes that it has read (document 01, "Scripts and format strings to try"). It is a library, so that the program which
// lists many sources lists each as the list program does.
#![tactic(auto)]

ghost use Rattle.std.specs.Prelude.{◌≡◌, ◌≤◌, length, replicate, IfOk};
ghost use Rattle.rows.specs.Row.{room};
ghost use Rattle.reading.specs.Scan.{count_of};
ghost use Rattle.listing.specs.Listing.{Lists};

use input::{Refusal, WITH_GB9C};
use reading::{Scan, ScanError};
use std::io;

// Sources over this many bytes are refused.
const LIST_MOST: usize = 1024;

// Writes the records of a source at the start of the list, by the small table and edition 2. A source that is too long is refused first, and then the
// list stays as it is.
pub fn scan_small(source: &[u8], list: &mut [u32]) -> Result<Scan, ScanError>
    ensures lists { Lists source.now list.old result list.new }
    ensures result_bound { count_of result ≤ room list.new }
{
    if LIST_MOST < source.len() {
        return Err(ScanError::Refused(Refusal::TooLong));
    }
    let table = fitness::small_table();
    scan::scan(source, &table, WITH_GB9C, list)
}

// Zeros, with room for 1,365 records: one for each of 1,024 bytes, and a third more. The length, which follows, is what lending them as a
// slice asks.
pub fn list_buffer() -> [u32; 10920]
    ensures value { result ≡ replicate 10920 0 }
    ensures value_2 { 10920 ≡ length result }
{
    [0; 10920]
}

// Prints the records of a source and how its scan ended.
pub fn print_source(rt: &impl Print, source: &[u8]) -> io::Result<()>
    ensures { IfOk result (λ r. r ≡ tt) }
{
    let mut list = list_buffer();
    let scanned = scan_small(source, &mut list);
    printing::print_scan(rt, &list, scanned)
}
