// Walks over the tokens of a script. Standard input has a line of calls, `n` for `next`, `p3` for `peek(3)` and `l3` for `look_ahead(3)`, and then the script, of at
// most 1,024 bytes. What each call says is printed on a line: a token as the list program prints it, `none`, or a refusal; last how many
// tokens are queued.
#![tactic(auto)]

use std::io;
use std::io::{BufRead, Read};

// The most bytes of a line of calls with its newline.
const LINE_MOST: u64 = 200_001;

// Scans the source as the list program does, and prints the walk over its records.
fn print_walk(rt: &impl Print, calls: &[u8], source: &[u8]) -> io::Result<()> {
    let mut list = listing::list_buffer();
    let scanned = listing::scan_small(source, &mut list);
    walking::print_walk(rt, calls, &list, scanned)
}

fn main(rt: HostRuntime) -> io::Result<()> {
    let mut input = rt.reader();
    let mut line = Vec::new(rt.alloc());
    input.by_ref().take(LINE_MOST).read_until(b'\n', &mut line)?;
    // A line that does not end within so many bytes is malformed, and so is the newline that stands for it.
    let calls = line.strip_suffix(b"\n").unwrap_or(b"\n");
    // One byte more than a script may have, so that one too many is seen.
    let source = lines::read_most(&rt, &mut input, 1025)?;
    print_walk(&rt, calls, &source)
}
