// Prints of each walk what the walk program prints of it: standard input has the line of calls and the source of a walk on each line, both in
// hex, `-` for no bytes, with a space between them.
#![tactic(auto)]

use lines::Fields;
use std::io;

// Scans the source as the list program does, and prints the walk over its records.
fn print_walk(rt: &impl Print, calls: &[u8], source: &[u8]) -> io::Result<()> {
    let mut list = listing::list_buffer();
    let scanned = listing::scan_small(source, &mut list);
    walking::print_walk(rt, calls, &list, scanned)
}

// Calls or a source of more bytes than these buffers have are cut, and are too long for the walk program with or without them.
fn print_line(rt: &impl Print, line: &[u8]) -> io::Result<()> {
    let mut fields = Fields::of(line);
    let mut call_buffer = walking::line_buffer();
    let calls = fields.hex(&mut call_buffer);
    let mut source_buffer = lines::buffer();
    // The last field: where it ends is not looked for, since with no space that is the end of the text.
    let source = lines::hex(fields.rest, &mut source_buffer);
    print_walk(rt, calls, source)
}

fn main(rt: HostRuntime) -> io::Result<()> {
    lines::print_each(&rt, |line| print_line(&rt, line))
}
