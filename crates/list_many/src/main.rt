// Prints of each source what the list program prints of it: standard input has a source in hex on each line, `-` for no bytes.
#![tactic(auto)]

use std::io;

// A source of more bytes than this buffer has is cut, and is too long for the list program with or without them.
fn print_line(rt: &impl Print, line: &[u8]) -> io::Result<()> {
    let mut buffer = lines::buffer();
    listing::print_source(rt, lines::hex(line, &mut buffer))
}

fn main(rt: HostRuntime) -> io::Result<()> {
    lines::print_each(&rt, |line| print_line(&rt, line))
}
