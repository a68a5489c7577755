// Prints of each format string what the format program prints of it: standard input has a format string in hex on each line, `-` for no bytes.
#![tactic(auto)]

use std::io;

// A format string of more bytes than this buffer has is cut, and is too long for the format program with or without them.
fn print_line(rt: &impl Print, line: &[u8]) -> io::Result<()> {
    let mut buffer = lines::buffer();
    formatting::print_format(rt, lines::hex(line, &mut buffer))
}

fn main(rt: HostRuntime) -> io::Result<()> {
    lines::print_each(&rt, |line| print_line(&rt, line))
}
