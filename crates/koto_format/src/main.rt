// Prints the options of the format string on standard input, of at most 1,024 bytes, and then the strings of the pool.
#![tactic(auto)]

use std::io;

fn main(rt: HostRuntime) -> io::Result<()> {
    // One byte more than a format string may have, so that one too many is seen.
    let text = lines::read_most(&rt, &mut rt.reader(), 1025)?;
    formatting::print_format(&rt, &text)
}
