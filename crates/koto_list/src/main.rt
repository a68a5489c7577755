// Lists the tokens of the script on standard input, of at most 1,024 bytes: each record on a line, and then how the scan ended.
#![tactic(auto)]

use std::io;

fn main(rt: HostRuntime) -> io::Result<()> {
    // One byte more than a script may have, so that one too many is seen.
    let text = lines::read_most(&rt, &mut rt.reader(), 1025)?;
    listing::print_source(&rt, &text)
}
