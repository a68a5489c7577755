// Replays what Rust's `from_utf8` said of bytes, well formed, ill formed and cut (data/utf8.txt; tools/README.md says how it was made), and
// then a file with one wrong line, so that a difference is seen to be reported.
#![tactic(auto)]

use lines::Fields;
use std::io;
use utf8::{Utf8Error, answer};

// What the check says, as a line has it: 0 fine, 1 bad, 2 cut.
fn said_by(check: Result<(), Utf8Error>) -> usize {
    match check {
        Ok(()) => 0,
        Err(Utf8Error::BadAt(_)) => 1,
        Err(Utf8Error::CutAt(_)) => 2,
    }
}

// Whether the line `HEX ANSWER PLACE` has what the check says.
fn agrees(line: &[u8]) -> bool {
    let mut fields = Fields::of(line);
    let mut buffer = lines::buffer();
    let check = utf8::check_utf8(fields.hex(&mut buffer));
    fields.same(said_by(check)) && fields.same(answer::check_place(check))
}

fn main(rt: HostRuntime) -> io::Result<()> {
    lines::replay(&rt, "utf8.txt", agrees)?;
    lines::replay(&rt, "wrong.txt", agrees)
}
