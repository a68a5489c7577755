// Replays recorded answers of the Rust to scripts (data/lists.txt; tools/README.md says how it was made), read as the list program reads
// them (document 01, "Scripts and format strings to try"): at most 1,024 bytes, with the small table, into a list of 1,365 records. Then a
// file with one wrong line, so that a difference is seen to be reported.
#![tactic(auto)]

use lines::Fields;
use std::io;

// The numbers of 1,365 records.
const LIST_WORDS: usize = 10_920;

// Whether the line `HEX STATUS COUNT BYTE RECORDS..` is what the list program's scan says and writes.
fn agrees(line: &[u8]) -> bool {
    let mut fields = Fields::of(line);
    let mut buffer = lines::buffer();
    let script = fields.hex(&mut buffer);
    let mut list = replay_rows::list_buffer();
    let n = lines::within(LIST_WORDS, &list);
    let said = listing::scan_small(script, &mut list[..n]);
    replay_rows::agrees(fields, said, &list)
}

fn main(rt: HostRuntime) -> io::Result<()> {
    lines::replay(&rt, "lists.txt", agrees)?;
    lines::replay(&rt, "wrong.txt", agrees)
}
