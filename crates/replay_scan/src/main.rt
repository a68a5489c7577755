// Replays recorded answers of the Rust with its real Unicode crates to whole scripts (data/scans.txt; tools/README.md says how it was made),
// with the full table, into lists of any length; and scripts on which the two editions of the cluster rules differ, in edition 1
// (data/older.txt). Then a file with one wrong line, so that a difference is seen to be reported.
#![tactic(auto)]

use lines::Fields;
use std::io;

// Whether the line `HEX ROOM STATUS COUNT BYTE RECORDS..` is what the scan says and writes, into as many numbers of a list as it has room for.
fn agrees(line: &[u8], table: &[u32], edition: u32) -> bool {
    let mut fields = Fields::of(line);
    let mut buffer = lines::buffer();
    let script = fields.hex(&mut buffer);
    let mut list = replay_rows::list_buffer();
    let n = lines::within(fields.number(), &list);
    let said = scan::scan(script, table, edition, &mut list[..n]);
    replay_rows::agrees(fields, said, &list)
}

fn main(rt: HostRuntime) -> io::Result<()> {
    let Some(table) = tables::load_table(&rt, "full.kpt")? else {
        return Ok(());
    };
    lines::replay(
        &rt,
        "scans.txt",
        |line| agrees(line, &table, input::WITH_GB9C),
    )?;
    lines::replay(
        &rt,
        "older.txt",
        |line| agrees(line, &table, input::WITHOUT_GB9C),
    )?;
    lines::replay(
        &rt,
        "wrong.txt",
        |line| agrees(line, &table, input::WITH_GB9C),
    )
}
