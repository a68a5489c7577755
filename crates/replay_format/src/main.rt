// Replays recorded answers of the Rust with its real Unicode crates to format strings (data/formats.txt; tools/README.md says how it was
// made), with the full table, over pools of any room that hold some strings already: the answer, the counts, and every byte and number of the
// rows; and format strings on which the two editions of the cluster rules differ, in edition 1 (data/older.txt). Then a file with one wrong
// line, so that a difference is seen to be reported.
#![tactic(auto)]

mod answers;
mod pools;

use lines::Fields;
use std::io;

// Whether the line `HEX NUMBERS BYTES POOL ANSWER POOL` is what the parse of a format string says and leaves, over so many numbers of the row of
// entries, so much room for bytes and the pool that is in the rows. The buffer has one byte more than a format string may have, so that one too
// many is seen.
fn agrees(line: &[u8], table: &[u32], edition: u32) -> bool {
    let mut fields = Fields::of(line);
    let mut buffer = lines::large_buffer();
    let format = fields.hex(&mut buffer);
    let numbers = fields.number();
    let room = fields.number();
    let mut bytes = pools::byte_row();
    let mut entries = pools::entry_row();
    let before = pools::load(&mut fields, &mut bytes, &mut entries);
    if entries.len() < numbers || bytes.len() < room {
        return false;
    }
    let after = parse::parse(
        format,
        table,
        edition,
        &mut bytes[..room],
        &mut entries[..numbers],
        before,
    );
    let answer = after.answer;
    let counts = after.counts;
    answers::same_answer(&mut fields, answer) && pools::agrees(fields, &bytes, &entries, counts)
}

fn main(rt: HostRuntime) -> io::Result<()> {
    let Some(table) = tables::load_table(&rt, "full.kpt")? else {
        return Ok(());
    };
    lines::replay(
        &rt,
        "formats.txt",
        |line| agrees(line, &table, input::WITH_GB9C),
    )?;
    lines::replay(
        &rt,
        "older.txt",
        |line| agrees(line, &table, input::WITHOUT_GB9C),
    )?;
    lines::replay(
        &rt,
        "wrong.txt",
        |line| agrees(line, &table, input::WITH_GB9C),
    )
}
