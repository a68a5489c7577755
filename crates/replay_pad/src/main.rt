// Replays padding with the full table, by the judge of oracle/compare_padding (data/pads.txt; tools/README.md says how it was made): the answer,
// and every byte of the buffer. Then a file with one wrong line, so that a difference is seen to be reported.
#![tactic(auto)]

use lines::Fields;
use pad::{PadError, answer};
use std::io;

// A field that has the width one greater, and 0 where there is none.
fn width_of(field: usize) -> u64 {
    match field.checked_sub(1) {
        Some(width) => width as u64,
        None => fills::NONE,
    }
}

// A number of 32 bits; no edition where it has more.
fn edition_of(field: usize) -> u32 {
    field.min(3) as u32
}

// Whether the buffer has what the next field says, and zeros behind it.
fn bytes_agree(mut fields: Fields, buffer: &[u8]) -> bool {
    let mut wanted = lines::buffer();
    fields.hex(&mut wanted).len() < wanted.len() && buffer == &wanted[..]
}

// Whether the fields `NUMBER LENGTH PLACE BYTES` are what was said and written.
fn said_agrees(mut fields: Fields, said: Result<usize, PadError>, buffer: &[u8]) -> bool {
    fields.same(answer::number_of(said) as usize)
        && fields.same(answer::len_of(said))
        && fields.same(answer::place_of(said))
        && bytes_agree(fields, buffer)
}

// Whether the line `TEXT FILL ALIGNMENT WIDTH FILLED EDITION ROOM NUMBER LENGTH PLACE BYTES` is what padding says and writes into so many bytes of
// a buffer.
fn agrees(line: &[u8], table: &[u32]) -> bool {
    let mut fields = Fields::of(line);
    let mut padded_buffer = lines::buffer();
    let padded = fields.hex(&mut padded_buffer);
    let mut fill_buffer = lines::buffer();
    let fill = fields.hex(&mut fill_buffer);
    let alignment = fields.number() as u64;
    let width = width_of(fields.number());
    let filled = fields.number() != 0;
    let edition = edition_of(fields.number());
    let room = fields.number();
    let mut buffer = lines::buffer();
    if buffer.len() < room {
        return false;
    }
    let said = pad::pad(
        padded,
        alignment,
        width,
        filled.then_some(fill),
        table,
        edition,
        &mut buffer[..room],
    );
    said_agrees(fields, said, &buffer)
}

fn main(rt: HostRuntime) -> io::Result<()> {
    let Some(table) = tables::load_table(&rt, "full.kpt")? else {
        return Ok(());
    };
    lines::replay(&rt, "pads.txt", |line| agrees(line, &table))?;
    lines::replay(&rt, "wrong.txt", |line| agrees(line, &table))
}
