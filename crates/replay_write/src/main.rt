// Replays writing format options with the full table, by what koto's own parser reads back (data/formats.txt; tools/README.md says how it was
// made): the answer, and every byte of the buffer. Then a file with one wrong line, so that a difference is seen to be reported.
#![tactic(auto)]

use lines::Fields;
use std::io;
use writer::{WriteError, answer};

// A field that has a number one greater, and 0 where there is none.
fn number_of(field: usize) -> u64 {
    match field.checked_sub(1) {
        Some(number) => number as u64,
        None => fills::NONE,
    }
}

// A number of 32 bits; no edition where it has more.
fn edition_of(field: usize) -> u32 {
    field.min(3) as u32
}

// Whether the buffer has what the next field says, and zeros behind it.
fn bytes_agree(mut fields: Fields, buffer: &[u8]) -> bool {
    let mut wanted = lines::buffer();
    fields.hex(&mut wanted).len() < wanted.len() && buffer == &wanted[..]
}

// Whether the fields `NUMBER LENGTH PLACE BYTES` are what was said and written.
fn said_agrees(mut fields: Fields, said: Result<usize, WriteError>, buffer: &[u8]) -> bool {
    fields.same(answer::number_of(said) as usize)
        && fields.same(answer::len_of(said))
        && fields.same(answer::place_of(said))
        && bytes_agree(fields, buffer)
}

// Whether the line `FILL ALIGNMENT WIDTH PRECISION REPRESENTATION FILLED EDITION ROOM NUMBER LENGTH PLACE BYTES` is what is said and written into
// so many bytes of a buffer.
fn agrees(line: &[u8], table: &[u32]) -> bool {
    let mut fields = Fields::of(line);
    let mut fill_buffer = lines::buffer();
    let fill = fields.hex(&mut fill_buffer);
    let alignment = fields.number() as u64;
    let width = number_of(fields.number());
    let precision = number_of(fields.number());
    let representation = number_of(fields.number());
    let filled = fields.number() != 0;
    let edition = edition_of(fields.number());
    let room = fields.number();
    let mut buffer = lines::buffer();
    let said = match buffer.get_mut(..room) {
        Some(row) => writer::write_format(
            alignment,
            width,
            precision,
            representation,
            filled.then_some(fill),
            table,
            edition,
            row,
        ),
        None => Err(WriteError::NoRoom),
    };
    said_agrees(fields, said, &buffer)
}

fn main(rt: HostRuntime) -> io::Result<()> {
    let Some(table) = tables::load_table(&rt, "full.kpt")? else {
        return Ok(());
    };
    lines::replay(&rt, "formats.txt", |line| agrees(line, &table))?;
    lines::replay(&rt, "wrong.txt", |line| agrees(line, &table))
}
