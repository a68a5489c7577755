// Prints the format string for the options on standard input: `ALIGNMENT WIDTH PRECISION REPRESENTATION FILL`, numbers as koto_format prints
// them and the fill's bytes in hex, each `-` where there is none. With the small table, and at most 1,024 bytes of a format string.
#![tactic(auto)]

use lines::Fields;
use std::io;
use writer::{WriteError, answer};

// The number of the next field.
fn next_number(fields: &mut Fields) -> u64 {
    let is_given = fields.is_given();
    let number = fields.number();
    if is_given { number as u64 } else { fills::NONE }
}

// A refusal: its number and its place.
fn print_refused(rt: &impl Print, written: Result<usize, WriteError>) -> io::Result<()> {
    let number = answer::number_of(written);
    let place = answer::place_of(written);
    println!(rt; "refused {number} {place}")
}

fn print_answer(
    rt: &impl Print,
    written: Result<usize, WriteError>,
    buffer: &[u8],
) -> io::Result<()> {
    match written {
        Ok(n) => {
            if let Some(format) = buffer.get(..n) {
                rt.print("format ")?;
                rt.write_all(format)?;
                rt.println("")?;
            }
            Ok(())
        }
        Err(_) => print_refused(rt, written),
    }
}

fn print_format(rt: &impl Print, text: &[u8]) -> io::Result<()> {
    let mut fields = Fields::of(text);
    let alignment = next_number(&mut fields);
    let width = next_number(&mut fields);
    let precision = next_number(&mut fields);
    let representation = next_number(&mut fields);
    let is_filled = fields.is_given();
    let mut fill_buffer = [0u8; 1024];
    let fill = fields.hex(&mut fill_buffer);
    let table = fitness::small_table();
    let mut buffer = [0u8; 1024];
    let written = writer::write_format(
        alignment,
        width,
        precision,
        representation,
        is_filled.then_some(fill),
        &table,
        input::WITH_GB9C,
        &mut buffer,
    );
    print_answer(rt, written, &buffer)
}

fn main(rt: HostRuntime) -> io::Result<()> {
    let text = lines::read_most(&rt, &mut rt.reader(), 4096)?;
    print_format(&rt, &text)
}
