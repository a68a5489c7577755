// What the format program does with the bytes that it has read: it parses them with the small table and an empty pool of 64 entries and 1,024
// bytes, and prints the options and the pool. It is a library, so that the program for many format strings prints of each what the
// program for one does.
#![tactic(auto)]

ghost use Rattle.std.specs.Prelude.{◌≡◌, IfOk};

use format_options::{Options, Part, Representation};
use input::Refusal;
use parse::{After, ParseError, Parsed, answer};
use pool_rows::Counts;
use std::io;

// Format strings over this many bytes are refused.
const TEXT_MOST: usize = 1024;

// A space and a number.
fn print_number(rt: &impl Print, n: u64) -> io::Result<()> {
    print!(rt; " {n}")
}

// A space and the sign for none.
fn print_none(rt: &impl Print) -> io::Result<()> {
    rt.print(" -")
}

fn print_given(rt: &impl Print, given: Option<u32>) -> io::Result<()> {
    match given {
        Some(n) => print_number(rt, n as u64),
        None => print_none(rt),
    }
}

fn print_shown(rt: &impl Print, shown: Option<Representation>) -> io::Result<()> {
    match shown {
        Some(representation) => print_number(
            rt,
            format_options::representation_number(representation) as u64,
        ),
        None => print_none(rt),
    }
}

fn print_fill(rt: &impl Print, fill: Option<Part>) -> io::Result<()> {
    match fill {
        Some(part) => {
            print_number(rt, part.place as u64)?;
            print_number(rt, part.len as u64)
        }
        None => {
            print_none(rt)?;
            print_none(rt)
        }
    }
}

// Alignment, width, precision, representation, the fill's place, length and index.
fn print_options(rt: &impl Print, options: Options, index: Option<u32>) -> io::Result<()> {
    rt.print("options")?;
    print_number(
        rt,
        format_options::alignment_number(options.alignment) as u64,
    )?;
    print_given(rt, options.width)?;
    print_given(rt, options.precision)?;
    print_shown(rt, options.representation)?;
    print_fill(rt, options.fill)?;
    print_given(rt, index)?;
    rt.println("")
}

// A refusal: its number, and its place or value.
fn print_refused(rt: &impl Print, number: u32, value: u64) -> io::Result<()> {
    println!(rt; "refused {number} {value}")
}

fn print_answer(rt: &impl Print, parsed: Result<Parsed, ParseError>) -> io::Result<()> {
    match parsed {
        Ok(read) => print_options(rt, read.options, read.index),
        Err(_) => print_refused(rt, answer::number_of(parsed), answer::value_of(parsed)),
    }
}

// A space, and the bytes of a string in hex: those from its place on, as far as the row has them.
fn print_string(rt: &impl Print, bytes: &[u8], place: u32, len: u32) -> io::Result<()> {
    rt.print(" ")?;
    for byte in bytes.iter().skip(place as usize).take(len as usize) {
        print!(rt; "{byte:02x}")?;
    }
    Ok(())
}

// The strings of the first n entries.
fn print_strings(rt: &impl Print, bytes: &[u8], entries: &[u32], n: usize) -> io::Result<()> {
    for entry in entries.chunks_exact(2).take(n) {
        print_string(rt, bytes, entry[0], entry[1])?;
    }
    Ok(())
}

// Parses a format string with the small table and an empty pool in these rows. One that is too long is refused first, and then they stay as
// they are.
fn parse_small(text: &[u8], bytes: &mut [u8], entries: &mut [u32]) -> After {
    let none = Counts {
        entries: 0,
        bytes: 0,
    };
    if TEXT_MOST < text.len() {
        return After {
            answer: Err(ParseError::Refused(Refusal::TooLong)),
            counts: none,
        };
    }
    let table = fitness::small_table();
    parse::parse(text, &table, input::WITH_GB9C, bytes, entries, none)
}

// Prints what a format string is parsed as: its options or its refusal, and then the strings of the pool.
pub fn print_format(rt: &impl Print, text: &[u8]) -> io::Result<()>
    ensures { IfOk result (λ r. r ≡ tt) }
{
    let mut bytes = [0u8; 1024];
    let mut entries = [0u32; 128];
    let after = parse_small(text, &mut bytes, &mut entries);
    print_answer(rt, after.answer)?;
    rt.print("pool")?;
    print_strings(rt, &bytes, &entries, after.counts.entries as usize)?;
    rt.println("")
}
