// What the walk program does with a line of calls and what a scan left: it calls `next`, `peek` and `look_ahead` over the records, one call after the other. It is
// a library, so that the program which walks over many sources walks over each as the walk program does. It knows no standard input, no source
// and no scan.
#![tactic(auto)]

mod calls;

ghost use Rattle.std.specs.Prelude.{◌≡◌, length, IfOk};
ghost use Rattle.cursor.specs.Cursor.{start_cursor};
ghost use Rattle.walking.specs.Told.{refused_at, told_given, told_peeked, told_of};

pub use calls::{Call, are_calls, call_at};
use cursor::{Cursor, Status};
use layout::Layout;
use lookahead::{Handed, Look, LookError, NextError, answer};
use reading::{Scan, ScanError};
use rows::Row;
use std::io;

// A refusal, by document 01's number and place.
#[derive(Clone, Copy)]
pub struct Refusal {
    pub number: u32,
    pub place: usize,
}

// What is said of a call: the token that it hands out or shows, none, or its refusal; and the cursor after it, which is the one before it where
// none is handed back.
#[derive(Clone, Copy)]
pub struct Told {
    pub what: Result<Option<Row>, Refusal>,
    pub cursor: Cursor,
}

// The cursor of a scan's answer.
pub fn start(count: usize, status: Status) -> Cursor
    ensures { result ≡ start_cursor count status }
{
    Cursor {
        taken: 0,
        queued: 0,
        count,
        status,
    }
}

// A refusal, which leaves the cursor.
fn refused(number: u32, place: usize, cursor: Cursor) -> Told
    ensures { result ≡ refused_at number place cursor }
{
    Told {
        what: Err(Refusal { number, place }),
        cursor,
    }
}

// An answer of `next`, with document 01's number and place of a refusal.
fn told_given(before: Cursor, given: Result<Option<Handed>, NextError>) -> Told
    ensures { result ≡ told_given before given }
{
    match given {
        Ok(Some(handed)) => Told {
            what: Ok(Some(handed.row)),
            cursor: handed.cursor,
        },
        Ok(None) => Told {
            what: Ok(None),
            cursor: before,
        },
        Err(_) => refused(
            answer::given_number(given),
            answer::given_place(given),
            before,
        ),
    }
}

// The same of `peek` and `look_ahead`.
fn told_peeked(before: Cursor, peeked: Result<Look, LookError>) -> Told
    ensures { result ≡ told_peeked before peeked }
{
    match peeked {
        Ok(look) => Told {
            what: Ok(look.row),
            cursor: look.cursor,
        },
        Err(_) => refused(
            answer::peeked_number(peeked),
            answer::peeked_place(peeked),
            before,
        ),
    }
}

// Makes a call over a list, from a cursor.
pub fn ask(list: &[u32], cursor: Cursor, call: Call) -> Told
    ensures { result ≡ told_of list.now cursor call }
{
    match call {
        Call::Next => told_given(cursor, lookahead::next(Layout::Whole, list, cursor)),
        Call::Peek(n) => told_peeked(cursor, lookahead::peek(Layout::Whole, list, cursor, n)),
        Call::LookAhead(n) => told_peeked(
            cursor,
            lookahead::look_ahead(Layout::Whole, list, cursor, n),
        ),
    }
}

// Prints what is said of a call.
fn print_what(rt: &impl Print, what: Result<Option<Row>, Refusal>) -> io::Result<()> {
    match what {
        Ok(Some(row)) => printing::print_row(rt, row),
        Ok(None) => rt.println("none"),
        Err(refused) => printing::print_refused(rt, refused.number, refused.place),
    }
}

// Makes a call, prints what is said of it, and answers the cursor after it.
fn print_call(rt: &impl Print, list: &[u32], cursor: Cursor, call: Call) -> io::Result<Cursor> {
    let told = ask(list, cursor, call);
    print_what(rt, told.what)?;
    Ok(told.cursor)
}

fn print_queued(rt: &impl Print, cursor: Cursor) -> io::Result<()> {
    rt.print("queued ")?;
    printing::print_number(rt, cursor.queued as u64, b"\n")
}

// Makes the calls of a line, which is known to be one, and prints what is said of each; last how many tokens are queued.
fn print_calls(rt: &impl Print, line: &[u8], list: &[u32], from: Cursor) -> io::Result<()> {
    let mut cursor = from;
    let mut at = 0;
    while at < line.len() {
        cursor = print_call(rt, list, cursor, call_at(line, at))?;
        at = lines::past(line, at, b' ');
    }
    print_queued(rt, cursor)
}

// There is nothing to walk over where a scan is refused, so its refusal is printed alone.
fn print_scan(
    rt: &impl Print,
    line: &[u8],
    list: &[u32],
    scanned: Result<Scan, ScanError>,
) -> io::Result<()> {
    match scanned {
        Ok(Scan::End { count, .. }) => print_calls(rt, line, list, start(count, Status::End)),
        Ok(Scan::Stuck { count, .. }) => print_calls(rt, line, list, start(count, Status::Stuck)),
        Err(_) => printing::print_end(rt, scanned),
    }
}

// Zeros, one more than a line may have bytes, so that one too many is seen. Their length is what lending them as a slice asks.
pub fn line_buffer() -> [u8; 200001]
    ensures { 200001 ≡ length result }
{
    [0; 200001]
}

// Prints a walk over the records of a scan: a line for each call and how many tokens are queued at the end, the refusal of the scan, or that
// the line is malformed, which is told first.
pub fn print_walk(
    rt: &impl Print,
    line: &[u8],
    list: &[u32],
    scanned: Result<Scan, ScanError>,
) -> io::Result<()>
    ensures { IfOk result (λ r. r ≡ tt) }
{
    if !are_calls(line) {
        return rt.println("bad calls");
    }
    print_scan(rt, line, list, scanned)
}
