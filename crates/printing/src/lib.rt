// How records and the end of a scan are printed (document 01, "Scripts and format strings to try"): a record or an end a line, numbers in decimal with one
// space between two of them. This crate knows no source and no table.
#![tactic(auto)]

ghost use Rattle.std.specs.Prelude.{◌≡◌, ◌∷◌, [], ◌<◌, ◌≤◌, length, IfOk};
ghost use Rattle.rows.specs.Row.{room};
ghost use Rattle.reading.specs.Scan.{count_of};

use reading::{Scan, ScanError, answer};
use rows::Row;
use std::io;

// Prints a number, and what stands after it.
pub fn print_number(rt: &impl Print, x: u64, after: &[u8]) -> io::Result<()>
    ensures { IfOk result (λ r. r ≡ tt) }
{
    rt.print(x)?;
    rt.write_all(after)
}

// The ten numbers of a record in the order in which they are printed: its kind and its detail, then the other eight. Their count, which
// follows, is what lending them as a slice asks.
pub fn numbers(row: Row) -> [u32; 10]
    ensures value { result ≡ row.kind ∷ row.detail ∷ row.start ∷ row.end ∷ row.start_line ∷ row.start_column ∷ row.end_line ∷ row.end_column ∷ row.indent ∷ row.depth ∷ [] }
    ensures value_2 { 10 ≡ length result }
{
    [
        row.kind,
        row.detail,
        row.start,
        row.end,
        row.start_line,
        row.start_column,
        row.end_line,
        row.end_column,
        row.indent,
        row.depth,
    ]
}

// Prints number i of a line, and the space before it.
fn print_field(rt: &impl Print, i: usize, x: u32) -> io::Result<()> {
    if 0 < i {
        rt.print(" ")?;
    }
    rt.print(x)
}

// Prints numbers with one space between two of them. In two functions LLVM inlines more of it.
fn print_numbers(rt: &impl Print, numbers: &[u32]) -> io::Result<()> {
    for (i, x) in numbers.iter().enumerate() {
        print_field(rt, i, *x)?;
    }
    Ok(())
}

// Prints a record, by its ten numbers.
pub fn print_row(rt: &impl Print, row: Row) -> io::Result<()>
    ensures { IfOk result (λ r. r ≡ tt) }
{
    let ten = numbers(row);
    print_numbers(rt, &ten)?;
    rt.println("")
}

// Prints record i of a list, if it may be shown: every record that a scan wrote may.
fn print_row_at(rt: &impl Print, list: &[u32], i: usize) -> io::Result<()>
    requires { i < room list.now }
{
    match rows::row_at(list, i) {
        Some(row) => print_row(rt, row),
        None => Ok(()),
    }
}

// Prints the first records of a list.
pub fn print_rows(rt: &impl Print, list: &[u32], count: usize) -> io::Result<()>
    requires { count ≤ room list.now }
    ensures { IfOk result (λ r. r ≡ tt) }
{
    for i in 0..count {
        print_row_at(rt, list, i)?;
    }
    Ok(())
}

// A word with a space after it, and two numbers.
fn print_last(rt: &impl Print, word: &[u8], first: u64, second: usize) -> io::Result<()> {
    rt.write_all(word)?;
    print_number(rt, first, b" ")?;
    print_number(rt, second as u64, b"\n")
}

// Prints a refusal: its number and its place.
pub fn print_refused(rt: &impl Print, number: u32, place: usize) -> io::Result<()>
    ensures { IfOk result (λ r. r ≡ tt) }
{
    print_last(rt, b"refused ", number as u64, place)
}

// Prints how a scan ended: its status with the count of records and the current byte, or the number and the place of its refusal.
pub fn print_end(rt: &impl Print, scanned: Result<Scan, ScanError>) -> io::Result<()>
    ensures { IfOk result (λ r. r ≡ tt) }
{
    let place = answer::place_of(scanned);
    match scanned {
        Ok(Scan::End { count, .. }) => print_last(rt, b"end ", count as u64, place),
        Ok(Scan::Stuck { count, .. }) => print_last(rt, b"stuck ", count as u64, place),
        Err(_) => print_refused(rt, answer::number_of(scanned), place),
    }
}

// Prints what a scan left: each record written, and then how it ended.
pub fn print_scan(rt: &impl Print, list: &[u32], scanned: Result<Scan, ScanError>) -> io::Result<()>
    requires { count_of scanned ≤ room list.now }
    ensures { IfOk result (λ r. r ≡ tt) }
{
    print_rows(rt, list, answer::count_of(scanned))?;
    print_end(rt, scanned)
}
