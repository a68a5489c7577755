// The table file (document 01, "The property table"): "KPT", a 16-bit version (1), a zero byte, a 16-bit count, then the numbers; little-endian,
// nothing after. It knows nothing of what a table says of a code point.
#![tactic(auto)]

pub mod answer;

ghost use Rattle.std.specs.Prelude.{◌≡◌, ◌++◌, ◌+◌, ◌*◌, ◌≤◌, length, drop};
ghost use Rattle.fitness.specs.First.{first_bad};
ghost use Rattle.fitness.specs.Fit.{table_check};
ghost use Rattle.table_file.specs.File.{mark_ok, number16, number32, numbers_in, of_table, ReadTableIs};

use fitness::{MOST, TableError, check_table};

// Why a table file is not read.
#[derive(Clone, Copy, Debug, PartialEq, Eq)]
pub enum TableFileError {
    // Refusal 14, with its place: the first bad byte, or the length where bytes lack.
    BadFile(usize),
    // Refusal 4: the row is shorter than the count. Its place is 0.
    ListFull,
    // Refusal 2, with the place that the check of a table gives it.
    BadTable(usize),
}

impl From<TableError> for TableFileError {
    ghost from_gives = { λ e r. r ≡ of_table e };

    fn from(e: TableError) -> TableFileError {
        match e {
            TableError::BadTable(i) => TableFileError::BadTable(i),
        }
    }
}

// "KPT", the version, the zero byte.
const MARK: [u8; 6] = *b"KPT\x01\x00\x00";

// The first byte of the mark that is wrong or lacks; 6 where none does.
fn first_bad_byte(file: &[u8]) -> usize
    ensures { result ≡ first_bad (mark_ok file.now) 0 6 }
{
    let mark = MARK;
    for (i, byte) in mark.iter().enumerate() {
        if file.len() <= i {
            return i;
        }
        if file[i] != *byte {
            return i;
        }
    }
    6
}

fn number_16(file: &[u8], at: usize) -> u16
    requires { at + 2 ≤ length file.now }
    ensures { result ≡ number16 file.now at }
{
    u16::from_le_bytes([file[at], file[at + 1]])
}

fn number_32(file: &[u8], at: usize) -> u32
    requires { at + 4 ≤ length file.now }
    ensures { result ≡ number32 file.now at }
{
    u32::from_le_bytes([file[at], file[at + 1], file[at + 2], file[at + 3]])
}

// Writes the file's numbers to the start of a row.
fn read_numbers(file: &[u8], count: usize, row: &mut [u32])
    requires { (8 + 4 * count ≤ length file.now) × (count ≤ length row.old) }
    ensures { row.new ≡ numbers_in count (drop 8 file.now) ++ drop count row.old }
{
    for i in 0..count {
        row[i] = number_32(file, 8 + 4 * i);
    }
}

// Whether the file's numbers are a fit table. Nothing is written on a refusal, so they are read into numbers of our own first; more than
// 8,000 are a bad count whatever they are.
fn check_numbers(file: &[u8], count: usize) -> Result<(), TableError>
    requires { 8 + 4 * count ≤ length file.now }
    ensures { result ≡ table_check (numbers_in count (drop 8 file.now)) }
{
    if MOST < count {
        return Err(TableError::BadTable(0));
    }
    let mut numbers = [0u32; MOST];
    read_numbers(file, count, &mut numbers);
    check_table(&numbers[..count])
}

// Reads a table file into the start of the row, and tells how many numbers now stand there; the rest of the row stays. A refusal leaves the
// whole row as it was.
pub fn read_table(file: &[u8], row: &mut [u32]) -> Result<usize, TableFileError>
    ensures { ReadTableIs file.now row.old row.new result }
{
    let bad = first_bad_byte(file);
    if bad < 6 {
        return Err(TableFileError::BadFile(bad));
    }
    let length = file.len();
    if length < 8 {
        return Err(TableFileError::BadFile(length));
    }
    let count = number_16(file, 6) as usize;
    let end = 8 + 4 * count;
    if length < end {
        return Err(TableFileError::BadFile(length));
    }
    if end < length {
        return Err(TableFileError::BadFile(end));
    }
    if row.len() < count {
        return Err(TableFileError::ListFull);
    }
    check_numbers(file, count)?;
    read_numbers(file, count, row);
    Ok(count)
}
