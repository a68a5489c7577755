// Replays what the oracle's own check said of table files, good and bad (data/tables.txt; tools/README.md says how it was made): what reading
// one answers, what it leaves in the row, and what the check of its numbers answers. Then a file with one wrong line, so that a difference
// is seen to be reported.
#![tactic(auto)]

ghost use Rattle.std.specs.Prelude.{◌≡◌, length};

use lines::Fields;
use std::io;
use table_file::{TableFileError, answer};

// The row that each file is read into; no line has more room.
const ROOM: usize = 8192;

// What stands in the row before. It has class 15, so it is in no table that is fit.
const PATTERN: u32 = 0xa5a5_a5f0;

// What a line `HEX ROOM NUMBER PLACE COUNT` says, but for the file.
#[derive(Clone, Copy)]
struct Case {
    room: usize,
    number: usize,
    place: usize,
    count: usize,
}

// The case of the fields `ROOM NUMBER PLACE COUNT`.
fn case_of(mut fields: Fields) -> Case {
    Case {
        room: fields.number(),
        number: fields.number(),
        place: fields.number(),
        count: fields.number(),
    }
}

// What four bytes say as a number, the lowest first.
fn word_of(bytes: &[u8]) -> u32 {
    match bytes.first_chunk::<4>() {
        Some(word) => u32::from_le_bytes(*word),
        None => 0,
    }
}

fn fresh_row() -> [u32; ROOM]
    ensures { 8192 ≡ length result }
{
    [PATTERN; ROOM]
}

// A row with the file's first numbers, four bytes each, the lowest first, and the pattern after them. Of a number whose bytes are not all there it
// has 0.
fn row_of(file: &[u8], count: usize) -> [u32; ROOM]
    ensures { 8192 ≡ length result }
{
    let mut row = fresh_row();
    let n = lines::within(count, &row);
    row[..n].fill(0);
    let numbers = file.get(8..).unwrap_or(&[]).chunks_exact(4);
    for (number, word) in row[..n].iter_mut().zip(numbers) {
        *number = word_of(word);
    }
    row
}

// Reads the file into as much of the row as the line has room for.
fn read_into(case: Case, file: &[u8], row: &mut [u32]) -> Result<usize, TableFileError> {
    let room = lines::within(case.room, row);
    table_file::read_table(file, &mut row[..room])
}

fn file_agrees(case: Case, said: Result<usize, TableFileError>) -> bool {
    case.number == answer::number_of(said) as usize
        && case.place == answer::place_of(said)
        && case.count == answer::count_of(said)
}

// Checks the first numbers of the row as a table, and compares the answer.
fn check_agrees(case: Case, row: &[u32], count: usize) -> bool {
    let n = lines::within(count, row);
    let said = fitness::check_table(&row[..n]);
    case.number == fitness::answer::number_of(said) as usize
        && case.place == fitness::answer::place_of(said)
}

// The same of all numbers of the file.
fn numbers_agree(case: Case, file: &[u8]) -> bool {
    if file.len() < 8 {
        return false;
    }
    let count = (file.len() - 8) / 4;
    check_agrees(case, &row_of(file, count), count)
}

// The table by itself: a file that is refused before its table is looked at is not asked for one.
fn table_agrees(case: Case, said: Result<usize, TableFileError>, file: &[u8]) -> bool {
    match said {
        Err(TableFileError::BadFile(_)) => true,
        Err(TableFileError::ListFull) => true,
        _ => numbers_agree(case, file),
    }
}

fn case_agrees(case: Case, file: &[u8]) -> bool {
    let mut row = fresh_row();
    let said = read_into(case, file, &mut row);
    // The row has as many numbers of the file as the line says, and the pattern after them.
    file_agrees(case, said) && row == row_of(file, case.count) && table_agrees(case, said, file)
}

// Whether the line `HEX ROOM NUMBER PLACE COUNT` is what reading the file says and leaves.
fn agrees(line: &[u8]) -> bool {
    let mut fields = Fields::of(line);
    let mut buffer = lines::large_buffer();
    let file = fields.hex(&mut buffer);
    case_agrees(case_of(fields), file)
}

fn main(rt: HostRuntime) -> io::Result<()> {
    lines::replay(&rt, "tables.txt", agrees)?;
    lines::replay(&rt, "wrong.txt", agrees)
}
