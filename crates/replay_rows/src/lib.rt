// What the programs that replay a scan share: the list that they lend to it, and whether a scan answered and wrote what a line of recorded
// answers has, `STATUS COUNT BYTE` and the ten numbers of each record (tools/README.md). It knows nothing of how a scan comes about, and
// nothing of a record's words.
#![tactic(auto)]

ghost use Rattle.std.specs.Prelude.{◌≡◌, true, ◌≤◌, ◌<◌, length};
ghost use Rattle.rows.specs.Row.{room};
ghost use Rattle.reading.specs.Scan.{count_of};

use lines::Fields;
use reading::answer::{count_of, number_of, place_of};
use reading::{Scan, ScanError};

// What stands in a list before a scan. As a record it would have kind 112, so no scan writes it.
const MARK: u32 = 0xa5a5_a5f0;

// Marks, with room for 2,048 records, which is more than any case has. Their count is what lending them as a slice asks.
pub fn list_buffer() -> [u32; 16384]
    ensures { 16384 ≡ length result }
{
    [MARK; 16384]
}

// Are there marks alone from a place of the list on?
fn stays(list: &[u32], from: usize) -> bool {
    list.iter().skip(from).all(|number| *number == MARK)
}

// A line's status: 0 at the end, 1 where stuck, 100 and the refusal's number.
fn status_of(said: Result<Scan, ScanError>) -> usize {
    match said {
        Ok(Scan::End { .. }) => 0,
        Ok(Scan::Stuck { .. }) => 1,
        Err(_) => 100 + number_of(said) as usize,
    }
}

// Whether the next fields are the ten numbers of record i of a list. One that may not be shown differs from every line.
fn same_row(fields: &mut Fields, list: &[u32], i: usize) -> bool
    requires { i < room list.now }
{
    match rows::row_at(list, i) {
        Some(row) => fields.all_same(&printing::numbers(row)),
        None => false,
    }
}

// The same of the first so many records of a list.
fn same_rows(fields: &mut Fields, list: &[u32], count: usize) -> bool
    requires { count ≤ room list.now }
{
    for i in 0..count {
        if !same_row(fields, list, i) {
            return false;
        }
    }
    true
}

// Whether the next fields are the status, the count and the byte of an answer.
fn same_answer(fields: &mut Fields, said: Result<Scan, ScanError>) -> bool {
    fields.same(status_of(said)) && fields.same(count_of(said)) && fields.same(place_of(said))
}

// Whether the fields `STATUS COUNT BYTE RECORDS..` are what a scan said and wrote into a list of marks, and marks stand behind the records. A
// list that has no room for the records counted agrees with nothing.
pub fn agrees(mut fields: Fields, said: Result<Scan, ScanError>, list: &[u32]) -> bool
    ensures { result ≡ true → count_of said ≤ room list.now }
{
    let count = count_of(said);
    count <= rows::room(list)
        && same_answer(&mut fields, said)
        && same_rows(&mut fields, list, count)
        && stays(list, rows::ROW_WORDS * count)
}
