// Checking another lexer's list (document 02, C-9): whether the records, the count and the status that somebody hands over are those of the
// source's reading, and where they first differ if not.
//
// It reads tokens as the second engine does, by the crate `plain_step`, and compares each record with the list's where a scan stores it: no list of
// ours is written. It knows no record's numbers.
#![tactic(auto)]

pub mod answer;

ghost use Rattle.std.specs.Prelude.{◌≡◌, ◌≤◌, length};
ghost use Rattle.base.specs.Refusal.{source_most};
ghost use Rattle.utf8.specs.Encode.{WellFormed};
ghost use Rattle.fitness.specs.Fit.{FitTable};
ghost use Rattle.rows.specs.First.{Packs};
ghost use Rattle.rows.specs.Row.{room};
ghost use Rattle.reading.specs.Scan.{reading_of};
ghost use Rattle.classes.specs.Classes.{ClassTable};
ghost use Rattle.signs.specs.Table.{SignTable};
ghost use Rattle.foreign.specs.declared.CheckError.TheVariants.{Refused};
ghost use Rattle.foreign.specs.Check.{apart_after, is_right, compared, by_reading, list_checked};

use classes::classes;
use held::is_row;
use input::{Refusal, SOURCE_MOST};
use lexer::What;
use plain_step::plain_half;
use reading::answer::{END, STUCK};
use reading::row_of;
use rows::Row;
use signs::signs;
use state::{Change, State};
use token::{kinds, token_of};

// What the check says, where nothing is refused: it answers `Result<Comparison, CheckError>`.
#[derive(Clone, Copy, Debug, PartialEq, Eq)]
pub enum Comparison {
    // Yes: the records, the count and the status are those of the reading.
    Same,
    // No: the index of the first record that differs, or the smaller of the two counts where only they or the status differ.
    Differs(usize),
}

// Why it is refused.
#[derive(Clone, Copy, Debug, PartialEq, Eq)]
pub enum CheckError {
    // One of refusals 1, 17, 2, 3 and 15, before any work.
    Refused(Refusal),
    // Refusal 8: the list has no room for so many records as its count says.
    BadState,
    // Refusal 5: our own reading comes to a token that would push a 65th mode, at this byte.
    ModesFull(usize),
}

impl From<Refusal> for CheckError {
    ghost from_gives = { λ r e. e ≡ Refused r };

    fn from(r: Refusal) -> CheckError {
        CheckError::Refused(r)
    }
}

// Where the records first differ, after one record more has been read. A record past the list's count differs, and once one does it stays.
fn apart_after(list: &[u32], count: usize, read: usize, apart: usize, row: Row) -> usize
    requires { (count ≤ room list.now) × Packs row }
    ensures { result ≡ apart_after list.now count read apart row }
{
    if apart < read {
        return apart;
    }
    if count <= read {
        return apart;
    }
    if is_row(list, read, row) {
        return read + 1;
    }
    apart
}

// Whether count and status are right and no record differs, where so many were read.
fn is_right(count: usize, status: u32, read: usize, apart: usize, right: u32) -> bool
    ensures { result ≡ is_right count status read apart right }
{
    apart == read && (count == read && status == right)
}

// The answer, where all is read.
fn compared(count: usize, status: u32, read: usize, apart: usize, right: u32) -> Comparison
    ensures { result ≡ compared count status read apart right }
{
    if is_right(count, status, read, apart, right) {
        return Comparison::Same;
    }
    Comparison::Differs(apart)
}

// Reads the source and compares as it goes, with the rows of the second engine at hand. It reads on where a record differs, since refusal 5 comes first.
fn compare_by(
    source: &[u8],
    table: &[u32],
    edition: u32,
    classes: &[u8; 256],
    signs: &[u8; 512],
    list: &[u32],
    count: usize,
    status: u32,
) -> Result<Comparison, CheckError>
    requires source_len_bound { (length source.now ≤ source_most) × WellFormed source.now × FitTable table.now × (count ≤ room list.now) }
    requires class_table { ClassTable classes.now × SignTable signs.now }
    ensures { result ≡ by_reading list.now count status (reading_of source.now table.now edition) }
{
    let start = State::new();
    let mut lexer = start.lexer;
    let mut codes = start.modes.codes;
    let mut read: usize = 0;
    let mut apart: usize = 0;
    // The run of the table that had the last character above 127 of a name: most others are in it too.
    let mut near = 0;
    loop {
        let byte = lexer.place.current_byte.0;
        let half = plain_half(source, table, edition, classes, signs, lexer, &mut near);
        let what = half.what;
        let next = half.lexer;
        let change = half.change;
        match what {
            What::Token(token) => {
                apart = apart_after(list, count, read, apart, row_of(token, lexer, next));
                read += 1;
                // Only a token that changes the modes touches their array.
                if let Change::Keep = change {
                    lexer = next;
                    continue;
                }
                lexer = next.apply(&mut codes, change);
            }
            What::Stuck => {
                let last = row_of(token_of(kinds::ERROR), lexer, next);
                apart = apart_after(list, count, read, apart, last);
                return Ok(compared(count, status, read + 1, apart, STUCK));
            }
            What::ModesFull => {
                return Err(CheckError::ModesFull(byte));
            }
            What::End => {
                return Ok(compared(count, status, read, apart, END));
            }
        }
    }
}

// The same, with no rows at hand.
fn compare(
    source: &[u8],
    table: &[u32],
    edition: u32,
    list: &[u32],
    count: usize,
    status: u32,
) -> Result<Comparison, CheckError>
    requires { (length source.now ≤ source_most) × WellFormed source.now × FitTable table.now × (count ≤ room list.now) }
    ensures { result ≡ by_reading list.now count status (reading_of source.now table.now edition) }
{
    let classes = classes();
    let signs = signs();
    compare_by(
        source, table, edition, &classes, &signs, list, count, status,
    )
}

// Whether a list, its count and its status are those that a scan of this source would leave, whoever made them. Refused are a source that is too
// long, then a number that is no edition, then a table that is unfit, then bytes that are wrong or cut, then a list without room for its count,
// then a source of ours that pushes a 65th mode, before any difference is named. Nothing is written.
pub fn check_list(
    source: &[u8],
    table: &[u32],
    edition: u32,
    list: &[u32],
    count: usize,
    status: u32,
) -> Result<Comparison, CheckError>
    ensures { result ≡ list_checked source.now table.now edition list.now count status }
{
    input::check_input(source, table, edition, SOURCE_MOST)?;
    if rows::room(list) < count {
        return Err(CheckError::BadState);
    }
    compare(source, table, edition, list, count, status)
}
