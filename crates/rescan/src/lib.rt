// The list of a source after one edited line (document 02, C-7): the records before the line are kept as they stand in the old list, and
// the rest is read from there, into a second list.
//
// Whether the edit fits is asked of the crate `edit`, which records are kept of `keep`, and reading on is the scan's. What it must answer
// and write, for any old list, stands in specs/; that it is what a scan of the new source answers and writes, where the old list is the old
// source's, is a promise.
#![tactic(auto)]

pub mod answer;

ghost use Rattle.std.specs.Prelude.{◌≡◌, ◌≤◌, ◌<◌};
ghost use Rattle.base.specs.Refusal.{source_most};
ghost use Rattle.property.specs.Table.{properties_at};
ghost use Rattle.fitness.specs.Fit.{FitTable};
ghost use Rattle.input.specs.Input.{Readable};
ghost use Rattle.rows.specs.Row.{room};
ghost use Rattle.stepping.specs.Invariant.{Ok};
ghost use Rattle.kept.specs.Kept.{place_of, resumed};
ghost use Rattle.keep.specs.Keep.{row_before};
ghost use Rattle.reading.specs.declared.ScanError.TheVariants.{Refused};
ghost use Rattle.rescan.specs.declared.RescanError.TheVariants.{Scan};
ghost use Rattle.rescan.specs.Rescan.{ReadsBehind, Rescans, RescansReadable};

use edit::{Edit, edit_fits, line_start};
use input::{Refusal, SOURCE_MOST};
use keep::{kept_rows, row_before};
use layout::Layout;
use position::{ByteOffset, Column, Place, Position, Span};
use reading::{Scan, ScanError};
use rows::Row;
use state::{Lexer, State};

// Why a rescan is refused; where it is not, it answers as a scan of the new source.
#[derive(Clone, Copy, Debug, PartialEq, Eq)]
pub enum RescanError {
    // As a scan of the new source: one of refusals 1, 17, 2, 3 and 15, 4 or 5.
    Scan(ScanError),
    // Refusal 16: the edit does not lead from the old source to the new one. Its place is 0.
    BadEdit,
    // Refusal 8: the old list has no room for as many records as it should have. Its place is 0.
    BadState,
}

impl From<Refusal> for RescanError {
    ghost from_gives = { λ r e. e ≡ Scan (Refused r) };

    fn from(r: Refusal) -> RescanError {
        RescanError::Scan(ScanError::Refused(r))
    }
}

impl From<ScanError> for RescanError {
    ghost from_gives = { λ s e. e ≡ Scan s };

    fn from(e: ScanError) -> RescanError {
        RescanError::Scan(e)
    }
}

// The place that a record fixes.
fn place_of(row: Row) -> Place
    ensures { result ≡ place_of row }
{
    Place {
        previous_byte: ByteOffset(row.start as usize),
        current_byte: ByteOffset(row.end as usize),
        span: Span {
            start: Position {
                line: row.start_line,
                column: Column(row.start_column),
            },
            end: Position {
                line: row.end_line,
                column: Column(row.end_column),
            },
        },
    }
}

// The state behind a record, with no modes: the one from which a reading goes on that has no mode there.
fn resume(row: Row) -> State
    requires { row.kind < 256 }
    ensures { result ≡ resumed row }
{
    let start = State::new();
    let modes = start.modes;
    State {
        lexer: Lexer {
            place: place_of(row),
            depth: 0,
            indent: row.indent,
            mode: 0,
            previous_token: row.kind as u8,
        },
        modes,
    }
}

// Copies the first records of the old list, as many of them as have room, and reads on behind them.
fn read_behind(
    old_list: &[u32],
    kept: usize,
    source: &[u8],
    table: &[u32],
    edition: u32,
    list: &mut [u32],
) -> Result<Scan, ScanError>
    requires { (kept ≤ room old_list.now) × Ok source.now (resumed (row_before old_list.now kept)) × FitTable table.now }
    ensures { ReadsBehind (properties_at table.now) edition source.now old_list.now kept
        list.old result list.new }
{
    let room = rows::room(list);
    if room < kept {
        rows::copy::copy_rows(old_list, list, room);
        return Err(ScanError::ListFull {
            count: room,
            byte: row_before(old_list, room).end as usize,
        });
    }
    rows::copy::copy_rows(old_list, list, kept);
    let start = resume(row_before(old_list, kept));
    scan::read_on(Layout::Whole, source, table, edition, start, list, kept)
}

// A rescan whose new source was not refused.
fn rescan_readable(
    old: &[u8],
    old_list: &[u32],
    old_count: usize,
    edit: Edit,
    source: &[u8],
    table: &[u32],
    edition: u32,
    list: &mut [u32],
) -> Result<Scan, RescanError>
    requires { Readable source_most source.now table.now edition }
    ensures { RescansReadable old.now old_list.now old_count edit source.now table.now edition
        list.old result list.new }
{
    if !edit_fits(old, edit, source) {
        return Err(RescanError::BadEdit);
    }
    if rows::room(old_list) < old_count {
        return Err(RescanError::BadState);
    }
    let line = line_start(source, edit.place);
    let kept = kept_rows(source, line, old_list, old_count);
    Ok(read_behind(old_list, kept, source, table, edition, list)?)
}

// Writes the records of a source at the start of the list, after an edit that led to it from an old source, whose list has `old_count`
// records: those before the edited line are taken from there. Refused are what a scan of the new source refuses before any work; then an
// edit that does not lead from the old source to the new one; then an old list that is shorter than its count, each before a word is
// written; then a token for which there is no record or no mode left, and a kept record that has no room.
pub fn rescan(
    old: &[u8],
    old_list: &[u32],
    old_count: usize,
    edit: Edit,
    source: &[u8],
    table: &[u32],
    edition: u32,
    list: &mut [u32],
) -> Result<Scan, RescanError>
    ensures { Rescans old.now old_list.now old_count edit source.now table.now edition
        list.old result list.new }
{
    input::check_input(source, table, edition, SOURCE_MOST)?;
    rescan_readable(old, old_list, old_count, edit, source, table, edition, list)
}
