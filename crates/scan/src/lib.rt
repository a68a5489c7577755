// The scan of a whole source into a lent list of records: lexer.rs's `TokenLexer` asked for its next token until nothing is left.
//
// It reads a token with the crate `lexer`, which knows no list, and stores its record with the crate `layout`, which knows no source: one loop for
// both layouts. What it must answer and write stands in the crate `reading`.
#![tactic(auto)]

ghost use Rattle.std.specs.Prelude.{◌≡◌, ◌≤◌};
ghost use Rattle.base.specs.Refusal.{source_most};
ghost use Rattle.property.specs.Table.{properties_at};
ghost use Rattle.fitness.specs.Fit.{FitTable};
ghost use Rattle.rows.specs.First.{depth_most};
ghost use Rattle.layout.specs.Layout.{room_in};
ghost use Rattle.layout.specs.declared.Layout.TheVariants.{Half};
ghost use Rattle.state.specs.Lexer.{reach_of};
ghost use Rattle.stepping.specs.Invariant.{Ok};
ghost use Rattle.reading.specs.Scan.{whole, FillsIn, ReadsOnIn, Scans, ScansIn};
ghost use Rattle.reading.specs.Reading.{deep, stuck_reading};

use input::SOURCE_MOST;
use layout::Layout;
use lexer::{What, read_half};
use reading::{Scan, ScanError, row_of};
use state::{Change, Lexer, State};
use token::{kinds, token_of};

// A token is left that would push a 65th mode. Where its record has no room either, that is said.
pub fn full(room: usize, count: usize, byte: usize) -> Result<Scan, ScanError>
    ensures { result ≡ whole room count byte deep }
{
    if count < room {
        return Err(ScanError::ModesFull { count, byte });
    }
    Err(ScanError::ListFull { count, byte })
}

// An Error stands still: its record is the last, if it has room.
pub fn stuck(
    layout: Layout,
    list: &mut [u32],
    count: usize,
    before: Lexer,
    after: Lexer,
) -> Result<Scan, ScanError>
    requires previous_byte_bound { (after.place.previous_byte.0 ≤ source_most) × (after.place.current_byte.0 ≤ source_most) }
    requires depth_le_depth_most { (before.depth ≤ depth_most) × (count ≤ room_in layout list.old) }
    ensures { FillsIn layout list.old count (reach_of after).byte.0 (stuck_reading before after) result list.new }
{
    let byte = after.place.current_byte.0;
    if count < layout.room(list) {
        let row = row_of(token_of(kinds::ERROR), before, after);
        layout.put(list, count, row, true);
        return Ok(Scan::Stuck {
            count: count + 1,
            byte,
        });
    }
    Err(ScanError::ListFull { count, byte })
}

// Reads on from a state, into the list from record `first` on.
pub fn read_on(
    layout: Layout,
    source: &[u8],
    table: &[u32],
    edition: u32,
    start: State,
    list: &mut [u32],
    first: usize,
) -> Result<Scan, ScanError>
    requires { Ok source.now start × FitTable table.now × (first ≤ room_in layout list.old) }
    ensures { ReadsOnIn layout (properties_at table.now) edition source.now start first list.old result list.new }
{
    let mut lexer = start.lexer;
    let mut codes = start.modes.codes;
    let mut count = first;
    loop {
        let byte = lexer.place.current_byte.0;
        let half = read_half(source, table, edition, lexer);
        let what = half.what;
        let next = half.lexer;
        let change = half.change;
        match what {
            What::Token(token) => {
                if layout.room(list) <= count {
                    return Err(ScanError::ListFull { count, byte });
                }
                layout.put(&mut *list, count, row_of(token, lexer, next), false);
                count += 1;
                // Only a token that changes the modes touches their array.
                if let Change::Keep = change {
                    lexer = next;
                    continue;
                }
                lexer = next.apply(&mut codes, change);
            }
            What::Stuck => {
                return stuck(layout, &mut *list, count, lexer, next);
            }
            What::ModesFull => {
                return full(layout.room(list), count, byte);
            }
            What::End => {
                return Ok(Scan::End { count, byte });
            }
        }
    }
}

// Writes the records of a source at the start of a list in this layout, by the cluster rules of edition 1 (without GB9c) or 2 (with it). Refused
// are a source that is too long, then a number that is no edition, then a table that is unfit, then bytes that are wrong or cut, each before a word
// is written; then a token for which there is no record or no mode left.
fn scan_in(
    layout: Layout,
    source: &[u8],
    table: &[u32],
    edition: u32,
    list: &mut [u32],
) -> Result<Scan, ScanError>
    ensures { ScansIn layout source.now table.now edition list.old result list.new }
{
    input::check_input(source, table, edition, SOURCE_MOST)?;
    read_on(layout, source, table, edition, State::new(), list, 0)
}

// Into whole records (document 01).
pub fn scan(source: &[u8], table: &[u32], edition: u32, list: &mut [u32]) -> Result<Scan, ScanError>
    ensures { Scans source.now table.now edition list.old result list.new }
{
    scan_in(Layout::Whole, source, table, edition, list)
}

// Into records at half the size (document 02, C-5).
pub fn scan_half(
    source: &[u8],
    table: &[u32],
    edition: u32,
    list: &mut [u32],
) -> Result<Scan, ScanError>
    ensures { ScansIn Half source.now table.now edition list.old result list.new }
{
    scan_in(Layout::Half, source, table, edition, list)
}
