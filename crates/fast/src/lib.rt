// The second engine of the scan: the same records as `scan`, and faster. As many tokens as are told at once are read with the crate `fast_turns`, and the
// next one with the crate `fast_step`, which knows no list. What it must answer and write stands in the crate `reading`, as for `scan`.
#![tactic(auto)]

ghost use Rattle.std.specs.Prelude.{◌≤◌};
ghost use Rattle.property.specs.Table.{properties_at};
ghost use Rattle.fitness.specs.Fit.{FitTable};
ghost use Rattle.layout.specs.Layout.{room_in};
ghost use Rattle.stepping.specs.Invariant.{Ok};
ghost use Rattle.reading.specs.Scan.{ReadsOnIn, Scans};
ghost use Rattle.classes.specs.Classes.{ClassTable};
ghost use Rattle.fast_turns.specs.Steps.{Rows};

use classes::classes;
use fast_step::long_half;
use fast_turns::fast_run;
use found::copied;
use input::SOURCE_MOST;
use layout::Layout;
use lexer::What;
use reading::{Scan, ScanError, row_of};
use scan::{full, stuck};
use signs::signs;
use state::{Change, State};

// Reads on from a state, into the list from record `first` on, with the signs at hand.
fn read_on_by(
    layout: Layout,
    source: &[u8],
    table: &[u32],
    edition: u32,
    classes: &[u8; 256],
    signs: &[u8; 512],
    start: State,
    list: &mut [u32],
    first: usize,
) -> Result<Scan, ScanError>
    requires ok { Ok source.now start × FitTable table.now × (first ≤ room_in layout list.old) }
    requires rows { Rows classes.now signs.now }
    ensures { ReadsOnIn layout (properties_at table.now) edition source.now start first list.old result list.new }
{
    let mut lexer = start.lexer;
    let mut codes = start.modes.codes;
    let mut count = first;
    // The run of the table that had the last character above 127 of a name: most others are in it too.
    let mut near = 0;
    loop {
        let run = fast_run(
            layout, source, table, edition, classes, signs, &mut codes, &mut *list, lexer, count,
        );
        lexer = copied(run.lexer);
        count = run.count;
        let byte = lexer.place.current_byte.0;
        let half = long_half(source, table, edition, lexer, &mut near);
        let what = half.what;
        let next = half.lexer;
        let change = half.change;
        match what {
            What::Token(token) => {
                if layout.room(list) <= count {
                    return Err(ScanError::ListFull { count, byte });
                }
                layout.put(&mut *list, count, row_of(token, lexer, next), false);
                count += 1;
                // Only a token that changes the modes touches their array.
                if let Change::Keep = change {
                    lexer = next;
                    continue;
                }
                lexer = next.apply(&mut codes, change);
            }
            What::Stuck => {
                return stuck(layout, &mut *list, count, lexer, next);
            }
            What::ModesFull => {
                return full(layout.room(list), count, byte);
            }
            What::End => {
                return Ok(Scan::End { count, byte });
            }
        }
    }
}

// The same, with no signs at hand.
fn read_on(
    layout: Layout,
    source: &[u8],
    table: &[u32],
    edition: u32,
    classes: &[u8; 256],
    start: State,
    list: &mut [u32],
    first: usize,
) -> Result<Scan, ScanError>
    requires ok { Ok source.now start × FitTable table.now × (first ≤ room_in layout list.old) }
    requires class_table { ClassTable classes.now }
    ensures { ReadsOnIn layout (properties_at table.now) edition source.now start first list.old result list.new }
{
    let signs = signs();
    read_on_by(
        layout, source, table, edition, classes, &signs, start, list, first,
    )
}

// Writes the records of a source at the start of the list, as `scan::scan` does: the same answer and the same words, on every input.
pub fn scan_fast(
    source: &[u8],
    table: &[u32],
    edition: u32,
    list: &mut [u32],
) -> Result<Scan, ScanError>
    ensures { Scans source.now table.now edition list.old result list.new }
{
    let classes = classes();
    input::check_input(source, table, edition, SOURCE_MOST)?;
    read_on(
        Layout::Whole,
        source,
        table,
        edition,
        &classes,
        State::new(),
        list,
        0,
    )
}
