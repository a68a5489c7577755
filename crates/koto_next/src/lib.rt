// `next` for C, over a cursor as its numbers (crate `cursor_numbers`).
#![tactic(auto)]

ghost use Rattle.std.specs.Prelude.{◌≡◌, ◌<◌};
ghost use Rattle.reading.specs.Status.{end_half_number};
ghost use Rattle.cursor_numbers.specs.Cursors.{next_by, NextIs};

use cursor::Status;
use cursor_numbers::{cursor_of, names, tell_given};
use layout::Layout;
use lookahead::{Handed, NextError};
use reading::answer::{END, END_HALF, STUCK};

// `koto_next` over whole records. It is called once a token, so each status has an arm that LLVM compiles for it alone.
fn next_whole(
    list: &[u32],
    taken: &mut usize,
    queued: &mut usize,
    count: usize,
    status: u32,
    shown: &mut u32,
    record: &mut [u32; 10],
    place: &mut usize,
) -> u32
    requires { status < end_half_number }
    ensures { NextIs list.now taken.old queued.old count status
        taken.new queued.new shown.new «record».new place.new result }
{
    match status {
        END => {
            let given = lookahead::next(
                Layout::Whole,
                list,
                cursor_of(*taken, *queued, count, Status::End),
            );
            tell_given(given, taken, queued, shown, record, place)
        }
        STUCK => {
            let given = lookahead::next(
                Layout::Whole,
                list,
                cursor_of(*taken, *queued, count, Status::Stuck),
            );
            tell_given(given, taken, queued, shown, record, place)
        }
        _ => tell_given(
            Err(NextError::BadState),
            taken,
            queued,
            shown,
            record,
            place,
        ),
    }
}

// The inner call's answer for a cursor of these numbers. A list at half the size comes here: its two statuses share one inner call, which LLVM inlines
// as the last one that is left.
fn next_by(
    list: &[u32],
    taken: usize,
    queued: usize,
    count: usize,
    number: u32,
) -> Result<Option<Handed>, NextError>
    ensures { result ≡ next_by list.now taken queued count number }
{
    let Some((layout, status)) = names(number) else {
        return Err(NextError::BadState);
    };
    lookahead::next(layout, list, cursor_of(taken, queued, count, status))
}

// Hands out the next token, and moves the cursor on. Refused are a cursor that is unfit with 8, then a record that may not be shown with 9;
// both leave the cursor.
pub fn koto_next(
    list: &[u32],
    taken: &mut usize,
    queued: &mut usize,
    count: usize,
    status: u32,
    shown: &mut u32,
    record: &mut [u32; 10],
    place: &mut usize,
) -> u32
    ensures { NextIs list.now taken.old queued.old count status
        taken.new queued.new shown.new «record».new place.new result }
{
    if status < END_HALF {
        return next_whole(list, taken, queued, count, status, shown, record, place);
    }
    let given = next_by(list, *taken, *queued, count, status);
    tell_given(given, taken, queued, shown, record, place)
}
