// A cursor as its numbers, for the calls `koto_next`, `koto_peek` and `koto_look_ahead` for C: taken, queued, the count, and the status as a scan
// writes it, which tells the list's layout too; and an answer written number by number to the places that a caller lends.
//
// Each of the three calls has a crate of its own, and so a module of its own for LLVM. There the inner call has so few callers that LLVM inlines it, and
// no answer goes through memory. It knows neither a record's words nor how a token is looked for.
#![tactic(auto)]

ghost use Rattle.std.specs.Prelude.{◌≡◌, ℕ};
ghost use Rattle.cursor_numbers.specs.Cursors.{names, cursor_of, ShownIs, GivenIs, LookedIs};
ghost use Rattle.base.specs.Refusal.{none};
ghost use Rattle.lookahead.specs.Told.{no_row};

use base::refusals::{BAD_RECORD, BAD_STATE, NO_REFUSAL, PEEK_TOO_FAR, QUEUE_FULL};
use cursor::{Cursor, Status};
use layout::Layout;
use lookahead::answer::put_record;
use lookahead::{Handed, Look, LookError, NextError};
use reading::answer::{END, END_HALF, STUCK, STUCK_HALF};
use rows::Row;

// ---- the numbers of a cursor

// What a status number names; `None` where it is none that a list is walked with. The layout is asked first, so that LLVM makes no table of the
// numbers.
pub fn names(number: u32) -> Option<(Layout, Status)>
    ensures { result ≡ names number }
{
    if number < END_HALF {
        return match number {
            END => Some((Layout::Whole, Status::End)),
            STUCK => Some((Layout::Whole, Status::Stuck)),
            _ => None,
        };
    }
    match number {
        END_HALF => Some((Layout::Half, Status::End)),
        STUCK_HALF => Some((Layout::Half, Status::Stuck)),
        _ => None,
    }
}

pub fn cursor_of(taken: usize, queued: usize, count: usize, status: Status) -> Cursor
    ensures { result ≡ cursor_of taken queued count status }
{
    Cursor {
        taken,
        queued,
        count,
        status,
    }
}

// ---- an answer, told

// Each arm of an answer writes all that it tells by itself, and the record last: so LLVM keeps the arms apart, and a token's words go from the list to
// the caller's record through registers alone.

// Writes that no token is shown, and a refusal's place, and hands its number on.
fn tell_none(
    number: u32,
    at: usize,
    shown: &mut u32,
    record: &mut [u32; 10],
    place: &mut usize,
) -> u32
    ensures { ShownIs 0 no_row number at shown.new «record».new place.new result }
{
    *shown = 0;
    *place = at;
    *record = [0; 10];
    number
}

// Writes the token that is shown; there is no refusal.
fn tell_token(row: Row, shown: &mut u32, record: &mut [u32; 10], place: &mut usize) -> u32
    ensures { ShownIs 1 row none 0 shown.new «record».new place.new result }
{
    *shown = 1;
    *place = 0;
    put_record(record, row);
    NO_REFUSAL
}

// Writes the numbers of an answer of `next`, and hands its refusal on.
pub fn tell_given(
    given: Result<Option<Handed>, NextError>,
    taken: &mut usize,
    queued: &mut usize,
    shown: &mut u32,
    record: &mut [u32; 10],
    place: &mut usize,
) -> u32
    ensures { GivenIs given taken.old queued.old
        taken.new queued.new shown.new «record».new place.new result }
{
    match given {
        Ok(Some(handed)) => {
            *taken = handed.cursor.taken;
            *queued = handed.cursor.queued;
            tell_token(handed.row, shown, record, place)
        }
        Ok(None) => tell_none(NO_REFUSAL, 0, shown, record, place),
        Err(NextError::BadState) => tell_none(BAD_STATE, 0, shown, record, place),
        Err(NextError::BadRecord(i)) => tell_none(BAD_RECORD, i, shown, record, place),
    }
}

// Writes the numbers of an answer of `peek` or `look_ahead`, whatever was taken before it, and hands its refusal on.
pub fn tell_looked(
    looked: Result<Look, LookError>,
    queued: &mut usize,
    shown: &mut u32,
    record: &mut [u32; 10],
    place: &mut usize,
) -> u32
    ensures { (taken : ℕ) → LookedIs looked taken queued.old
        queued.new shown.new «record».new place.new result }
{
    match looked {
        Ok(look) => {
            *queued = look.cursor.queued;
            match look.row {
                Some(row) => tell_token(row, shown, record, place),
                None => tell_none(NO_REFUSAL, 0, shown, record, place),
            }
        }
        Err(LookError::BadState) => tell_none(BAD_STATE, 0, shown, record, place),
        Err(LookError::PeekTooFar) => tell_none(PEEK_TOO_FAR, 0, shown, record, place),
        Err(LookError::QueueFull) => tell_none(QUEUE_FULL, 0, shown, record, place),
        Err(LookError::BadRecord(i)) => tell_none(BAD_RECORD, i, shown, record, place),
    }
}
