// `peek` for C, over a cursor as its numbers (crate `cursor_numbers`).
#![tactic(auto)]

ghost use Rattle.std.specs.Prelude.{◌≡◌};
ghost use Rattle.cursor_numbers.specs.Cursors.{peek_by, PeekIs};

use cursor_numbers::{cursor_of, names, tell_looked};
use lookahead::{Look, LookError};

// The inner call's answer for a cursor of these numbers. The inner call stands once, for either layout, so that LLVM inlines it.
fn peek_by(
    list: &[u32],
    taken: usize,
    queued: usize,
    count: usize,
    number: u32,
    n: usize,
) -> Result<Look, LookError>
    ensures { result ≡ peek_by list.now taken queued count number n }
{
    let Some((layout, status)) = names(number) else {
        return Err(LookError::BadState);
    };
    lookahead::peek(layout, list, cursor_of(taken, queued, count, status), n)
}

// Queues one more token, if there is one and n is at most what is queued, and shows queued token n. Refused are a cursor that is unfit with
// 8, then an n that is too far with 6, then a full queue with 7, then a record that may not be shown with 9; all leave the cursor.
pub fn koto_peek(
    list: &[u32],
    taken: usize,
    queued: &mut usize,
    count: usize,
    status: u32,
    n: usize,
    shown: &mut u32,
    record: &mut [u32; 10],
    place: &mut usize,
) -> u32
    ensures { PeekIs list.now taken queued.old count status n
        queued.new shown.new «record».new place.new result }
{
    let looked = peek_by(list, taken, *queued, count, status, n);
    tell_looked(looked, queued, shown, record, place)
}
