// `look_ahead` for C, over a cursor as its numbers (crate `cursor_numbers`).
#![tactic(auto)]

ghost use Rattle.std.specs.Prelude.{◌≡◌};
ghost use Rattle.cursor_numbers.specs.Cursors.{look_by, LookAheadIs};

use cursor_numbers::{cursor_of, names, tell_looked};
use lookahead::{Look, LookError};

// The inner call's answer for a cursor of these numbers. The inner call stands once, for either layout, so that LLVM inlines it.
fn look_by(
    list: &[u32],
    taken: usize,
    queued: usize,
    count: usize,
    number: u32,
    n: usize,
) -> Result<Look, LookError>
    ensures { result ≡ look_by list.now taken queued count number n }
{
    let Some((layout, status)) = names(number) else {
        return Err(LookError::BadState);
    };
    lookahead::look_ahead(layout, list, cursor_of(taken, queued, count, status), n)
}

// Shows the token that the (n+1)th following `koto_next` would hand out, and queues what is lacking for it. Refused are a cursor that is unfit
// with 8, then more tokens than may be queued with 7, then a record that may not be shown with 9; all leave the cursor.
pub fn koto_look_ahead(
    list: &[u32],
    taken: usize,
    queued: &mut usize,
    count: usize,
    status: u32,
    n: usize,
    shown: &mut u32,
    record: &mut [u32; 10],
    place: &mut usize,
) -> u32
    ensures { LookAheadIs list.now taken queued.old count status n
        queued.new shown.new «record».new place.new result }
{
    let looked = look_by(list, taken, *queued, count, status, n);
    tell_looked(looked, queued, shown, record, place)
}
