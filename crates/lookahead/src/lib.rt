// A scan's tokens one by one, and looking ahead: `next` and `peek` of lexer.rs's `KotoLexer`, over the list that a scan has written; and
// `look_ahead`, which looks as the comment there says (document 02, C-1).
//
// The Rust keeps the tokens that it has looked at in a `VecDeque`. Here the list has all of them, so the queue is two numbers over it: the
// queued tokens are those from `taken` on. This crate shows records through the crate `layout`, in either layout (document 02, C-5), and knows
// neither a record's words nor what was scanned. Left out is `KotoLexer::source`: the caller has the source.
#![tactic(auto)]

pub mod answer;

ghost use Rattle.std.specs.Prelude.{◌≡◌, ◌≤◌};
ghost use Rattle.layout.specs.Layout.{room_in, shown_in};
ghost use Rattle.lookahead.specs.Seen.{seen_at};
ghost use Rattle.lookahead.specs.Next.{next_of};
ghost use Rattle.lookahead.specs.Peek.{shown_by, queued_at, peek_of};
ghost use Rattle.lookahead.specs.LookAhead.{look_ahead_of};

use cursor::Cursor;
use layout::Layout;
use rows::Row;

// The token that `next` hands out, and the cursor after it.
#[derive(Clone, Copy)]
pub struct Handed {
    pub row: Row,
    pub cursor: Cursor,
}

// Why `next` refuses. It leaves the cursor.
#[derive(Clone, Copy)]
pub enum NextError {
    // Refusal 8: the cursor is unfit for this list.
    BadState,
    // Refusal 9: the record at this index is none that may be shown.
    BadRecord(usize),
}

// What `peek` and `look_ahead` show, and the cursor after it.
#[derive(Clone, Copy)]
pub struct Look {
    // `None` where there is no token n, or `peek` has not queued it. Some may have been queued all the same.
    pub row: Option<Row>,
    pub cursor: Cursor,
}

// Why `peek` or `look_ahead` refuses. It leaves the cursor.
#[derive(Clone, Copy)]
pub enum LookError {
    // Refusal 8: the cursor is unfit for this list.
    BadState,
    // Refusal 6, of `peek` alone: n is over queued + 1, where the Rust's subtraction underflows.
    PeekTooFar,
    // Refusal 7: a token must be queued, and no more may be.
    QueueFull,
    // Refusal 9: the record at this index is none that may be shown.
    BadRecord(usize),
}

// The token that comes after n others, if there is one; `Err` is the index of a record that may not be shown.
fn see(layout: Layout, list: &[u32], cursor: Cursor, n: usize) -> Result<Option<Row>, usize>
    requires { cursor.count ≤ room_in layout list.now }
    ensures { result ≡ seen_at (shown_in layout list.now cursor.count) cursor n }
{
    let i = cursor.ahead(n);
    if cursor.count <= i {
        return Ok(None);
    }
    let Some(row) = layout.shown(list, cursor.count, i) else {
        return Err(i);
    };
    Ok(Some(row))
}

// Hands out the next token; `None` where all are taken. Refused are an unfit cursor, then a record that may not be shown.
pub fn next(layout: Layout, list: &[u32], cursor: Cursor) -> Result<Option<Handed>, NextError>
    ensures { result ≡ next_of (room_in layout list.now) (shown_in layout list.now cursor.count) cursor }
{
    if !cursor.is_fit(layout.room(list)) {
        return Err(NextError::BadState);
    }
    let i = cursor.taken;
    if cursor.count <= i {
        return Ok(None);
    }
    let Some(row) = layout.shown(list, cursor.count, i) else {
        return Err(NextError::BadRecord(i));
    };
    Ok(Some(Handed {
        row,
        cursor: cursor.moved_on(),
    }))
}

// What was seen is shown.
fn show(cursor: Cursor, seen: Result<Option<Row>, usize>) -> Result<Look, LookError>
    ensures { result ≡ shown_by cursor seen }
{
    match seen {
        Ok(row) => Ok(Look { row, cursor }),
        Err(i) => Err(LookError::BadRecord(i)),
    }
}

// The token that comes after n others, where so many are queued.
fn see_queued(layout: Layout, list: &[u32], cursor: Cursor, n: usize) -> Result<Option<Row>, usize>
    requires { cursor.count ≤ room_in layout list.now }
    ensures { shown_by cursor result ≡ queued_at (shown_in layout list.now cursor.count) cursor n }
{
    if n < cursor.queued {
        return see(layout, list, cursor, n);
    }
    Ok(None)
}

// Queues one more token, if there is one and n is at most what is queued, and shows queued token n. Refused are an unfit cursor, then an n
// that is too far, then a full queue, then a record that may not be shown.
pub fn peek(layout: Layout, list: &[u32], cursor: Cursor, n: usize) -> Result<Look, LookError>
    ensures { result ≡ peek_of (room_in layout list.now) (shown_in layout list.now cursor.count) cursor n }
{
    if !cursor.is_fit(layout.room(list)) {
        return Err(LookError::BadState);
    }
    if cursor.queued + 1 < n {
        return Err(LookError::PeekTooFar);
    }
    if cursor.is_full(n) {
        return Err(LookError::QueueFull);
    }
    let after = cursor.queued_past(n);
    show(after, see_queued(layout, list, after, n))
}

// Shows the token that the (n+1)th following `next` would hand out, and queues what is lacking for it. Refused are an unfit cursor, then more
// tokens than may be queued, then a record that may not be shown.
pub fn look_ahead(layout: Layout, list: &[u32], cursor: Cursor, n: usize) -> Result<Look, LookError>
    ensures { result ≡ look_ahead_of (room_in layout list.now) (shown_in layout list.now cursor.count) cursor n }
{
    if !cursor.is_fit(layout.room(list)) {
        return Err(LookError::BadState);
    }
    if cursor.overfills(n) {
        return Err(LookError::QueueFull);
    }
    let after = cursor.queued_for(n);
    show(after, see(layout, list, cursor, n))
}
