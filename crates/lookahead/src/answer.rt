// What `next` and `peek` answer, number by number, for whoever prints them or hands them on.
ghost use Rattle.std.specs.Prelude.{◌≡◌};
ghost use Rattle.lookahead.specs.Next as next;
ghost use Rattle.lookahead.specs.Peek as peek;
ghost use Rattle.lookahead.specs.Told.{record_numbers, shown_with, not_shown, given_told, peeked_told};

use crate::{Cursor, Handed, Look, LookError, NextError};
use base::refusals::{BAD_RECORD, BAD_STATE, NO_REFUSAL, PEEK_TOO_FAR, QUEUE_FULL};
use rows::Row;

// ---- a record

// Writes a record's ten numbers.
pub fn put_record(words: &mut [u32; 10], row: Row)
    ensures { words.new ≡ record_numbers row }
{
    *words = [
        row.kind,
        row.detail,
        row.start,
        row.end,
        row.start_line,
        row.start_column,
        row.end_line,
        row.end_column,
        row.indent,
        row.depth,
    ];
}

// ---- what is told

// What an answer tells beside its refusal.
#[derive(Clone, Copy)]
pub struct Told {
    // 1 where a token is shown.
    pub shown: u32,
    // Its record; zeros where none is.
    pub row: Row,
    // How many tokens are taken and queued after it.
    pub taken: usize,
    pub queued: usize,
}

fn shown_with(row: Row, after: Cursor) -> Told
    ensures { result ≡ shown_with row after }
{
    Told {
        shown: 1,
        row,
        taken: after.taken,
        queued: after.queued,
    }
}

fn not_shown(taken: usize, queued: usize) -> Told
    ensures { result ≡ not_shown taken queued }
{
    Told {
        shown: 0,
        row: Row {
            kind: 0,
            detail: 0,
            start: 0,
            end: 0,
            start_line: 0,
            start_column: 0,
            end_line: 0,
            end_column: 0,
            indent: 0,
            depth: 0,
        },
        taken,
        queued,
    }
}

// ---- `next`

// The number of a refusal; 0 where there is none.
pub fn given_number(given: Result<Option<Handed>, NextError>) -> u32
    ensures { result ≡ next.number_of given }
{
    match given {
        Ok(_) => NO_REFUSAL,
        Err(NextError::BadState) => BAD_STATE,
        Err(NextError::BadRecord(_)) => BAD_RECORD,
    }
}

// Its place; 0 where there is none.
pub fn given_place(given: Result<Option<Handed>, NextError>) -> usize
    ensures { result ≡ next.place_of given }
{
    match given {
        Err(NextError::BadRecord(i)) => i,
        _ => 0,
    }
}

// What it tells, where so many tokens were taken and queued before it.
pub fn given_told(given: Result<Option<Handed>, NextError>, taken: usize, queued: usize) -> Told
    ensures { result ≡ given_told given taken queued }
{
    match given {
        Ok(Some(handed)) => shown_with(handed.row, handed.cursor),
        _ => not_shown(taken, queued),
    }
}

// ---- `peek`

// The number of a refusal; 0 where there is none.
pub fn peeked_number(peeked: Result<Look, LookError>) -> u32
    ensures { result ≡ peek.number_of peeked }
{
    match peeked {
        Ok(_) => NO_REFUSAL,
        Err(LookError::BadState) => BAD_STATE,
        Err(LookError::PeekTooFar) => PEEK_TOO_FAR,
        Err(LookError::QueueFull) => QUEUE_FULL,
        Err(LookError::BadRecord(_)) => BAD_RECORD,
    }
}

// Its place; 0 where there is none.
pub fn peeked_place(peeked: Result<Look, LookError>) -> usize
    ensures { result ≡ peek.place_of peeked }
{
    match peeked {
        Err(LookError::BadRecord(i)) => i,
        _ => 0,
    }
}

// What it tells, where so many tokens were taken and queued before it.
pub fn peeked_told(peeked: Result<Look, LookError>, taken: usize, queued: usize) -> Told
    ensures { result ≡ peeked_told peeked taken queued }
{
    match peeked {
        Ok(look) => match look.row {
            Some(row) => shown_with(row, look.cursor),
            None => not_shown(look.cursor.taken, look.cursor.queued),
        },
        Err(_) => not_shown(taken, queued),
    }
}
