// The pool's long forms: `pool` with a record for each entry in place of two numbers, and with the counts lent. The answers, the bytes and
// the numbers of the entries are those of the flat pool (constant_pool.rs, `add_string`).
#![tactic(auto)]

ghost use Rattle.std.specs.Prelude.{◌≡◌, true, ◌≤◌, ◌<◌, length, set};
ghost use Rattle.pool_rows.specs.Rows.{room_of, byte_room, fit_pool};
ghost use Rattle.pool.specs.Pool.{placed, bytes_after, counts_after, AddsToFit, AddsString};
ghost use Rattle.pool_lent.specs.Entries.{numbers_of, entry_of, AddsEntry};
ghost use Rattle.pool_lent.specs.Decided.{fine_at};

use pool::{AddError, Added};
use pool_rows::{Counts, Entries, find_string, runs_to};

// An entry: where its string starts in the row of bytes, and how long it is. C may hold a row of them.
#[repr(C)]
#[derive(Clone, Copy, Debug, PartialEq, Eq)]
pub struct Entry {
    pub start: u32,
    pub len: u32,
}

// A row of them, for the check and the search of `pool_rows`.
#[derive(Clone, Copy)]
struct Records<'a> {
    entries: &'a [Entry],
}

impl<'a> Entries for Records<'a> {
    ghost numbers = { λ s. numbers_of s.entries.now };

    fn start(&self, i: usize) -> u32 {
        self.entries[i].start
    }

    fn len(&self, i: usize) -> u32 {
        self.entries[i].len
    }
}

// ---- on bytes and numbers

// The answer for a well-formed string in a fit pool with a row of so many entries, where the search found it at an index. A new string's
// bytes are copied in.
fn add_to_fit(
    string: &[u8],
    bytes: &mut [u8],
    entries: usize,
    counts: Counts,
    found: usize,
) -> Result<Added, AddError>
    requires { counts.bytes ≤ byte_room bytes.old }
    ensures { (result ≡ placed (length string.now) found counts (room_of entries) (byte_room bytes.old))
        × (bytes.new ≡ bytes_after string.now counts result bytes.old) }
{
    let entry_room = pool_rows::room_of(entries);
    let byte_room = pool_rows::room_of(bytes.len());
    let answer = pool::place(string.len(), found, counts, entry_room, byte_room);
    if !pool::is_new(counts, answer) {
        return answer;
    }
    pool::copy_in(string, bytes, counts.bytes as usize);
    answer
}

// Whether nothing is refused before an addition, for a pool that is fit or not.
fn is_fine(string: &[u8], fit: bool) -> bool
    ensures { result ≡ fine_at string.now fit }
{
    match utf8::check_utf8(string) {
        Err(_) => false,
        Ok(()) => fit,
    }
}

// The counts after an answer: a refusal leaves them.
fn counts_after(counts: Counts, answer: Result<Added, AddError>) -> Counts
    ensures { result ≡ counts_after counts answer }
{
    match answer {
        Ok(added) => added.counts,
        Err(_) => counts,
    }
}

// ---- over entries, and lent counts

// Writes entry n.
fn put_entry(entries: &mut [Entry], n: usize, start: u32, len: u32)
    requires { n < length entries.old }
    ensures { entries.new ≡ set entries.old n (entry_of start len) }
{
    entries[n] = Entry { start, len };
}

// Whether a pool is fit: no count exceeds its row, and the entries in use run end to end from byte 0 to the byte count.
pub fn is_pool_fit(bytes: &[u8], entries: &[Entry], counts: Counts) -> bool
    ensures { result ≡ fit_pool bytes.now (numbers_of entries.now) counts }
{
    if pool_rows::room_of(entries.len()) < counts.entries {
        return false;
    }
    if pool_rows::room_of(bytes.len()) < counts.bytes {
        return false;
    }
    runs_to(
        &Records { entries },
        counts.entries as usize,
        counts.bytes as usize,
    )
}

// Adds a well-formed string to a fit pool, and asks neither: whoever knows both calls this. It answers and writes as `pool::add_to_fit` does.
pub fn add_to_fit_row(
    string: &[u8],
    bytes: &mut [u8],
    entries: &mut [Entry],
    counts: Counts,
) -> Result<Added, AddError>
    requires { fit_pool bytes.old (numbers_of entries.old) counts ≡ true }
    ensures { AddsToFit string.now counts bytes.old (numbers_of entries.old)
        bytes.new (numbers_of entries.new) result }
{
    let n = counts.entries as usize;
    let found = find_string(string, bytes, &Records { entries }, n);
    let answer = add_to_fit(string, bytes, entries.len(), counts, found);
    if pool::is_new(counts, answer) {
        put_entry(entries, n, counts.bytes, string.len() as u32);
    }
    answer
}

// Adds a string to a pool: its index, and the counts after it. It refuses and writes as `pool::add_string` does.
pub fn add_row(
    string: &[u8],
    bytes: &mut [u8],
    entries: &mut [Entry],
    counts: Counts,
) -> Result<Added, AddError>
    ensures { AddsString string.now counts bytes.old (numbers_of entries.old)
        bytes.new (numbers_of entries.new) result }
{
    let fit = is_pool_fit(bytes, entries, counts);
    if is_fine(string, fit) {
        return add_to_fit_row(string, bytes, entries, counts);
    }
    Err(pool::refusal_of(string))
}

// Adds a string to a pool whose counts are lent: they are those after the addition.
pub fn add_string(
    string: &[u8],
    bytes: &mut [u8],
    entries: &mut [Entry],
    counts: &mut Counts,
) -> Result<Added, AddError>
    ensures { AddsEntry string.now counts.old bytes.old entries.old
        bytes.new entries.new counts.new result }
{
    let answer = add_row(string, bytes, entries, *counts);
    *counts = counts_after(*counts, answer);
    answer
}
