// The string side of koto's constant pool (constant_pool.rs, `add_string`): equal strings get equal indices, counted from 0 in the order in
// which they were first added. The pool is lent by the caller, as the rows of the crate `pool_rows`.
// Left out: numbers, the hash, `ConstantEntry`. What is decided is decided over numbers and rows of numbers, and room goes in as numbers.
#![tactic(auto)]

pub mod answer;

ghost use Rattle.std.specs.Prelude.{◌≡◌, true, ◌+◌, ◌*◌, ◌≤◌, ◌<◌, length};
ghost use Rattle.pool_rows.specs.Rows.{fit_pool};
ghost use Rattle.pool.specs.Pool.{of_utf8, placed, refusal_at, is_new, written, entered, AddsToFit, AddsString};

use pool_rows::{Counts, Flat, find_string, is_pool_fit, room_of};
use utf8::Utf8Error;

// What adding a string answers where nothing is refused: the string's index, and the counts after the addition. Those are as before where the
// string was there.
#[derive(Clone, Copy, Debug, PartialEq, Eq)]
pub struct Added {
    pub index: u32,
    pub counts: Counts,
}

// What an addition is refused for.
#[derive(Clone, Copy, Debug, PartialEq, Eq)]
pub enum AddError {
    // Refusal 3: the string's bytes are wrong from this offset on.
    BadUtf8(usize),
    // Refusal 15: the string's end cuts the character that begins at this offset.
    CutUtf8(usize),
    // Refusal 8: the pool is unfit. Its place is 0.
    BadState,
    // Refusal 13: the string is not there, and no entry or too few bytes are free. Its place is 0.
    PoolFull,
}

impl From<Utf8Error> for AddError {
    ghost from_gives = { λ e r. r ≡ of_utf8 e };

    fn from(e: Utf8Error) -> AddError {
        match e {
            Utf8Error::BadAt(i) => AddError::BadUtf8(i),
            Utf8Error::CutAt(i) => AddError::CutUtf8(i),
        }
    }
}

// The answer in a fit pool that has room for so many entries and bytes, for a string of so many bytes that the search found at an index, or
// at the count of entries where it did not.
pub fn place(
    long: usize,
    found: usize,
    counts: Counts,
    entry_room: u32,
    byte_room: u32,
) -> Result<Added, AddError>
    requires { counts.bytes ≤ byte_room }
    ensures { result ≡ placed long found counts entry_room byte_room }
{
    let n = counts.entries;
    let used = counts.bytes;
    if found < n as usize {
        return Ok(Added {
            index: found as u32,
            counts,
        });
    }
    if entry_room <= n {
        return Err(AddError::PoolFull);
    }
    if ((byte_room - used) as usize) < long {
        return Err(AddError::PoolFull);
    }
    Ok(Added {
        index: n,
        counts: Counts {
            entries: n + 1,
            bytes: used + long as u32,
        },
    })
}

// Whether an answer hands out an index that no string had before.
pub fn is_new(counts: Counts, answer: Result<Added, AddError>) -> bool
    ensures { result ≡ is_new counts answer }
{
    match answer {
        Ok(added) => added.index == counts.entries,
        Err(_) => false,
    }
}

// Copies the string into a row of bytes, from index `at` on. By a loop: `copy_from_slice` would have the archive for C need memmove, and it needs memcpy
// and memset alone.
pub fn copy_in(string: &[u8], bytes: &mut [u8], at: usize)
    requires { at + length string.now ≤ length bytes.old }
    ensures { bytes.new ≡ written bytes.old at string.now }
{
    for i in 0..string.len() {
        bytes[at + i] = string[i];
    }
}

// Writes entry n.
fn put_entry(entries: &mut [u32], n: usize, start: u32, long: u32)
    requires { 2 * n + 1 < length entries.old }
    ensures { entries.new ≡ entered entries.old n start long }
{
    entries[2 * n] = start;
    entries[2 * n + 1] = long;
}

// Adds a well-formed string to a fit pool, and asks neither: whoever knows both calls this. Only where it was not there, and has room, is anything written.
pub fn add_to_fit(
    string: &[u8],
    bytes: &mut [u8],
    entries: &mut [u32],
    counts: Counts,
) -> Result<Added, AddError>
    requires { fit_pool bytes.old entries.old counts ≡ true }
    ensures { AddsToFit string.now counts bytes.old entries.old
        bytes.new entries.new result }
{
    let n = counts.entries as usize;
    let used = counts.bytes;
    let found = find_string(string, bytes, &Flat { numbers: entries }, n);
    let entry_room = room_of(entries.len() / 2);
    let byte_room = room_of(bytes.len());
    let answer = place(string.len(), found, counts, entry_room, byte_room);
    if !is_new(counts, answer) {
        return answer;
    }
    copy_in(string, bytes, used as usize);
    put_entry(entries, n, used, string.len() as u32);
    answer
}

// What is refused before an addition, where something is: the string's bytes with 3 or 15, or else the pool with 8.
pub fn refusal_of(string: &[u8]) -> AddError
    ensures { result ≡ refusal_at string.now }
{
    match utf8::check_utf8(string) {
        Err(error) => AddError::from(error),
        Ok(()) => AddError::BadState,
    }
}

// Adds a string to a pool: its index, and the counts after it. Refused are a string that is wrong or cut, then a pool that is unfit, then a
// string that is not there where no entry or too few bytes are free. Only a new string writes: its bytes behind those in use, and its entry
// behind those in use.
pub fn add_string(
    string: &[u8],
    bytes: &mut [u8],
    entries: &mut [u32],
    counts: Counts,
) -> Result<Added, AddError>
    ensures { AddsString string.now counts bytes.old entries.old
        bytes.new entries.new result }
{
    utf8::check_utf8(string)?;
    if !is_pool_fit(bytes, entries, counts) {
        return Err(AddError::BadState);
    }
    add_to_fit(string, bytes, entries, counts)
}
