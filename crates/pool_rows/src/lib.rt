// The rows of a pool, which its caller lends: a row for the bytes of its strings, end to end, a row of two numbers for each string, where it
// starts and how long it is, and two counts of what is in use. Here is which of them are fit, how much room they have, and the search for a
// string, which stands for the `HashMap` of constant_pool.rs. Nothing is added here.
#![tactic(auto)]

ghost use Rattle.std.specs.Prelude.{◌≡◌, ℕ, List, ◌+◌, ◌*◌, ◌<◌, ◌≤◌, length, take, drop};
ghost use Rattle.pool_rows.specs.Rows.{start_of, length_of, same, index_of, strings_of, room_of, runs_to, Within, fit_in, fit_pool};

// So many first bytes of two strings are compared one by one, without a call: where strings of a length differ, they mostly do in these.
const NEAR: usize = 16;

// How many entries and how many bytes of a pool are in use. C may hold it.
#[repr(C)]
#[derive(Clone, Copy, Debug, PartialEq, Eq)]
pub struct Counts {
    pub entries: u32,
    pub bytes: u32,
}

// The numbers of a pool have 32 bits, so it counts at most this much of a row.
const ROOM_MOST: u32 = 4294967295;

// The room of a row for so many things.
pub fn room_of(most: usize) -> u32
    ensures { result ≡ room_of most }
{
    if (ROOM_MOST as usize) < most {
        return ROOM_MOST;
    }
    most as u32
}

// A row of entries, in whatever form: where the string of each starts, and how long it is.
pub trait Entries {
    ghost numbers: { Self → List ℕ };

    fn start(&self, i: usize) -> u32
        requires { 2 * i + 1 < length (numbers self.now) }
        ensures { result ≡ start_of (numbers self.now) i };

    fn len(&self, i: usize) -> u32
        requires { 2 * i + 1 < length (numbers self.now) }
        ensures { result ≡ length_of (numbers self.now) i };
}

// The flat row: two numbers for each entry.
#[derive(Clone, Copy)]
pub struct Flat<'a> {
    pub numbers: &'a [u32],
}

impl<'a> Entries for Flat<'a> {
    ghost numbers = { λ s. s.numbers.now };

    fn start(&self, i: usize) -> u32 {
        self.numbers[2 * i]
    }

    fn len(&self, i: usize) -> u32 {
        self.numbers[2 * i + 1]
    }
}

// Whether the first n entries run end to end from byte 0 to the byte `end`.
pub fn runs_to<E: Entries>(entries: &E, n: usize, end: usize) -> bool
    requires { 2 * n ≤ length (E.numbers entries.now) }
    ensures { result ≡ runs_to (E.numbers entries.now) 0 n 0 end }
{
    let mut next = 0;
    for i in 0..n {
        let start = entries.start(i) as usize;
        if start != next {
            return false;
        }
        next = start + entries.len(i) as usize;
    }
    next == end
}

// Whether a pool is fit that has room for so many entries and bytes.
fn is_fit(entries: &[u32], counts: Counts, entry_room: u32, byte_room: u32) -> bool
    requires { 2 * entry_room ≤ length entries.now }
    ensures { result ≡ fit_in entries.now counts entry_room byte_room }
{
    if entry_room < counts.entries {
        return false;
    }
    if byte_room < counts.bytes {
        return false;
    }
    runs_to(
        &Flat { numbers: entries },
        counts.entries as usize,
        counts.bytes as usize,
    )
}

// Whether a pool is fit: no count exceeds its row, and the entries in use run end to end from byte 0 to the byte count.
pub fn is_pool_fit(bytes: &[u8], entries: &[u32], counts: Counts) -> bool
    ensures { result ≡ fit_pool bytes.now entries.now counts }
{
    let entry_room = room_of(entries.len() / 2);
    let byte_room = room_of(bytes.len());
    is_fit(entries, counts, entry_room, byte_room)
}

// Whether two rows of bytes are the same.
pub fn is_same(a: &[u8], b: &[u8]) -> bool
    ensures { result ≡ same a.now b.now }
{
    if a.len() != b.len() {
        return false;
    }
    let near = a.len().min(NEAR);
    for i in 0..near {
        if a[i] != b[i] {
            return false;
        }
    }
    a[near..] == b[near..]
}

// Whether the string of an entry is this one.
fn is_at(string: &[u8], bytes: &[u8], start: u32, long: u32) -> bool
    requires { start + long ≤ length bytes.now }
    ensures { result ≡ same (take long (drop start bytes.now)) string.now }
{
    let first = start as usize;
    let end = first + long as usize;
    is_same(&bytes[first..end], string)
}

// The index of the first of the n entries that has this string; n where none has it.
pub fn find_string<E: Entries>(string: &[u8], bytes: &[u8], entries: &E, n: usize) -> usize
    requires { Within (E.numbers entries.now) n (length bytes.now) × (2 * n ≤ length (E.numbers entries.now)) }
    ensures { result ≡ index_of string.now (strings_of bytes.now (E.numbers entries.now) n) }
{
    for i in 0..n {
        if is_at(string, bytes, entries.start(i), entries.len(i)) {
            return i;
        }
    }
    n
}
