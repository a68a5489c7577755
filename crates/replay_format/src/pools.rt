// A pool of a line of recorded answers, `COUNT` and each string in hex, put into rows of marks; and whether the rows and counts that a parse
// leaves are those of a line.
ghost use Rattle.std.specs.Prelude.{◌≡◌, true, length};

use lines::Fields;
use pool_rows::Counts;

// What stands in the rows before. No string has such a byte, and none is so long.
const BYTE_MARK: u8 = 0xff;

const NUMBER_MARK: u32 = 0xa5a5_a5a5;

// Marks, with room for more bytes than any case has. Their length is what lending them as a slice asks.
pub fn byte_row() -> [u8; 1024]
    ensures { 1024 ≡ length result }
{
    [BYTE_MARK; 1024]
}

// The same for 128 entries.
pub fn entry_row() -> [u32; 256]
    ensures { 256 ≡ length result }
{
    [NUMBER_MARK; 256]
}

// Puts a string in hex behind those in the rows, as far as there is room for its bytes, and answers how much is in them then. Where no entry is
// free, nothing is put. A length fits 32 bits, as every length here does.
fn load_string(word: &[u8], bytes: &mut [u8], entries: &mut [u32], counts: Counts) -> Counts {
    let n = counts.entries as usize;
    let start = counts.bytes as usize;
    if entries.len() / 2 <= n || bytes.len() < start {
        return counts;
    }
    let string = lines::hex(word, &mut bytes[start..]);
    let long = u32::try_from(string.len()).unwrap_or(0);
    entries[2 * n] = counts.bytes;
    entries[2 * n + 1] = long;
    Counts {
        entries: counts.entries.wrapping_add(1),
        bytes: counts.bytes.wrapping_add(long),
    }
}

// Puts the pool in the next fields into rows that have none, which stay as long as they are, and answers how much that is.
pub fn load(fields: &mut Fields, bytes: &mut [u8], entries: &mut [u32]) -> Counts
    ensures { length bytes.new ≡ length bytes.old }
{
    let mut counts = Counts {
        entries: 0,
        bytes: 0,
    };
    for _ in 0..fields.number() {
        counts = load_string(fields.word(), bytes, entries, counts);
    }
    counts
}

// Whether the pool in the next fields, put into rows of marks, is the pool in these rows.
pub fn agrees(mut fields: Fields, bytes: &[u8], entries: &[u32], counts: Counts) -> bool
    ensures { result ≡ true → 1024 ≡ length bytes.now }
{
    let mut byte_row = byte_row();
    let mut entry_row = entry_row();
    let want = load(&mut fields, &mut byte_row, &mut entry_row);
    counts.entries == want.entries
        && counts.bytes == want.bytes
        && bytes == &byte_row[..]
        && entries == &entry_row[..]
}
