// A text between fills (document 02, C-11): how many fills a text of so many clusters needs, and writing them around it into a row of bytes.
// An alignment and a width come as the numbers that the parse of a format string tells. It knows no clusters, no UTF-8 and no tables.
#![tactic(auto)]

ghost use Rattle.std.specs.Prelude.{◌≡◌, true, ◌+◌, ◌*◌, ◌≤◌, length};
ghost use Rattle.pool.specs.Pool.{written};
ghost use Rattle.fills.specs.Pad.{is_width, fills, leading, repeated, filled};

use pool::copy_in;

// The number that stands for no width.
pub const NONE: u64 = 18446744073709551615;

// The numbers of an alignment. Default, 0, and Left, 1, put all fills behind the text.
const CENTER: u64 = 2;

pub const RIGHT: u64 = 3;

// A width that is given has 32 bits, as in a format string.
const WIDTH_MOST: u64 = 4294967295;

// Whether a number is a width, or says that there is none.
pub fn is_width(width: u64) -> bool
    ensures { result ≡ is_width width }
{
    width == NONE || width <= WIDTH_MOST
}

// How many fills a text of so many clusters needs.
pub fn fills_of(width: u64, clusters: usize) -> usize
    requires { is_width width ≡ true }
    ensures { (result ≡ fills width clusters) × (result ≤ 4294967295) }
{
    if width == NONE {
        return 0;
    }
    (width as usize).saturating_sub(clusters)
}

// How many of n fills stand before the text.
fn leading_of(alignment: u64, n: usize) -> usize
    ensures { result ≡ leading alignment n }
{
    match alignment {
        CENTER => n / 2,
        RIGHT => n,
        _ => 0,
    }
}

// Writes the fill so many times into a row of bytes, from index `at` on: the index behind them.
fn put_fill(buffer: &mut [u8], at: usize, fill: &[u8], times: usize) -> usize
    requires { at + times * length fill.now ≤ length buffer.old }
    ensures { (result ≡ at + times * length fill.now)
        × (buffer.new ≡ written buffer.old at (repeated times fill.now)) }
{
    let mut end = at;
    for _ in 0..times {
        copy_in(fill, buffer, end);
        end += fill.len();
    }
    end
}

// Writes the text between n fills to the start of a row of bytes: how many bytes they have.
pub fn put_padded(buffer: &mut [u8], text: &[u8], fill: &[u8], alignment: u64, n: usize) -> usize
    requires { length text.now + n * length fill.now ≤ length buffer.old }
    ensures { (result ≡ length text.now + n * length fill.now)
        × (buffer.new ≡ written buffer.old 0 (filled alignment n fill.now text.now)) }
{
    let lead = leading_of(alignment, n);
    let start = put_fill(buffer, 0, fill, lead);
    copy_in(text, buffer, start);
    let end = start + text.len();
    put_fill(buffer, end, fill, n - lead)
}
