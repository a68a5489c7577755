// How many of eight bytes are parts of a name (letters, digits and the underscore), by the one number that they are read as: no byte is looked at by
// itself, and nothing branches. It knows no keywords, no lists and no states.
//
// The sums are of seven bits a byte, so none carries into the next; the highest bit of a sum of two tells whether a byte is at least so large, and the
// difference of two such bits whether it is in a range.
#![tactic(auto)]

ghost use Rattle.std.specs.Prelude.{◌≡◌, ◌+◌, ◌≤◌, length};
ghost use Rattle.fitness.specs.Ascii.{is_name_part};
ghost use Rattle.skip.specs.Skip.{Counts};
ghost use Rattle.name_words.specs.Outs.{outs_of};

use fast_keywords::word8;

// The highest bit of each of eight bytes that is no part of a name.
fn outs(x: u64) -> u64
    ensures { result ≡ outs_of x }
{
    let low = x & 0x7f7f_7f7f_7f7f_7f7f;
    let small = low | 0x2020_2020_2020_2020;
    let letters = (small + 0x1f1f_1f1f_1f1f_1f1f) ^ (small + 0x0505_0505_0505_0505);
    let digits = (low + 0x5050_5050_5050_5050) ^ (low + 0x4646_4646_4646_4646);
    let underscores = (low + 0x2121_2121_2121_2121) ^ (low + 0x2020_2020_2020_2020);
    let parts = letters ^ (digits ^ underscores);
    ((parts ^ 0x8080_8080_8080_8080) | x) & 0x8080_8080_8080_8080
}

// How many of the eight bytes from `at` on are parts of a name before the first that is none.
pub fn count8(source: &[u8], at: usize) -> usize
    requires { at + 8 ≤ length source.now }
    ensures { Counts is_name_part source.now at 8 8 result }
{
    (u64::trailing_zeros(outs(word8(source, at))) / 8) as usize
}
