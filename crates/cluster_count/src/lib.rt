// How many grapheme clusters (UAX #29, section 3.1.1) a text has, in one pass over its bytes. Each place is judged by all that stands left of
// it, as far back as the start of the text, by the rules of the crate `uax29` and the properties of a lent table.
#![tactic(auto)]

ghost use Rattle.std.specs.Prelude.{◌≡◌};
ghost use Rattle.base.specs.Pick.{pick};
ghost use Rattle.utf8.specs.Encode.{WellFormed};
ghost use Rattle.utf8.specs.Chars.{chars};
ghost use Rattle.property.specs.Table.{properties_at};
ghost use Rattle.fitness.specs.Fit.{FitTable};
ghost use Rattle.uax29.specs.State.{joined_by};
ghost use Rattle.cluster_count.specs.Count.{cluster_count};

use text::char_near;
use uax29::Left;

// How many clusters begin with the character of the properties p, behind what stands to the left: 1 or 0.
fn begins(edition: u32, left: Left, p: u32) -> usize
    ensures { result ≡ pick (joined_by edition left p) 0 1 }
{
    if uax29::is_joined(edition, left, p) {
        return 0;
    }
    1
}

// How many clusters the bytes of a text have, in edition 1 (without GB9c) or 2 (with it).
pub fn count_clusters(bytes: &[u8], table: &[u32], edition: u32) -> usize
    requires { WellFormed bytes.now × FitTable table.now }
    ensures { result ≡ cluster_count (properties_at table.now) edition (chars bytes.now) }
{
    if bytes.len() == 0 {
        return 0;
    }
    // A cluster begins with the first character, whatever it is (GB1).
    let first = char_near(bytes, table, 0, 0);
    let mut left = Left::new().pass(first.char.properties);
    let mut count = 1;
    let mut i = first.char.len;
    // The run of the last character that was looked up: most others are in it too.
    let mut near = first.run;
    while i < bytes.len() {
        let c = char_near(bytes, table, i, near);
        count += begins(edition, left, c.char.properties);
        left = left.pass(c.char.properties);
        i += c.char.len;
        near = c.run;
    }
    count
}
