// The first grapheme cluster (UAX #29, section 3.1.1) of some bytes, by the rules of the crate `uax29` and the properties of a lent table.
#![tactic(auto)]

pub mod answer;

ghost use Rattle.std.specs.Prelude.{◌≡◌, drop};
ghost use Rattle.utf8.specs.Encode.{WellFormed};
ghost use Rattle.utf8.specs.Chars.{chars};
ghost use Rattle.property.specs.Table.{properties_at, Rises};
ghost use Rattle.cluster.specs.First.{first_end};
ghost use Rattle.cluster.specs.Call.{first_cluster};

use input::{Refusal, SOURCE_MOST};
use uax29::Left;

// The byte after the first cluster of what stands from `at` on, in edition 1 (without GB9c) or 2 (with it); `at` itself where nothing does.
pub fn cluster_end(source: &[u8], table: &[u32], edition: u32, at: usize) -> usize
    requires { WellFormed (drop at source.now) × Rises table.now }
    ensures { result ≡ first_end (properties_at table.now) edition at (chars (drop at source.now)) }
{
    let Ok((code, len)) = utf8::read_char(source, at) else {
        return at;
    };
    let mut left = Left::new().pass(property::lookup(table, code));
    let mut i = at + len;
    while i < source.len() {
        let Ok((code, len)) = utf8::read_char(source, i) else {
            return i;
        };
        let p = property::lookup(table, code);
        if !uax29::is_joined(edition, left, p) {
            return i;
        }
        left = left.pass(p);
        i += len;
    }
    i
}

// The length in bytes of the first cluster of a source, in edition 1 (without GB9c) or 2 (with it); no bytes give 0. Refused are a source that
// is too long, then a number that is no edition, then a table that is unfit, with the place of its fault, then bytes that are wrong or cut,
// with their offset.
pub fn first_cluster(source: &[u8], table: &[u32], edition: u32) -> Result<usize, Refusal>
    ensures { result ≡ first_cluster source.now table.now edition }
{
    input::check_input(source, table, edition, SOURCE_MOST)?;
    Ok(cluster_end(source, table, edition, 0))
}
