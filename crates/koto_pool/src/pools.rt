// Adding a string to a pool, for C.
ghost use Rattle.koto_pool.specs.Pools.{AddedTold, AddStringIs};

use pool::{AddError, Added, answer};
use pool_lent::Entry;
use pool_rows::Counts;

// Writes an answer's numbers, and hands its refusal on.
fn tell(added: Result<Added, AddError>, index: &mut u32, place: &mut usize) -> u32
    ensures { AddedTold added index.new place.new result }
{
    *index = answer::index_of(added);
    *place = answer::place_of(added);
    answer::number_of(added)
}

// Adds a string to the pool that is lent: a row of bytes, a row of entries, and the counts of what is in use. Refused are a string that is
// wrong with 3 or that its end cuts with 15, then a pool that is unfit with 8, then a string that is not there and has no room with 13; each
// leaves the pool.
pub fn koto_add_string(
    string: &[u8],
    bytes: &mut [u8],
    entries: &mut [Entry],
    counts: &mut Counts,
    index: &mut u32,
    place: &mut usize,
) -> u32
    ensures { AddStringIs string.now bytes.old entries.old counts.old
        bytes.new entries.new counts.new index.new place.new result }
{
    let added = pool_lent::add_string(string, bytes, entries, counts);
    tell(added, index, place)
}
