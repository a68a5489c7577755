// Adding a string for a desk, for C.
ghost use Rattle.desks.specs.Desks.{shared};
ghost use Rattle.koto_desks.specs.Words.{lent_by};
ghost use Rattle.koto_desks.specs.Strings.{AddedFrom, AddStringIs};

use crate::words;
use desk_add::AddedFor;
use desks::Desks;
use pool::answer;
use pool_rows::Counts;

// The addition for the desk of a number. A number that is none of a desk is refused as an unfit state is.
fn add_from(
    desk: u32,
    string: &[u8],
    bytes: &mut [u8],
    entries: &mut [u32],
    owners: &mut [u8],
    counts: Counts,
    desks: Desks,
) -> AddedFor
    ensures { AddedFrom desk string.now
        (shared bytes.old entries.old owners.old counts desks)
        bytes.new entries.new owners.new result }
{
    if words::DESKS <= desk {
        return AddedFor {
            added: Err(pool::refusal_of(string)),
            counts,
            desks,
        };
    }
    let which = words::which_of(desk);
    desk_add::add_string(string, bytes, entries, owners, counts, desks, which)
}

// Adds a string for a desk to the pool that is lent. Refused are a string that is wrong with 3 or that its end cuts with 15, then a number that
// is no desk, or a pool or desks that are unfit, with 8, then a string that is not there and has no room for the desk with 13; each leaves
// everything.
pub fn koto_desk_add_string_flat(
    desk: u32,
    string: &[u8],
    bytes: &mut [u8],
    entries: &mut [u32],
    owners: &mut [u8],
    counts: &mut [u32; 2],
    desks: &mut [u32; 8],
    index: &mut u32,
    place: &mut usize,
) -> u32
    ensures { AddStringIs desk string.now
        (lent_by bytes.old entries.old owners.old counts.old desks.old)
        bytes.new entries.new owners.new counts.new desks.new
        index.new place.new result }
{
    let had = words::counts_in(counts);
    let both = words::desks_in(desks);
    let answered = add_from(desk, string, bytes, entries, owners, had, both);
    let added = answered.added;
    *counts = words::count_words(answered.counts);
    *desks = words::desk_words(answered.desks);
    *index = answer::index_of(added);
    *place = answer::place_of(added);
    answer::number_of(added)
}
