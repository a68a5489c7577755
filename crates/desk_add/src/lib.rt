// An addition for a desk (document 02, C-12). A string that is there costs nobody; a new one is charged to the desk that adds it, and owned by it.
//
// A desk may fill the pool up to what is left of the other's guarantee. So an addition for a desk is an addition to that much of the rows
// (`pool::add_string`), and what the other desk holds and is owed does not change with it.
#![tactic(auto)]

ghost use Rattle.std.specs.Prelude.{◌≡◌, ◌+◌, ◌≤◌, ◌<◌};
ghost use Rattle.desks.specs.Desks.{shared, desk_of};
ghost use Rattle.desk_add.specs.Add.{charged_more, with_more, AddsFor};

use desks::{Desk, Desks, Which};
use pool::{AddError, Added};
use pool_rows::Counts;

// What adding a string for a desk answers, with the counts and both desks after it.
#[derive(Clone, Copy, Debug, PartialEq, Eq)]
pub struct AddedFor {
    pub added: Result<Added, AddError>,
    pub counts: Counts,
    pub desks: Desks,
}

// A desk with one entry more, of so many bytes.
fn charge(desk: Desk, long: u32) -> Desk
    requires { (desk.charged.entries < 4294967295) × (desk.charged.bytes + long ≤ 4294967295) }
    ensures { result ≡ charged_more desk long }
{
    let guaranteed = desk.guaranteed;
    Desk {
        guaranteed,
        charged: desks::one_more(desk.charged, long),
    }
}

// Both desks, with one entry more for one of them.
fn charge_to(which: Which, desks: Desks, long: u32) -> Desks
    requires { ((desk_of which desks).charged.entries < 4294967295) × ((desk_of which desks).charged.bytes + long ≤ 4294967295) }
    ensures { result ≡ with_more which desks long }
{
    let first = desks.first;
    let second = desks.second;
    match which {
        Which::First => Desks {
            first: charge(first, long),
            second,
        },
        Which::Second => Desks {
            first,
            second: charge(second, long),
        },
    }
}

// Adds a string for a desk to a pool: its index, the counts and both desks after it. Refused are a string that is wrong or cut, then a pool or
// desks that are unfit, then a string that is not there and would pass the common room and what is left of the desk's guarantee. Only a new
// string writes: its bytes, its entry and its owner behind those in use.
pub fn add_string(
    string: &[u8],
    bytes: &mut [u8],
    entries: &mut [u32],
    owners: &mut [u8],
    counts: Counts,
    desks: Desks,
    which: Which,
) -> AddedFor
    ensures { AddsFor string.now which
        (shared bytes.old entries.old owners.old counts desks)
        bytes.new entries.new owners.new result }
{
    if !desks::is_fit(bytes, entries, owners, counts, desks) {
        return AddedFor {
            added: Err(pool::refusal_of(string)),
            counts,
            desks,
        };
    }
    let entry_room = pool_rows::room_of(entries.len() / 2);
    let byte_room = pool_rows::room_of(bytes.len());
    let room = desks::room_for(entry_room, byte_room, which, desks);
    let entry_end = 2 * room.entries as usize;
    let byte_end = room.bytes as usize;
    let added = pool::add_string(
        string,
        &mut bytes[..byte_end],
        &mut entries[..entry_end],
        counts,
    );
    if !pool::is_new(counts, added) {
        return AddedFor {
            added,
            counts,
            desks,
        };
    }
    owners[counts.entries as usize] = desks::owner_of(which);
    let long = string.len() as u32;
    AddedFor {
        added,
        counts: desks::one_more(counts, long),
        desks: charge_to(which, desks, long),
    }
}
