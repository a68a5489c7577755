// Two desks, one pool (document 02, C-12). Each desk has a guaranteed number of entries and bytes; the rest of the pool is common. What a desk is
// charged is what its entries hold, and a row of owners keeps which desk added an entry first.
//
// Here is which states are fit, and how far a desk may fill the pool: up to what is left of the other's guarantee. Nothing is added here.
#![tactic(auto)]

ghost use Rattle.std.specs.Prelude.{◌≡◌, ◌+◌, ◌*◌, ◌-◌, ◌≤◌, ◌<◌, length, eqb};
ghost use Rattle.base.specs.Pick.{pick};
ghost use Rattle.pool.specs.Pool.{one_more};
ghost use Rattle.desks.specs.Desks.{shared, desk_of, other, owner_of, held_by, shared_out, entries_shared, bytes_shared, fit_desks, room_for};
ghost use Rattle.desks.specs.SpentLaws.{spent};

use pool_rows::Counts;

// What a desk is guaranteed, and what it is charged.
#[derive(Clone, Copy, Debug, PartialEq, Eq)]
pub struct Desk {
    pub guaranteed: Counts,
    pub charged: Counts,
}

// Both desks.
#[derive(Clone, Copy, Debug, PartialEq, Eq)]
pub struct Desks {
    pub first: Desk,
    pub second: Desk,
}

// One of the two.
#[derive(Clone, Copy, Debug, PartialEq, Eq)]
pub enum Which {
    First,
    Second,
}

// ---- charges

// The number of a desk in the row of owners.
pub fn owner_of(which: Which) -> u8
    ensures { result ≡ owner_of which }
{
    match which {
        Which::First => 0,
        Which::Second => 1,
    }
}

// Counts with one entry more, of so many bytes.
pub fn one_more(counts: Counts, long: u32) -> Counts
    requires { (counts.entries < 4294967295) × (counts.bytes + long ≤ 4294967295) }
    ensures { result ≡ one_more counts long }
{
    Counts {
        entries: counts.entries + 1,
        bytes: counts.bytes + long,
    }
}

// What an owner holds, with one entry more of so many bytes that somebody owns.
fn one_held(held: Counts, its: u8, owner: u8, long: u32) -> Counts
    requires { (held.entries < 4294967295) × (held.bytes + long ≤ 4294967295) }
    ensures { result ≡ pick (eqb its owner) (one_more held long) held }
{
    if its == owner {
        return one_more(held, long);
    }
    held
}

// What the first n entries hold that an owner added.
pub fn held_by(entries: &[u32], owners: &[u8], owner: u8, n: usize) -> Counts
    requires { (2 * n ≤ length entries.now) × (n ≤ length owners.now) × (n ≤ 4294967295) × (spent entries.now n ≤ 4294967295) }
    ensures { result ≡ held_by entries.now owners.now owner n }
{
    let mut held = Counts {
        entries: 0,
        bytes: 0,
    };
    for i in 0..n {
        held = one_held(held, owners[i], owner, entries[2 * i + 1]);
    }
    held
}

// ---- room

// Whether two desks with guarantees g and h and charges c and d share a room of which so much is in use.
fn is_shared_out(room: u32, count: u32, g: u32, c: u32, h: u32, d: u32) -> bool
    ensures { result ≡ shared_out room count g c h d }
{
    let owed = g as u64 + h as u64;
    if (room as u64) < owed {
        return false;
    }
    if c as u64 + d as u64 == count as u64 {
        let beyond = c.saturating_sub(g) as u64 + d.saturating_sub(h) as u64;
        return beyond <= room as u64 - owed;
    }
    false
}

// The same of the room for entries.
fn are_entries_shared(room: u32, counts: Counts, first: Desk, second: Desk) -> bool
    ensures { result ≡ entries_shared room counts (record { first = first; second = second }) }
{
    let g = first.guaranteed;
    let c = first.charged;
    let h = second.guaranteed;
    let d = second.charged;
    is_shared_out(
        room,
        counts.entries,
        g.entries,
        c.entries,
        h.entries,
        d.entries,
    )
}

// The same of the room for bytes.
fn are_bytes_shared(room: u32, counts: Counts, first: Desk, second: Desk) -> bool
    ensures { result ≡ bytes_shared room counts (record { first = first; second = second }) }
{
    let g = first.guaranteed;
    let c = first.charged;
    let h = second.guaranteed;
    let d = second.charged;
    is_shared_out(room, counts.bytes, g.bytes, c.bytes, h.bytes, d.bytes)
}

// Whether a pool and its desks are fit: the pool is fit, each entry that has room has an owner, a desk is charged what its entries hold, and the
// desks share the room.
pub fn is_fit(bytes: &[u8], entries: &[u32], owners: &[u8], counts: Counts, desks: Desks) -> bool
    ensures { result ≡ fit_desks (shared bytes.now entries.now owners.now counts desks) }
{
    if !pool_rows::is_pool_fit(bytes, entries, counts) {
        return false;
    }
    let entry_room = pool_rows::room_of(entries.len() / 2);
    if owners.len() < entry_room as usize {
        return false;
    }
    let n = counts.entries as usize;
    let first = desks.first;
    let second = desks.second;
    if first.charged != held_by(entries, owners, 0, n) {
        return false;
    }
    if second.charged != held_by(entries, owners, 1, n) {
        return false;
    }
    if !are_entries_shared(entry_room, counts, first, second) {
        return false;
    }
    are_bytes_shared(pool_rows::room_of(bytes.len()), counts, first, second)
}

// ---- the part of the pool that a desk may fill

// The other desk.
fn other_of(which: Which, desks: Desks) -> Desk
    ensures { result ≡ desk_of (other which) desks }
{
    match which {
        Which::First => desks.second,
        Which::Second => desks.first,
    }
}

// How far a desk may fill a pool with room for so many entries and bytes: up to what is left of the other desk's guarantee.
pub fn room_for(entry_room: u32, byte_room: u32, which: Which, desks: Desks) -> Counts
    ensures { result ≡ room_for entry_room byte_room which desks }
{
    let other = other_of(which, desks);
    let owed = other.guaranteed;
    let has = other.charged;
    Counts {
        entries: entry_room.saturating_sub(owed.entries.saturating_sub(has.entries)),
        bytes: byte_room.saturating_sub(owed.bytes.saturating_sub(has.bytes)),
    }
}
