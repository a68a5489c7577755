// A format parse for a desk (document 02, C-12): `parse` in the part of the pool that the desk may fill. What was added is then owned by the
// desk, and charged to it.
#![tactic(auto)]

ghost use Rattle.std.specs.Prelude.{◌≡◌, ◌+◌, ◌*◌, ◌≤◌, ◌<◌, false, length};
ghost use Rattle.parse.specs.Plan.{input_of};
ghost use Rattle.desks.specs.Desks.{shared, desk_of};
ghost use Rattle.desk_parse.specs.Own.{unfit_answer, owned_up, charged_up, desks_up};
ghost use Rattle.desk_parse.specs.Call.{ParsesFor};

use desks::{Desk, Desks, Which};
use parse::{ParseError, Parsed, Terms};
use pool_rows::Counts;

// The answer, with the counts and both desks after it.
#[derive(Clone, Copy)]
pub struct ParsedFor {
    pub answer: Result<Parsed, ParseError>,
    pub counts: Counts,
    pub desks: Desks,
}

// The refusal where the desks are unfit: a format string, an edition or a table that is refused is told first.
pub fn refuse(format: &[u8], table: &[u32], terms: Terms) -> ParseError
    ensures { result ≡ unfit_answer (input_of format.now table.now terms.edition false) }
{
    match parse::read(format, table, terms, false) {
        Ok(_) => ParseError::BadState,
        Err(error) => error,
    }
}

// Gives entries n to m an owner.
fn own_up(owners: &mut [u8], n: usize, m: usize, owner: u8)
    requires { (n ≤ m) × (m ≤ length owners.old) }
    ensures { owners.new ≡ owned_up owner owners.old n m }
{
    owners[n..m].fill(owner);
}

// A desk, with what was added charged to it.
fn charge_desk(desk: Desk, before: Counts, after: Counts) -> Desk
    requires entries_le_entries { (before.entries ≤ after.entries) × (before.bytes ≤ after.bytes) }
    requires entries_le_entries_2 { (desk.charged.entries ≤ before.entries) × (desk.charged.bytes ≤ before.bytes) }
    ensures { result ≡ charged_up desk before after }
{
    let guaranteed = desk.guaranteed;
    let charged = desk.charged;
    Desk {
        guaranteed,
        charged: Counts {
            entries: charged.entries + (after.entries - before.entries),
            bytes: charged.bytes + (after.bytes - before.bytes),
        },
    }
}

// Both desks, with what was added charged to one of them.
fn charge_up(which: Which, desks: Desks, before: Counts, after: Counts) -> Desks
    requires entries_le_entries { (before.entries ≤ after.entries) × (before.bytes ≤ after.bytes) }
    requires desks_bound { ((desk_of which desks).charged.entries ≤ before.entries) × ((desk_of which desks).charged.bytes ≤ before.bytes) }
    ensures { result ≡ desks_up which desks before after }
{
    let first = desks.first;
    let second = desks.second;
    match which {
        Which::First => Desks {
            first: charge_desk(first, before, after),
            second,
        },
        Which::Second => Desks {
            first,
            second: charge_desk(second, before, after),
        },
    }
}

// Parses a format string for a desk, by the cluster rules of an edition, as `parse` does in the part of the pool that the desk may fill. Refused
// are first what `parse` refuses first, and desks that are unfit in the place of a pool that is.
pub fn parse(
    format: &[u8],
    table: &[u32],
    bytes: &mut [u8],
    entries: &mut [u32],
    owners: &mut [u8],
    terms: Terms,
    desks: Desks,
    which: Which,
) -> ParsedFor
    ensures { ParsesFor format.now table.now terms.edition which
        (shared bytes.old entries.old owners.old terms.counts desks)
        bytes.new entries.new owners.new result }
{
    let counts = terms.counts;
    if !desks::is_fit(bytes, entries, owners, counts, desks) {
        return ParsedFor {
            answer: Err(refuse(format, table, terms)),
            counts,
            desks,
        };
    }
    let entry_room = pool_rows::room_of(entries.len() / 2);
    let byte_room = pool_rows::room_of(bytes.len());
    let room = desks::room_for(entry_room, byte_room, which, desks);
    let entry_end = 2 * room.entries as usize;
    let byte_end = room.bytes as usize;
    let after = parse::parse(
        format,
        table,
        terms.edition,
        &mut bytes[..byte_end],
        &mut entries[..entry_end],
        counts,
    );
    let answer = after.answer;
    let left = after.counts;
    own_up(
        owners,
        counts.entries as usize,
        left.entries as usize,
        desks::owner_of(which),
    );
    ParsedFor {
        answer,
        counts: left,
        desks: charge_up(which, desks, counts, left),
    }
}
