// Parsing a format string for a desk, for C.
ghost use Rattle.desks.specs.Desks.{shared};
ghost use Rattle.koto_desks.specs.Words.{lent_by};
ghost use Rattle.koto_desks.specs.Formats.{ParsedFrom, ParseIs};

use crate::words;
use desk_parse::ParsedFor;
use desks::Desks;
use parse::{Terms, answer, numbers};

// The parse for the desk of a number. A number that is none of a desk is refused as an unfit state is.
fn parse_from(
    desk: u32,
    format: &[u8],
    table: &[u32],
    bytes: &mut [u8],
    entries: &mut [u32],
    owners: &mut [u8],
    terms: Terms,
    desks: Desks,
) -> ParsedFor
    ensures { ParsedFrom desk format.now table.now terms.edition
        (shared bytes.old entries.old owners.old terms.counts desks)
        bytes.new entries.new owners.new result }
{
    if words::DESKS <= desk {
        let counts = terms.counts;
        return ParsedFor {
            answer: Err(desk_parse::refuse(format, table, terms)),
            counts,
            desks,
        };
    }
    let which = words::which_of(desk);
    desk_parse::parse(format, table, bytes, entries, owners, terms, desks, which)
}

// Parses a format string for a desk, by the cluster rules of an edition, and adds its fill to the pool that is lent. Refused are a format string
// that is too long with 1, then a number that is no edition with 17, then a table that is unfit with 2, then bytes that are wrong with 3 or that
// the end cuts with 15, then a number that is no desk, or a pool or desks that are unfit, with 8, each before a word of the pool is written; then
// what the Rust refuses with 10 to 12, and a string without room with 13. Strings added before that stay.
pub fn koto_desk_parse_flat(
    desk: u32,
    format: &[u8],
    table: &[u32],
    edition: u32,
    bytes: &mut [u8],
    entries: &mut [u32],
    owners: &mut [u8],
    counts: &mut [u32; 2],
    desks: &mut [u32; 8],
    options: &mut [u64; 7],
    value: &mut u64,
) -> u32
    ensures { ParseIs desk format.now table.now edition
        (lent_by bytes.old entries.old owners.old counts.old desks.old)
        bytes.new entries.new owners.new counts.new desks.new
        options.new value.new result }
{
    let both = words::desks_in(desks);
    let terms = Terms {
        edition,
        counts: words::counts_in(counts),
    };
    let parsed = parse_from(desk, format, table, bytes, entries, owners, terms, both);
    let said = parsed.answer;
    *counts = words::count_words(parsed.counts);
    *desks = words::desk_words(parsed.desks);
    *options = numbers::numbers_of(said);
    *value = answer::value_of(said);
    answer::number_of(said)
}
