// Parsing a format string, for C.
ghost use Rattle.koto_pool.specs.Formats.{ParsedTold, ParseIs};

use parse::{ParseError, Parsed, answer, numbers};
use pool_lent::Entry;
use pool_rows::Counts;

// Writes an answer's numbers, and hands its refusal on.
fn tell(parsed: Result<Parsed, ParseError>, options: &mut [u64; 7], value: &mut u64) -> u32
    ensures { ParsedTold parsed options.new value.new result }
{
    *options = numbers::numbers_of(parsed);
    *value = answer::value_of(parsed);
    answer::number_of(parsed)
}

// Parses a format string by the cluster rules of an edition, and adds its fill to the pool that is lent. Refused are a format string that is
// too long with 1, then a number that is no edition with 17, then a table that is unfit with 2, then bytes that are wrong with 3 or that the
// end cuts with 15, then a pool that is unfit with 8, each before a word of the pool is written; then what the Rust refuses with 10 to 12, and
// a string without room with 13. Strings added before that stay.
pub fn koto_parse(
    format: &[u8],
    table: &[u32],
    edition: u32,
    bytes: &mut [u8],
    entries: &mut [Entry],
    counts: &mut Counts,
    options: &mut [u64; 7],
    value: &mut u64,
) -> u32
    ensures { ParseIs format.now table.now edition bytes.old entries.old counts.old
        bytes.new entries.new counts.new options.new value.new result }
{
    let parsed = parse_lent::parse(format, table, edition, bytes, entries, counts);
    tell(parsed, options, value)
}
