// The pool of strings.
ghost use Rattle.koto_pool.specs.Formats.{ParseIs};
ghost use Rattle.koto_pool.specs.Pools.{AddStringIs};

use pool_lent::Entry;
use pool_rows::Counts;

// `koto_pool::koto_parse` for C.
#[unsafe(no_mangle)]
pub extern "C" fn koto_parse(
    format: &[u8],
    table: &[u32],
    edition: u32,
    bytes: &mut [u8],
    entries: &mut [Entry],
    counts: &mut Counts,
    options: &mut [u64; 7],
    value: &mut u64,
) -> u32
    ensures { ParseIs format.now table.now edition bytes.old entries.old counts.old
        bytes.new entries.new counts.new options.new value.new result }
{
    koto_pool::koto_parse(
        format, table, edition, bytes, entries, counts, options, value,
    )
}

// `koto_pool::koto_add_string` for C.
#[unsafe(no_mangle)]
pub extern "C" fn koto_add_string(
    string: &[u8],
    bytes: &mut [u8],
    entries: &mut [Entry],
    counts: &mut Counts,
    index: &mut u32,
    place: &mut usize,
) -> u32
    ensures { AddStringIs string.now bytes.old entries.old counts.old
        bytes.new entries.new counts.new index.new place.new result }
{
    koto_pool::koto_add_string(string, bytes, entries, counts, index, place)
}
