// A pool for two desks.
ghost use Rattle.koto_desks.specs.Words.{lent_by};
ghost use Rattle.koto_desks.specs.Compacts.{CompactIs};
ghost use Rattle.koto_desks.specs.Formats.{ParseIs};
ghost use Rattle.koto_desks.specs.Strings.{AddStringIs};

// `koto_desks::koto_compact_flat` for C.
#[unsafe(no_mangle)]
pub extern "C" fn koto_compact_flat(
    first: &[u32],
    second: &[u32],
    bytes: &mut [u8],
    entries: &mut [u32],
    owners: &mut [u8],
    counts: &mut [u32; 2],
    desks: &mut [u32; 8],
    moved: &mut [u32],
) -> u32
    ensures { CompactIs first.now second.now
        (lent_by bytes.old entries.old owners.old counts.old desks.old) moved.old
        bytes.new entries.new owners.new counts.new desks.new moved.new result }
{
    koto_desks::koto_compact_flat(first, second, bytes, entries, owners, counts, desks, moved)
}

// `koto_desks::koto_desk_parse_flat` for C.
#[unsafe(no_mangle)]
pub extern "C" fn koto_desk_parse_flat(
    desk: u32,
    format: &[u8],
    table: &[u32],
    edition: u32,
    bytes: &mut [u8],
    entries: &mut [u32],
    owners: &mut [u8],
    counts: &mut [u32; 2],
    desks: &mut [u32; 8],
    options: &mut [u64; 7],
    value: &mut u64,
) -> u32
    ensures { ParseIs desk format.now table.now edition
        (lent_by bytes.old entries.old owners.old counts.old desks.old)
        bytes.new entries.new owners.new counts.new desks.new
        options.new value.new result }
{
    koto_desks::koto_desk_parse_flat(
        desk, format, table, edition, bytes, entries, owners, counts, desks, options, value,
    )
}

// `koto_desks::koto_desk_add_string_flat` for C.
#[unsafe(no_mangle)]
pub extern "C" fn koto_desk_add_string_flat(
    desk: u32,
    string: &[u8],
    bytes: &mut [u8],
    entries: &mut [u32],
    owners: &mut [u8],
    counts: &mut [u32; 2],
    desks: &mut [u32; 8],
    index: &mut u32,
    place: &mut usize,
) -> u32
    ensures { AddStringIs desk string.now
        (lent_by bytes.old entries.old owners.old counts.old desks.old)
        bytes.new entries.new owners.new counts.new desks.new
        index.new place.new result }
{
    koto_desks::koto_desk_add_string_flat(
        desk, string, bytes, entries, owners, counts, desks, index, place,
    )
}
