// The scans, the check of another lexer's list, and the list after an edit.
ghost use Rattle.koto_lexer.specs.Scans.{ScanIs};
ghost use Rattle.koto_half.specs.Halves.{ScanHalfIs};
ghost use Rattle.koto_fast.specs.Fast.{ScanFastIs};
ghost use Rattle.koto_profile.specs.Profiles.{ScanProfileIs};
ghost use Rattle.koto_check.specs.Checks.{CheckListIs};
ghost use Rattle.koto_rescan.specs.Rescans.{edit_of, RescanIs};

// `koto_lexer::koto_scan` for C.
#[unsafe(no_mangle)]
pub extern "C" fn koto_scan(
    source: &[u8],
    table: &[u32],
    edition: u32,
    list: &mut [u32],
    status: &mut u32,
    count: &mut usize,
    byte: &mut usize,
) -> u32
    ensures { ScanIs source.now table.now edition list.old list.new
        status.new count.new byte.new result }
{
    koto_lexer::koto_scan(source, table, edition, list, status, count, byte)
}

// `koto_half::koto_scan_half` for C.
#[unsafe(no_mangle)]
pub extern "C" fn koto_scan_half(
    source: &[u8],
    table: &[u32],
    edition: u32,
    list: &mut [u32],
    status: &mut u32,
    count: &mut usize,
    byte: &mut usize,
) -> u32
    ensures { ScanHalfIs source.now table.now edition list.old list.new
        status.new count.new byte.new result }
{
    koto_half::koto_scan_half(source, table, edition, list, status, count, byte)
}

// `koto_fast::koto_scan_fast` for C.
#[unsafe(no_mangle)]
pub extern "C" fn koto_scan_fast(
    source: &[u8],
    table: &[u32],
    edition: u32,
    list: &mut [u32],
    status: &mut u32,
    count: &mut usize,
    byte: &mut usize,
) -> u32
    ensures { ScanFastIs source.now table.now edition list.old list.new
        status.new count.new byte.new result }
{
    koto_fast::koto_scan_fast(source, table, edition, list, status, count, byte)
}

// `koto_profile::koto_scan_profile` for C.
#[unsafe(no_mangle)]
pub extern "C" fn koto_scan_profile(
    source: &[u8],
    table: &[u32],
    edition: u32,
    list: &mut [u32],
    status: &mut u32,
    count: &mut usize,
    byte: &mut usize,
) -> u32
    ensures { ScanProfileIs source.now table.now edition list.old list.new
        status.new count.new byte.new result }
{
    koto_profile::koto_scan_profile(source, table, edition, list, status, count, byte)
}

// `koto_check::koto_check_list` for C.
#[unsafe(no_mangle)]
pub extern "C" fn koto_check_list(
    source: &[u8],
    table: &[u32],
    edition: u32,
    list: &[u32],
    list_count: usize,
    list_status: u32,
    same: &mut u32,
    differs: &mut usize,
    place: &mut usize,
) -> u32
    ensures { CheckListIs source.now table.now edition list.now list_count list_status
        same.new differs.new place.new result }
{
    koto_check::koto_check_list(
        source,
        table,
        edition,
        list,
        list_count,
        list_status,
        same,
        differs,
        place,
    )
}

// `koto_rescan::koto_rescan` for C.
#[unsafe(no_mangle)]
pub extern "C" fn koto_rescan(
    old: &[u8],
    old_list: &[u32],
    old_count: usize,
    edit_place: usize,
    removed: usize,
    put_in: usize,
    source: &[u8],
    table: &[u32],
    edition: u32,
    list: &mut [u32],
    status: &mut u32,
    count: &mut usize,
    byte: &mut usize,
) -> u32
    ensures { RescanIs old.now old_list.now old_count (edit_of edit_place removed put_in)
        source.now table.now edition list.old list.new
        status.new count.new byte.new result }
{
    koto_rescan::koto_rescan(
        old, old_list, old_count, edit_place, removed, put_in, source, table, edition, list,
        status, count, byte,
    )
}
