// Characters, UTF-8, clusters and property tables.
ghost use Rattle.koto_text.specs.Bytes.{ReadCharIs, CheckUtf8Is};
ghost use Rattle.koto_text.specs.Clusters.{FirstClusterIs};
ghost use Rattle.koto_text.specs.Tables.{CheckTableIs, ReadTableIs};

// `koto_text::koto_read_char` for C.
#[unsafe(no_mangle)]
pub extern "C" fn koto_read_char(bytes: &[u8], at: usize, code: &mut u32, len: &mut usize) -> u32
    ensures { ReadCharIs bytes.now at code.new len.new result }
{
    koto_text::koto_read_char(bytes, at, code, len)
}

// `koto_text::koto_check_utf8` for C.
#[unsafe(no_mangle)]
pub extern "C" fn koto_check_utf8(bytes: &[u8], place: &mut usize) -> u32
    ensures { CheckUtf8Is bytes.now place.new result }
{
    koto_text::koto_check_utf8(bytes, place)
}

// `koto_text::koto_first_cluster` for C.
#[unsafe(no_mangle)]
pub extern "C" fn koto_first_cluster(
    source: &[u8],
    table: &[u32],
    edition: u32,
    len: &mut usize,
    place: &mut usize,
) -> u32
    ensures { FirstClusterIs source.now table.now edition len.new place.new result }
{
    koto_text::koto_first_cluster(source, table, edition, len, place)
}

// `koto_text::koto_check_table` for C.
#[unsafe(no_mangle)]
pub extern "C" fn koto_check_table(table: &[u32], place: &mut usize) -> u32
    ensures { CheckTableIs table.now place.new result }
{
    koto_text::koto_check_table(table, place)
}

// `koto_text::koto_read_table` for C.
#[unsafe(no_mangle)]
pub extern "C" fn koto_read_table(
    file: &[u8],
    row: &mut [u32],
    count: &mut usize,
    place: &mut usize,
) -> u32
    ensures { ReadTableIs file.now row.old row.new count.new place.new result }
{
    koto_text::koto_read_table(file, row, count, place)
}
