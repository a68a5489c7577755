// Padding, and writing a format.
ghost use Rattle.koto_pad.specs.Pads.{PadIs};
ghost use Rattle.koto_writer.specs.Writes.{WriteIs};

// `koto_pad::koto_pad` for C.
#[unsafe(no_mangle)]
pub extern "C" fn koto_pad(
    text: &[u8],
    alignment: u64,
    width: u64,
    filled: u32,
    fill: &[u8],
    table: &[u32],
    edition: u32,
    buffer: &mut [u8],
    len: &mut usize,
    place: &mut usize,
) -> u32
    ensures { PadIs text.now alignment width filled fill.now table.now edition
        buffer.old buffer.new len.new place.new result }
{
    koto_pad::koto_pad(
        text, alignment, width, filled, fill, table, edition, buffer, len, place,
    )
}

// `koto_writer::koto_write_format` for C.
#[unsafe(no_mangle)]
pub extern "C" fn koto_write_format(
    alignment: u64,
    width: u64,
    precision: u64,
    representation: u64,
    filled: u32,
    fill: &[u8],
    table: &[u32],
    edition: u32,
    buffer: &mut [u8],
    len: &mut usize,
    place: &mut usize,
) -> u32
    ensures { WriteIs alignment width precision representation filled fill.now table.now edition
        buffer.old buffer.new len.new place.new result }
{
    koto_writer::koto_write_format(
        alignment,
        width,
        precision,
        representation,
        filled,
        fill,
        table,
        edition,
        buffer,
        len,
        place,
    )
}
