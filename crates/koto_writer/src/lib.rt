// Writing format options for C (include/koto_lexer.h); the crates `koto_lexer`, `koto_pool` and `koto_pad` have the other calls.
//
// As there, the call takes every input, calls the inner function of its name, and hands its answer out as numbers, all of which every call
// writes.
#![tactic(auto)]

ghost use Rattle.koto_writer.specs.Writes.{WriteIs};

use writer::answer;

// Writes the format string for options to the start of the buffer; bytes past it stay. A fill is given where `filled` is not 0. Refused are an
// edition that is none with 17, then a table that is unfit with 2, then options as which no format string is read back with 18, then a buffer
// that is too short with 19; each leaves the whole buffer.
pub fn koto_write_format(
    alignment: u64,
    width: u64,
    precision: u64,
    representation: u64,
    filled: u32,
    fill: &[u8],
    table: &[u32],
    edition: u32,
    buffer: &mut [u8],
    len: &mut usize,
    place: &mut usize,
) -> u32
    ensures { WriteIs alignment width precision representation filled fill.now table.now edition
        buffer.old buffer.new len.new place.new result }
{
    let written = writer::write_format(
        alignment,
        width,
        precision,
        representation,
        (filled != 0).then_some(fill),
        table,
        edition,
        buffer,
    );
    *len = answer::len_of(written);
    *place = answer::place_of(written);
    answer::number_of(written)
}
