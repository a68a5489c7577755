// Padding for C (include/koto_lexer.h); the crates `koto_lexer` and `koto_pool` have the other calls.
//
// As there, the call takes every input, calls the inner function of its name, and hands its answer out as numbers, all of which every call
// writes.
#![tactic(auto)]

ghost use Rattle.koto_pad.specs.Pads.{PadIs};

use pad::answer;

// Writes the padded text to the start of the buffer; bytes past it stay. A fill is given where `filled` is not 0. Refused are a text or a fill
// that is too long with 1, then an edition that is none with 17, then a table that is unfit with 2, then bytes of the text that are wrong
// with 3 or cut with 15, then those of the fill, then what is no format with 18, then a buffer that is too short with 19; each leaves the
// whole buffer.
pub fn koto_pad(
    text: &[u8],
    alignment: u64,
    width: u64,
    filled: u32,
    fill: &[u8],
    table: &[u32],
    edition: u32,
    buffer: &mut [u8],
    len: &mut usize,
    place: &mut usize,
) -> u32
    ensures { PadIs text.now alignment width filled fill.now table.now edition
        buffer.old buffer.new len.new place.new result }
{
    let padded = pad::pad(
        text,
        alignment,
        width,
        (filled != 0).then_some(fill),
        table,
        edition,
        buffer,
    );
    *len = answer::len_of(padded);
    *place = answer::place_of(padded);
    answer::number_of(padded)
}
