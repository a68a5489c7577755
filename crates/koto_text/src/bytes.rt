// UTF-8 for C: one character read at a place, and a check of a whole slice.
ghost use Rattle.koto_text.specs.Bytes.{ReadCharIs, CheckUtf8Is};

use utf8::answer;

// Reads the character at a place. Refused are bytes that begin none with 3, and a character that the end cuts with 15.
pub fn koto_read_char(bytes: &[u8], at: usize, code: &mut u32, len: &mut usize) -> u32
    ensures { ReadCharIs bytes.now at code.new len.new result }
{
    let read = utf8::read_char(bytes, at);
    *code = answer::read_code(read);
    *len = answer::read_len(read);
    answer::read_number(read)
}

// Checks all bytes. Refused are ill-formed bytes, at the first such sequence: with 15 where it is a character that the end cuts, or else with 3.
pub fn koto_check_utf8(bytes: &[u8], place: &mut usize) -> u32
    ensures { CheckUtf8Is bytes.now place.new result }
{
    let check = utf8::check_utf8(bytes);
    *place = answer::check_place(check);
    answer::check_number(check)
}
