// A token of ASCII bytes on one line outside a string, by the class of its first byte (the crate `classes`): names, numbers, and symbols that change no
// mode. What it leaves to others is told by `none`. It knows no lists and no records.
#![tactic(auto)]

ghost use Rattle.std.specs.Prelude.{◌≡◌, ◌≤◌, ◌<◌, length};
ghost use Rattle.text.specs.Bytes.{byte_at};
ghost use Rattle.text.specs.Stands.{Stands, chars_from};
ghost use Rattle.state.specs.Lexer.{reach_of};
ghost use Rattle.state.specs.declared.Change.TheVariants.{Keep};
ghost use Rattle.numbers.specs.ConsumeNumber.{consume_number};
ghost use Rattle.symbol_tokens.specs.ConsumeSymbol.{consume_symbol};
ghost use Rattle.classes.specs.Classes.{ClassTable};
ghost use Rattle.plain.specs.Plain.{FindsPlain};
ghost use Rattle.signs.specs.Table.{SignTable};
ghost use Rattle.plain_code.specs.PlainCode.{CodeFinds};

use base::chars::DOT;
use base::code_between;
use classes::class_at;
use plain::{Plain, none};
use signs::sign;
use state::{Lexer, TEMPLATE_EXPR};
use text::byte_at;
use token::kinds;

// The small letters.
const SMALL_A: u32 = 97;

const SMALL_Z: u32 = 122;

// A number. Only a dot or a small letter goes on where its first digits end.
fn number(source: &[u8], lexer: Lexer) -> Plain
    requires stands { Stands source.now (reach_of lexer) }
    requires bound { (48 ≤ byte_at source.now (reach_of lexer).byte.0) × (byte_at source.now (reach_of lexer).byte.0 ≤ 57) }
    ensures { FindsPlain Keep (consume_number (chars_from source.now (reach_of lexer)) lexer) lexer result }
{
    let at = lexer.place.current_byte.0;
    let end = text::run_end::<text::DecimalDigit>(source, at + 1);
    let b = byte_at(source, end);
    if (b == DOT) | code_between(b, SMALL_A, SMALL_Z) {
        let end = numbers::number_end(source, at);
        return Plain {
            kind: kinds::NUMBER,
            len: end - at,
        };
    }
    Plain {
        kind: kinds::NUMBER,
        len: end - at,
    }
}

// ":", but not in a template, where format options follow it.
fn colon(source: &[u8], lexer: Lexer) -> Plain
    requires { Stands source.now (reach_of lexer) × (byte_at source.now (reach_of lexer).byte.0 ≡ 58) }
    ensures { FindsPlain Keep (consume_symbol (chars_from source.now (reach_of lexer)) lexer) lexer result }
{
    if lexer.mode == TEMPLATE_EXPR * 512 {
        return none();
    }
    Plain {
        kind: kinds::COLON,
        len: 1,
    }
}

// "}", but not in a template, which it closes, nor in a map there.
#[tactic(auto, using(plain::specs::PlainLaws::plain_none))]
fn curly_close(source: &[u8], lexer: Lexer) -> Plain
    requires { Stands source.now (reach_of lexer) × (byte_at source.now (reach_of lexer).byte.0 ≡ 125) }
    ensures { FindsPlain Keep (consume_symbol (chars_from source.now (reach_of lexer)) lexer) lexer result }
{
    if lexer.mode != 0 {
        return none();
    }
    Plain {
        kind: kinds::CURLY_CLOSE,
        len: 1,
    }
}

// What follows outside a string, by the class of its first byte.
pub fn code_plain(source: &[u8], classes: &[u8; 256], signs: &[u8; 512], lexer: Lexer) -> Plain
    requires stands { Stands source.now (reach_of lexer) × ((reach_of lexer).byte.0 < length source.now) }
    requires class_table { ClassTable classes.now × SignTable signs.now }
    ensures { CodeFinds source.now lexer result }
{
    let at = lexer.place.current_byte.0;
    match class_at(source, classes, at) {
        4 => plain_names::name(source, lexer),
        5 => number(source, lexer),
        8 => sign(source, signs, lexer),
        9 => sign(source, signs, lexer),
        10 => sign(source, signs, lexer),
        11 => colon(source, lexer),
        12 => curly_close(source, lexer),
        15 => sign(source, signs, lexer),
        _ => none(),
    }
}
