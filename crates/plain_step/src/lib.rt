// The read step of the second engine for whoever writes no list: what keeps the modes outside a string is told first, by the crate `plain_code`, then what
// ends a literal or opens a template in it, by `short`; else it is the step of `fast_step`. It knows no lists and no records.
#![tactic(auto)]

ghost use Rattle.std.specs.Prelude.{◌≡◌, ◌<◌, length};
ghost use Rattle.property.specs.Table.{properties_at};
ghost use Rattle.fitness.specs.Fit.{FitTable};
ghost use Rattle.text.specs.Stands.{Stands};
ghost use Rattle.state.specs.Lexer.{reach_of};
ghost use Rattle.lexer.specs.Fine.{Fine};
ghost use Rattle.lexer.specs.Step.{half};
ghost use Rattle.classes.specs.Classes.{ClassTable};
ghost use Rattle.signs.specs.Table.{SignTable};
ghost use Rattle.short.specs.Short.{TokenFinds};
ghost use Rattle.fast_step.specs.FastStep.{StepFinds};
ghost use Rattle.plain_step.specs.PlainStep.{CodeMode, FoundInCode};

use fast_step::{fast_half_near, found_half};
use found::{Found, along, nothing};
use lexer::Half;
use plain_code::code_plain;
use short::{blank, in_literal};
use state::{Change, LITERAL, Lexer, RAW_END, RAW_START, TEMPLATE_EXPR_FORMAT};
use text::byte_at;
use token::kinds;

// What keeps the modes outside a string. Most often it is a space, which is asked for first.
fn found_in_code(source: &[u8], classes: &[u8; 256], signs: &[u8; 512], lexer: Lexer) -> Found
    requires stands { Stands source.now (reach_of lexer) × ((reach_of lexer).byte.0 < length source.now) × CodeMode lexer.mode }
    requires class_table { ClassTable classes.now × SignTable signs.now }
    ensures { FoundInCode source.now lexer result }
{
    let at = lexer.place.current_byte.0;
    if source[at] == b' ' {
        return blank(source, lexer);
    }
    let plain = code_plain(source, classes, signs, lexer);
    let kind = plain.kind;
    if kind == kinds::ERROR {
        return nothing();
    }
    along(lexer, kind, 0, plain.len, Change::Keep)
}

// What is told at once of the token that follows, by the mode on top.
fn found_by_mode(
    source: &[u8],
    table: &[u32],
    classes: &[u8; 256],
    signs: &[u8; 512],
    lexer: Lexer,
) -> Found
    requires stands { Stands source.now (reach_of lexer) × ((reach_of lexer).byte.0 < length source.now) }
    requires fit_table { FitTable table.now × ClassTable classes.now × SignTable signs.now }
    ensures { TokenFinds source.now table.now lexer result }
{
    let tag = lexer.mode / 512;
    let delimiter = lexer.mode % 512;
    match tag {
        LITERAL => in_literal(source, table, lexer, state::quote_of(delimiter)),
        TEMPLATE_EXPR_FORMAT => nothing(),
        RAW_START => nothing(),
        RAW_END => nothing(),
        _ => found_in_code(source, classes, signs, lexer),
    }
}

// The same, if its first byte is ASCII.
#[tactic(auto, using(fast_step::specs::FastStepLaws::step_none))]
fn find_plain(
    source: &[u8],
    table: &[u32],
    classes: &[u8; 256],
    signs: &[u8; 512],
    lexer: Lexer,
) -> Found
    requires fine { Fine source.now lexer × FitTable table.now }
    requires class_table { ClassTable classes.now × SignTable signs.now }
    ensures { StepFinds source.now table.now lexer result }
{
    let at = lexer.place.current_byte.0;
    if 127 < byte_at(source, at) {
        return nothing();
    }
    found_by_mode(source, table, classes, signs, lexer.settle())
}

// The lexer's half of the read step, as `fast_step::fast_half_near` answers it. The run of the table to try first for a character above 127 is `near`, which may
// be any number.
pub fn plain_half(
    source: &[u8],
    table: &[u32],
    edition: u32,
    classes: &[u8; 256],
    signs: &[u8; 512],
    lexer: Lexer,
    near: &mut usize,
) -> Half
    requires fine { Fine source.now lexer × FitTable table.now }
    requires class_table { ClassTable classes.now × SignTable signs.now }
    ensures { result ≡ half (properties_at table.now) edition source.now lexer }
{
    let plain = find_plain(source, table, classes, signs, lexer);
    let kind = plain.kind;
    if kind != kinds::ERROR {
        return found_half(lexer, plain);
    }
    fast_half_near(source, table, edition, classes, lexer, near)
}
