// The turns of the second engine's loop, by the mode on top: where a leaf tells the token at once, its record is written at once (the crate `turns`). Those
// outside a string that keep the modes have a loop of their own. What no leaf tells is left to the whole read step.
#![tactic(auto)]

ghost use Rattle.std.specs.Prelude.{◌≡◌};
ghost use Rattle.state.specs.Modes.{literal, template_expr_format, tag_of};
ghost use Rattle.state.specs.State.{state_of};
ghost use Rattle.turns.specs.Turns.{Ran, TurnsIs};
ghost use Rattle.fast_turns.specs.Steps.{Steady, Rows, CodeMode, InsideIf, CodeTurns, CodeRan};

use base::chars::CURLY_OPEN;
use brackets::{closes, opens};
use fast_options::format_options;
use fast_strings::contents;
use found::copied;
use layout::Layout;
use plain_code::code_plain;
use state::{LITERAL, Lexer, RAW_END, RAW_START, TEMPLATE_EXPR, TEMPLATE_EXPR_FORMAT};
use text::{Whitespace, byte_at, run_end};
use token::{kinds, token_of};
use turns::{Run, Turns, blank, closed, kept, line_feed, opened, passed, stays};

// Does an ASCII byte stand at the lexer's place, and is there room for a record?
fn is_inside(layout: Layout, source: &[u8], list: &[u32], count: usize, lexer: Lexer) -> bool
    ensures { InsideIf layout source.now list.now count lexer result }
{
    let at = lexer.place.current_byte.0;
    if source.len() <= at {
        return false;
    }
    if layout.room(list) <= count {
        return false;
    }
    source[at] < 128
}

// Outside a string, a token that keeps the modes.
fn code_turn(
    layout: Layout,
    source: &[u8],
    table: &[u32],
    edition: u32,
    classes: &[u8; 256],
    signs: &[u8; 512],
    codes: &[u16; 64],
    list: &mut [u32],
    lexer: Lexer,
    count: usize,
) -> Turns
    requires { Steady source.now table.now lexer codes.now × Rows classes.now signs.now × CodeMode lexer.mode }
    ensures { CodeTurns layout source.now table.now edition lexer codes.now count list.old result list.new }
{
    if !is_inside(layout, source, list, count, lexer) {
        return stays(lexer, count);
    }
    let at = lexer.place.current_byte.0;
    let b = source[at];
    if b == b' ' {
        let len = run_end::<Whitespace>(source, at) - at;
        return Turns {
            on: true,
            lexer: blank(layout, list, count, lexer, len),
            count: count + 1,
        };
    }
    let plain = code_plain(source, classes, signs, lexer.settle());
    if plain.kind != kinds::ERROR {
        return Turns {
            on: true,
            lexer: kept(layout, list, count, lexer, token_of(plain.kind), plain.len),
            count: count + 1,
        };
    }
    if b != b'\n' {
        return stays(lexer, count);
    }
    Turns {
        on: true,
        lexer: line_feed(layout, list, count, lexer),
        count: count + 1,
    }
}

// Outside a string, as many tokens as keep the modes and are told at once.
fn code_run(
    layout: Layout,
    source: &[u8],
    table: &[u32],
    edition: u32,
    classes: &[u8; 256],
    signs: &[u8; 512],
    codes: &[u16; 64],
    list: &mut [u32],
    start: Lexer,
    first: usize,
) -> Run
    requires { Steady source.now table.now start codes.now × Rows classes.now signs.now × CodeMode start.mode }
    ensures { CodeRan layout source.now table.now edition start codes.now first list.old result list.new }
{
    let mut lexer = start;
    let mut count = first;
    loop {
        let turns = code_turn(
            layout, source, table, edition, classes, signs, codes, &mut *list, lexer, count,
        );
        let on = turns.on;
        lexer = copied(turns.lexer);
        count = turns.count;
        if !on {
            return Run { lexer, count };
        }
    }
}

// Outside a string, a token of one byte that changes the modes.
fn bracket_turn(
    layout: Layout,
    source: &[u8],
    table: &[u32],
    edition: u32,
    codes: &mut [u16; 64],
    list: &mut [u32],
    lexer: Lexer,
    count: usize,
) -> Turns
    requires { Steady source.now table.now lexer codes.old × CodeMode lexer.mode }
    ensures { TurnsIs layout source.now table.now edition lexer codes.old count list.old result codes.new list.new }
{
    if !is_inside(layout, source, list, count, lexer) {
        return stays(lexer, count);
    }
    let opening = opens(source, table, lexer.settle());
    let token = opening.token;
    if token.kind != kinds::ERROR {
        return opened(
            layout,
            source,
            table,
            edition,
            codes,
            list,
            count,
            lexer,
            token,
            opening.code,
        );
    }
    if closes(source, table, lexer.settle()) {
        return closed(
            layout,
            source,
            table,
            edition,
            codes,
            list,
            count,
            lexer,
            token_of(kinds::CURLY_CLOSE),
            1,
        );
    }
    stays(lexer, count)
}

// Outside a string.
fn code_turns(
    layout: Layout,
    source: &[u8],
    table: &[u32],
    edition: u32,
    classes: &[u8; 256],
    signs: &[u8; 512],
    codes: &mut [u16; 64],
    list: &mut [u32],
    lexer: Lexer,
    count: usize,
) -> Turns
    requires { Steady source.now table.now lexer codes.old × Rows classes.now signs.now × CodeMode lexer.mode }
    ensures { TurnsIs layout source.now table.now edition lexer codes.old count list.old result codes.new list.new }
{
    let run = code_run(
        layout, source, table, edition, classes, signs, codes, &mut *list, lexer, count,
    );
    bracket_turn(
        layout, source, table, edition, codes, list, run.lexer, run.count,
    )
}

// In a literal: its end, a template, or contents that end soon.
fn literal_turn(
    layout: Layout,
    source: &[u8],
    table: &[u32],
    edition: u32,
    codes: &mut [u16; 64],
    list: &mut [u32],
    lexer: Lexer,
    count: usize,
) -> Turns
    requires { Steady source.now table.now lexer codes.old × (tag_of lexer.mode ≡ literal) }
    ensures { TurnsIs layout source.now table.now edition lexer codes.old count list.old result codes.new list.new }
{
    if !is_inside(layout, source, list, count, lexer) {
        return stays(lexer, count);
    }
    let at = lexer.place.current_byte.0;
    let b = byte_at(source, at);
    let quote = state::quote_of(lexer.mode % 512);
    if b == quote {
        return closed(
            layout,
            source,
            table,
            edition,
            codes,
            list,
            count,
            lexer,
            token_of(kinds::STRING_END),
            1,
        );
    }
    if b == CURLY_OPEN {
        return opened(
            layout,
            source,
            table,
            edition,
            codes,
            list,
            count,
            lexer,
            token_of(kinds::CURLY_OPEN),
            TEMPLATE_EXPR * 512,
        );
    }
    let plain = contents(source, lexer.settle(), quote);
    if plain.kind != kinds::ERROR {
        return passed(
            layout,
            source,
            table,
            edition,
            codes,
            list,
            count,
            lexer,
            token_of(plain.kind),
            plain.len,
        );
    }
    stays(lexer, count)
}

// Format options, up to the brace that ends their template.
fn format_turn(
    layout: Layout,
    source: &[u8],
    table: &[u32],
    edition: u32,
    codes: &[u16; 64],
    list: &mut [u32],
    lexer: Lexer,
    count: usize,
) -> Turns
    requires { Steady source.now table.now lexer codes.now × (tag_of lexer.mode ≡ template_expr_format) }
    ensures { TurnsIs layout source.now table.now edition lexer codes.now count list.old result codes.now list.new }
{
    if !is_inside(layout, source, list, count, lexer) {
        return stays(lexer, count);
    }
    let plain = format_options(source, lexer.settle());
    if plain.kind != kinds::ERROR {
        return closed(
            layout,
            source,
            table,
            edition,
            codes,
            list,
            count,
            lexer,
            token_of(plain.kind),
            plain.len,
        );
    }
    stays(lexer, count)
}

// By the mode on top, as many tokens as are told at once.
fn mode_turns(
    layout: Layout,
    source: &[u8],
    table: &[u32],
    edition: u32,
    classes: &[u8; 256],
    signs: &[u8; 512],
    codes: &mut [u16; 64],
    list: &mut [u32],
    lexer: Lexer,
    count: usize,
) -> Turns
    requires { Steady source.now table.now lexer codes.old × Rows classes.now signs.now }
    ensures { TurnsIs layout source.now table.now edition lexer codes.old count list.old result codes.new list.new }
{
    let tag = lexer.mode / 512;
    match tag {
        LITERAL => literal_turn(layout, source, table, edition, codes, list, lexer, count),
        TEMPLATE_EXPR_FORMAT => format_turn(
            layout, source, table, edition, codes, list, lexer, count,
        ),
        RAW_START => stays(lexer, count),
        RAW_END => stays(lexer, count),
        _ => code_turns(
            layout, source, table, edition, classes, signs, codes, list, lexer, count,
        ),
    }
}

// As many tokens as are told at once, in every mode.
pub fn fast_run(
    layout: Layout,
    source: &[u8],
    table: &[u32],
    edition: u32,
    classes: &[u8; 256],
    signs: &[u8; 512],
    codes: &mut [u16; 64],
    list: &mut [u32],
    start: Lexer,
    first: usize,
) -> Run
    requires { Steady source.now table.now start codes.old × Rows classes.now signs.now }
    ensures { Ran layout source.now table.now edition (state_of start codes.old) first list.old (state_of result.lexer codes.new) result.count list.new }
{
    let mut lexer = start;
    let mut count = first;
    loop {
        let turns = mode_turns(
            layout,
            source,
            table,
            edition,
            classes,
            signs,
            &mut *codes,
            &mut *list,
            lexer,
            count,
        );
        let on = turns.on;
        lexer = copied(turns.lexer);
        count = turns.count;
        if !on {
            return Run { lexer, count };
        }
    }
}
