// What a turn of the second engine's loop writes, where the token is known: its record, and the lexer after it. It knows no bytes of a source.
#![tactic(auto)]

ghost use Rattle.std.specs.Prelude.{◌≡◌, false};
ghost use Rattle.base.specs.Refusal.{source_most};
ghost use Rattle.position.specs.Place.{line_by};
ghost use Rattle.token.specs.Kind.{whitespace, new_line};
ghost use Rattle.token.specs.Token.{token_of};
ghost use Rattle.state.specs.Lexer.{advanced_line, advanced_to, reach_of, settled, indented, remembered};
ghost use Rattle.state.specs.declared.Change.TheVariants.{Keep, Push, Pop};
ghost use Rattle.turns.specs.Turns.{Ready, line_taken, Writable, Written, TurnsIs};

use layout::Layout;
use reading::row_of;
use state::Lexer;
use token::{Token, kinds, token_of};

// What a step of the loop answers: whether it may go on so, the lexer after the turns that it made, and how many records there are.
#[derive(Clone, Copy)]
pub struct Turns {
    pub on: bool,
    pub lexer: Lexer,
    pub count: usize,
}

// No turn.
pub fn stays(lexer: Lexer, count: usize) -> Turns
    ensures { result ≡ record { on = false; lexer = lexer; count = count } }
{
    Turns {
        on: false,
        lexer,
        count,
    }
}

// The loop's lexer and how many records there are, after some turns.
#[derive(Clone, Copy)]
pub struct Run {
    pub lexer: Lexer,
    pub count: usize,
}

// A token of so many ASCII bytes on this line.
pub fn kept(
    layout: Layout,
    list: &mut [u32],
    count: usize,
    lexer: Lexer,
    token: Token,
    len: usize,
) -> Lexer
    requires { Writable layout list.old count token lexer (remembered token.kind (advanced_line len (settled lexer))) }
    ensures { Written layout list.old count token lexer (remembered token.kind (advanced_line len (settled lexer))) result list.new }
{
    let next = lexer.settle().advance_line(len).remember(token.kind);
    layout.put(list, count, row_of(token, lexer, next), false);
    next
}

// So many spaces and tabs.
pub fn blank(layout: Layout, list: &mut [u32], count: usize, lexer: Lexer, len: usize) -> Lexer
    requires { Writable layout list.old count (token_of whitespace) lexer (remembered whitespace (advanced_line len (indented len (settled lexer)))) }
    ensures { Written layout list.old count (token_of whitespace) lexer (remembered whitespace (advanced_line len (indented len (settled lexer)))) result list.new }
{
    let next = lexer
        .settle()
        .indent_by(len as u32)
        .advance_line(len)
        .remember(kinds::WHITESPACE);
    layout.put(
        list,
        count,
        row_of(token_of(kinds::WHITESPACE), lexer, next),
        false,
    );
    next
}

// A line feed.
pub fn line_feed(layout: Layout, list: &mut [u32], count: usize, lexer: Lexer) -> Lexer
    requires { Writable layout list.old count (token_of new_line) lexer (remembered new_line (advanced_to (line_by 1 (reach_of lexer)) (settled lexer))) }
    ensures { Written layout list.old count (token_of new_line) lexer (remembered new_line (advanced_to (line_by 1 (reach_of lexer)) (settled lexer))) result list.new }
{
    let reach = lexer.reach();
    let next = lexer
        .settle()
        .advance_to_position(reach.next_line(1))
        .remember(kinds::NEW_LINE);
    layout.put(
        list,
        count,
        row_of(token_of(kinds::NEW_LINE), lexer, next),
        false,
    );
    next
}

// A token of one byte that pushes a mode, if there is room for the mode.
#[tactic(auto, using(crate::specs::TurnsLaws::turns_none))]
pub fn opened(
    layout: Layout,
    source: &[u8],
    table: &[u32],
    edition: u32,
    codes: &mut [u16; 64],
    list: &mut [u32],
    count: usize,
    lexer: Lexer,
    token: Token,
    code: u16,
) -> Turns
    requires { Ready layout source.now table.now edition lexer codes.old count list.old (line_taken token 1 (Push code) (settled lexer)) }
    ensures { TurnsIs layout source.now table.now edition lexer codes.old count list.old result codes.new list.new }
{
    if 63 < lexer.depth {
        return stays(lexer, count);
    }
    let next = kept(layout, list, count, lexer, token, 1);
    Turns {
        on: true,
        lexer: next.push(codes, code),
        count: count + 1,
    }
}

// A token of so many ASCII bytes that keeps the modes.
pub fn passed(
    layout: Layout,
    source: &[u8],
    table: &[u32],
    edition: u32,
    codes: &[u16; 64],
    list: &mut [u32],
    count: usize,
    lexer: Lexer,
    token: Token,
    len: usize,
) -> Turns
    requires { Ready layout source.now table.now edition lexer codes.now count list.old (line_taken token len Keep (settled lexer)) }
    ensures { TurnsIs layout source.now table.now edition lexer codes.now count list.old result codes.now list.new }
{
    Turns {
        on: true,
        lexer: kept(layout, list, count, lexer, token, len),
        count: count + 1,
    }
}

// A token of so many ASCII bytes that pops a mode.
pub fn closed(
    layout: Layout,
    source: &[u8],
    table: &[u32],
    edition: u32,
    codes: &[u16; 64],
    list: &mut [u32],
    count: usize,
    lexer: Lexer,
    token: Token,
    len: usize,
) -> Turns
    requires { Ready layout source.now table.now edition lexer codes.now count list.old (line_taken token len Pop (settled lexer)) }
    ensures { TurnsIs layout source.now table.now edition lexer codes.now count list.old result codes.now list.new }
{
    let next = kept(layout, list, count, lexer, token, len);
    Turns {
        on: true,
        lexer: next.pop(codes),
        count: count + 1,
    }
}
