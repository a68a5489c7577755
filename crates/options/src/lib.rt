// Format options in a template (lexer.rs `consume_format_options`). It knows no list and no records.
//
// Q. Why are clusters used to find the fill character? A. Because Koto thinks of characters as grapheme clusters.
// Q. Why not simply find the first '}'? A. Because '}' is a valid fill character, so it needs to be checked for first.
#![tactic(auto)]

ghost use Rattle.std.specs.Prelude.{◌≡◌, ◌+◌, ◌≤◌, ◌<◌, ◌||◌, eqb, length, drop};
ghost use Rattle.base.specs.Refusal.{source_most};
ghost use Rattle.utf8.specs.Encode.{WellFormed};
ghost use Rattle.utf8.specs.Chars.{chars};
ghost use Rattle.property.specs.Table.{properties_at};
ghost use Rattle.fitness.specs.Fit.{FitTable};
ghost use Rattle.text.specs.Stands.{Stands, chars_from};
ghost use Rattle.state.specs.Lexer.{reach_of};
ghost use Rattle.options.specs.ConsumeFormatOptions.{skip_bytes, find_brace, consume_format_options};

use state::{Change, Lexer, Taken};
use text::byte_at;
use token::kinds;

// Where the first closing brace stands, from `at` on.
pub fn find_brace(source: &[u8], at: usize) -> Option<usize>
    requires { WellFormed (drop at source.now) }
    ensures { result ≡ find_brace at (chars (drop at source.now)) }
{
    for i in at..source.len() {
        if source[i] == b'}' {
            return Some(i);
        }
    }
    None
}

// '<', '>' or '^'
pub fn is_alignment(b: u32) -> bool
    ensures { result ≡ (eqb b 60 || (eqb b 94 || eqb b 62)) }
{
    b == 60 || (b == 94 || b == 62)
}

// Where the search for the brace begins: past a fill cluster and the alignment after it, if they are there. The alignment has to be a
// cluster by itself; read from its own start it is the same cluster, since nothing left of such a character matters.
fn skip_fill(source: &[u8], table: &[u32], edition: u32, at: usize) -> usize
    requires well_formed { WellFormed (drop at source.now) × (at ≤ length source.now) × (length source.now ≤ source_most) }
    requires fit_table { FitTable table.now }
    ensures { result ≡ at + skip_bytes (properties_at table.now) edition (chars (drop at source.now)) }
{
    let fill = cluster::cluster_end(source, table, edition, at);
    if !is_alignment(byte_at(source, fill)) {
        return at;
    }
    if cluster::cluster_end(source, table, edition, fill) == fill + 1 {
        return fill + 1;
    }
    at
}

// lexer.rs `consume_format_options`.
pub fn consume_format_options(source: &[u8], table: &[u32], edition: u32, lexer: Lexer) -> Taken
    requires { Stands source.now (reach_of lexer) × FitTable table.now }
    ensures { result ≡ consume_format_options (properties_at table.now) edition (chars_from source.now (reach_of lexer)) lexer }
{
    let reach = lexer.reach();
    let at = reach.byte.0;
    let Some(end) = find_brace(source, skip_fill(source, table, edition, at)) else {
        return lexer.stuck();
    };
    Taken {
        token: token::token_of(kinds::STRING_LITERAL),
        lexer: lexer.advance_line(end - at),
        change: Change::Pop,
    }
}
