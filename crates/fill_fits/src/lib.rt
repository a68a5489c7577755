// Whether a fill can be read back with its options (document 02, C-10): a fill of one character stands before a sign, "0" before a width, and
// what the arm of a cluster gets alone or, unless a sign would be joined to it, before one. It writes nothing.
#![tactic(auto)]

ghost use Rattle.std.specs.Prelude.{◌≡◌, length};
ghost use Rattle.utf8.specs.Encode.{WellFormed};
ghost use Rattle.utf8.specs.Chars.{chars};
ghost use Rattle.property.specs.Table.{properties_at, Rises};
ghost use Rattle.fitness.specs.Fit.{FitTable};
ghost use Rattle.wanted.specs.Wanted.{Bytes, Unfilled};
ghost use Rattle.wanted.specs.Candidate.{wanted_by, is_default, has_tail, is_taken, one_fits, chars_fit, fill_fits};
ghost use Rattle.fill_fits.specs.Apart.{last_of, joins_sign, Begins};

use asked::Fields;
use base::chars::{DOT, LESS, ZERO};
use format_number::peek;
use format_options::Alignment;
use format_options::letters::{NO_CHAR, is_digit, is_sign, representation_of};
use uax29::{Left, is_joined};

fn is_default(alignment: Alignment) -> bool
    ensures { result ≡ is_default alignment }
{
    matches!(alignment, Alignment::Default)
}

// Whether anything stands behind the sign.
fn has_tail(fields: Fields) -> bool
    ensures { result ≡ has_tail fields.width fields.precision fields.representation }
{
    fields.width.is_some() || (fields.precision.is_some() || fields.representation.is_some())
}

// Whether an arm before that of a cluster takes the character, whatever follows it.
fn is_taken(c: u32) -> bool
    ensures { result ≡ is_taken c }
{
    is_sign(c) || (is_digit(c) || representation_of(c).is_some())
}

// Whether a fill of one character fits.
fn one_fits(c: u32, fields: Fields) -> bool
    ensures { result ≡ one_fits (wanted_by fields Unfilled) c }
{
    if !is_default(fields.alignment) {
        return true;
    }
    if c == ZERO {
        return fields.width.is_some();
    }
    if has_tail(fields) {
        return false;
    }
    !is_taken(c)
}

// The last character of a fill, or 0 where there is none.
fn last_code(fill: &[u8]) -> u32
    ensures { result ≡ last_of 0 (chars fill.now) }
{
    let mut at = 0;
    let mut last = 0;
    loop {
        let Ok((code, len)) = utf8::read_char(fill, at) else {
            return last;
        };
        last = code;
        at += len;
    }
}

// Whether a sign behind the fill would be joined to it: of what stands before a sign, the rules ask the last character alone (GB9b).
fn joins_sign(fill: &[u8], table: &[u32], edition: u32) -> bool
    requires { Rises table.now }
    ensures { result ≡ joins_sign (properties_at table.now) edition (chars fill.now) }
{
    let last = property::lookup(table, last_code(fill));
    let sign = property::lookup(table, LESS);
    let left = Left::new();
    is_joined(edition, left.pass(last), sign)
}

// Whether a fill of more characters fits, which begins with c and d.
fn many_fits(fill: &[u8], table: &[u32], edition: u32, fields: Fields, c: u32, d: u32) -> bool
    requires { Begins (chars fill.now) c d × WellFormed fill.now × FitTable table.now }
    ensures { result ≡ chars_fit (properties_at table.now) edition (wanted_by fields Unfilled) (chars fill.now) }
{
    if is_taken(c) {
        return false;
    }
    if c == DOT {
        return false;
    }
    if is_sign(d) {
        return false;
    }
    if cluster::cluster_end(fill, table, edition, 0) < fill.len() {
        return false;
    }
    if is_default(fields.alignment) {
        return !has_tail(fields);
    }
    !joins_sign(fill, table, edition)
}

// Whether a fill of well-formed bytes fits.
fn chars_fit(fill: &[u8], table: &[u32], edition: u32, fields: Fields) -> bool
    requires { WellFormed fill.now × FitTable table.now }
    ensures { result ≡ chars_fit (properties_at table.now) edition (wanted_by fields Unfilled) (chars fill.now) }
{
    let Ok((code, len)) = utf8::read_char(fill, 0) else {
        return false;
    };
    let next = peek(fill, len);
    if next == NO_CHAR {
        return one_fits(code, fields);
    }
    many_fits(fill, table, edition, fields, code, next)
}

// Whether a fill fits: not where its bytes are wrong or cut.
pub fn fill_fits(fill: &[u8], table: &[u32], edition: u32, fields: Fields) -> bool
    requires { FitTable table.now }
    ensures { result ≡ fill_fits (properties_at table.now) edition (wanted_by fields (Bytes fill.now)) (Bytes fill.now) }
{
    match utf8::check_utf8(fill) {
        Err(_) => false,
        Ok(()) => chars_fit(fill, table, edition, fields),
    }
}
