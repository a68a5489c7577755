// The site profile (document 02, C-14): a scan that also refuses raw strings and templates inside templates.
//
// It scans as the crate `scan` does and then looks along the records for the first forbidden token. It knows neither how a token is read nor a
// record's words.
#![tactic(auto)]

pub mod answer;

ghost use Rattle.std.specs.Prelude.{◌≡◌, ◌≤◌};
ghost use Rattle.rows.specs.Row.{room, shown_at};
ghost use Rattle.profile.specs.declared.ProfileError.TheVariants.{Scan};
ghost use Rattle.profile.specs.Profile.{judged, Profiles};
ghost use Rattle.forbidden.specs.Pass.{is_inner, is_forbidden_by, opener_after, forbidden_at, opener_at, pass_from};

use reading::{Scan, ScanError};
use rows::Row;
use token::kinds::{CURLY_OPEN, STRING_START};

// Why a scan by the profile is refused.
#[derive(Clone, Copy, Debug, PartialEq, Eq)]
pub enum ProfileError {
    // The scan was refused, as it is.
    Scan(ScanError),
    // Refusal 21: the scan was not refused and has `count` records, of which record `index` is the first of a forbidden token.
    NotInProfile { count: usize, index: usize },
}

impl From<ScanError> for ProfileError {
    ghost from_gives = { λ s e. e ≡ Scan s };

    fn from(e: ScanError) -> ProfileError {
        ProfileError::Scan(e)
    }
}

// Whether a "{" at this depth opens a template inside a template, where no token before it is forbidden. `opener` is the kind of the last
// record of depth 2: at depth 3 a string has been opened by it, or a map.
fn is_inner(opener: u32, depth: u32) -> bool
    ensures { result ≡ is_inner opener depth }
{
    if depth == 3 {
        return opener == (STRING_START as u32);
    }
    4 <= depth
}

// Whether the token of a record is forbidden, where none before it is.
fn is_forbidden(opener: u32, row: Row) -> bool
    ensures { result ≡ is_forbidden_by opener row }
{
    if row.kind == (STRING_START as u32) {
        return 2 <= row.detail;
    }
    if row.kind == (CURLY_OPEN as u32) {
        return is_inner(opener, row.depth);
    }
    false
}

// The kind of the last record of depth 2, with this one.
fn opener_after(opener: u32, row: Row) -> u32
    ensures { result ≡ opener_after opener row }
{
    if row.depth == 2 {
        return row.kind;
    }
    opener
}

// The same of what stands at an index of a list: a scan writes no record that may not be shown.
fn forbidden_at(opener: u32, at: Option<Row>) -> bool
    ensures { result ≡ forbidden_at opener at }
{
    match at {
        Some(row) => is_forbidden(opener, row),
        None => false,
    }
}

fn opener_at(opener: u32, at: Option<Row>) -> u32
    ensures { result ≡ opener_at opener at }
{
    match at {
        Some(row) => opener_after(opener, row),
        None => opener,
    }
}

// The first forbidden record of so many, or their count.
fn first_forbidden(list: &[u32], count: usize) -> usize
    requires { count ≤ room list.now }
    ensures { result ≡ pass_from (shown_at list.now) 0 0 count }
{
    let mut opener = 0;
    for i in 0..count {
        let at = rows::row_at(list, i);
        if forbidden_at(opener, at) {
            return i;
        }
        opener = opener_at(opener, at);
    }
    count
}

// A scan of so many records that was not refused, by the profile.
fn judge(list: &[u32], count: usize, scan: Scan) -> Result<Scan, ProfileError>
    requires { count ≤ room list.now }
    ensures { result ≡ judged (pass_from (shown_at list.now) 0 0 count) count scan }
{
    let index = first_forbidden(list, count);
    if index < count {
        return Err(ProfileError::NotInProfile { count, index });
    }
    Ok(scan)
}

// Scans as `scan` does, and then refuses with 21 where a token is forbidden, at the first of them; the list keeps the whole scan. A scan that is
// refused is refused as it was.
pub fn scan_profile(
    source: &[u8],
    table: &[u32],
    edition: u32,
    list: &mut [u32],
) -> Result<Scan, ProfileError>
    ensures { Profiles source.now table.now edition list.old result list.new }
{
    let scan = scan::scan(source, table, edition, &mut *list)?;
    match scan {
        Scan::End { count, .. } => judge(list, count, scan),
        Scan::Stuck { count, .. } => judge(list, count, scan),
    }
}
