// The property table (document 01, "The property table"): the parts of a code point's properties, and what a table says of a code point. The
// Rust asks its Unicode crates instead; here the table is lent.
// It knows nothing of which tables are fit (the crate `fitness`), UTF-8, clusters and tokens: a code point is a number.
#![tactic(auto)]

mod parts;

ghost use Rattle.std.specs.Prelude.{◌≡◌, ◌<◌, length, get_or};
ghost use Rattle.property.specs.Parts.{properties_of};
ghost use Rattle.property.specs.Table.{properties_at, Rises, HasRun};
ghost use Rattle.property.specs.Near.{has_code};

pub use parts::{class_of, incb_of, is_id_continue, is_id_start, is_pict, width_of};

// The run that has a code point, by halving: it is from lo on and before hi.
pub fn run_of(table: &[u32], code: u32) -> usize
    requires { Rises table.now }
    ensures { HasRun table.now code result }
{
    let mut lo = 0;
    let mut hi = table.len();
    while lo + 1 < hi {
        let mid = (lo + hi) / 2;
        if code < table[mid] / 2048 {
            hi = mid;
        } else {
            lo = mid;
        }
    }
    lo
}

// Whether a run has a code point, by its own start and the next one's.
fn has_code(table: &[u32], code: u32, run: usize) -> bool
    ensures { result ≡ has_code table.now code run }
{
    if table.len() <= run {
        return false;
    }
    if code < table[run] / 2048 {
        return false;
    }
    if run + 1 == table.len() {
        return true;
    }
    code < table[run + 1] / 2048
}

// The run that has a code point. The run `near` is tried first; it may be any number.
pub fn run_near(table: &[u32], code: u32, near: usize) -> usize
    requires { Rises table.now }
    ensures { HasRun table.now code result }
{
    if has_code(table, code, near) {
        return near;
    }
    run_of(table, code)
}

// The properties of a run's code points.
pub fn properties_in(table: &[u32], run: usize) -> u32
    requires { run < length table.now }
    ensures { result ≡ properties_of (get_or table.now run 0) }
{
    table[run] % 2048
}

// The properties of a code point.
pub fn lookup(table: &[u32], code: u32) -> u32
    requires { Rises table.now }
    ensures { result ≡ properties_at table.now code }
{
    properties_in(table, run_of(table, code))
}
