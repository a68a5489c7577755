// What every call over bytes and a table asks before it works (document 01, "Refusal numbers"; document 02, C-3 and C-8): whether the bytes are
// too many, the edition of the cluster rules is none, the table is unfit, or the bytes are ill-formed, wrong or cut, in this order, as one
// answer. It knows no tokens, no clusters and no formats; how many bytes are too many is the caller's number.
#![tactic(auto)]

pub mod answer;

ghost use Rattle.std.specs.Prelude.{◌≡◌};
ghost use Rattle.utf8.specs.Chars.{check_from};
ghost use Rattle.fitness.specs.Fit.{table_check};
ghost use Rattle.input.specs.Input.{of_table, of_utf8, on_table, on_utf8, input_check};

use fitness::TableError;
use utf8::Utf8Error;

// A source has at most this many bytes.
pub const SOURCE_MOST: usize = 1_048_576;

// A format string has at most this many bytes.
pub const FORMAT_MOST: usize = 65_535;

// The editions of the cluster rules: 1 without GB9c, as before Unicode 15.1, and 2 with it.
pub const WITHOUT_GB9C: u32 = 1;

pub const WITH_GB9C: u32 = 2;

// A refusal that comes before any work, under its document's name. An answer that may be one of these carries it as one case.
#[derive(Clone, Copy, Debug, PartialEq, Eq)]
pub enum Refusal {
    // 1: more bytes than the call takes. Its place is 0.
    TooLong,
    // 17: the number is no edition. Its place is 0.
    BadEdition,
    // 2: the table is unfit, with its place.
    BadTable(usize),
    // 3: the bytes are wrong from this offset on.
    BadUtf8(usize),
    // 15: the end cuts the character that begins at this offset.
    CutUtf8(usize),
}

impl From<TableError> for Refusal {
    ghost from_gives = { λ e r. r ≡ of_table e };

    fn from(e: TableError) -> Refusal {
        match e {
            TableError::BadTable(i) => Refusal::BadTable(i),
        }
    }
}

impl From<Utf8Error> for Refusal {
    ghost from_gives = { λ e r. r ≡ of_utf8 e };

    fn from(e: Utf8Error) -> Refusal {
        match e {
            Utf8Error::BadAt(i) => Refusal::BadUtf8(i),
            Utf8Error::CutAt(i) => Refusal::CutUtf8(i),
        }
    }
}

// The checks of a table and of bytes that are not too many.
fn check_table_and_bytes(bytes: &[u8], table: &[u32]) -> Result<(), Refusal>
    ensures { result ≡ on_table (table_check table.now) (on_utf8 (check_from 0 bytes.now)) }
{
    fitness::check_table(table)?;
    utf8::check_utf8(bytes)?;
    Ok(())
}

// Whether a call that takes at most so many bytes may work on these bytes, this table and this edition.
pub fn check_input(bytes: &[u8], table: &[u32], edition: u32, most: usize) -> Result<(), Refusal>
    ensures { result ≡ input_check most bytes.now table.now edition }
{
    if most < bytes.len() {
        return Err(Refusal::TooLong);
    }
    if base::code_between(edition, WITHOUT_GB9C, WITH_GB9C) {
        return check_table_and_bytes(bytes, table);
    }
    Err(Refusal::BadEdition)
}
