// Writing format options (document 02, C-10): the shortest format string that the parser reads back as these options, and the first in byte
// order of those. The options come as the numbers that the parse of a format string tells, and the fill by its bytes.
// Left out: which fills fit (`fill_fits`), and the parts behind the fill (`format_parts`).
#![tactic(auto)]

pub mod answer;

ghost use Rattle.std.specs.Prelude.{◌≡◌, true, ◌≤◌, [], length, ◌++◌, leb, is_some, unwrap_or};
ghost use Rattle.std.specs.Option.{option_copied};
ghost use Rattle.property.specs.Table.{properties_at};
ghost use Rattle.fitness.specs.Fit.{FitTable};
ghost use Rattle.base.specs.Refusal.{format_most};
ghost use Rattle.wanted.specs.Wanted.{Bytes};
ghost use Rattle.wanted.specs.Candidate.{wanted_by, candidate, writable};
ghost use Rattle.format_parts.specs.Parts.{parts_of};
ghost use Rattle.writer.specs.declared.WriteError.TheVariants.{Refused};
ghost use Rattle.writer.specs.Call.{WritesIf, Writes};

use asked::{Fields, are_fields, fields_of};
use fill_fits::fill_fits;
use format_parts::{parts_len, put_parts};
use input::{FORMAT_MOST, Refusal, check_input};
use pool::copy_in;

// What `write_format` refuses, under document 02's names.
#[derive(Clone, Copy, Debug, PartialEq, Eq)]
pub enum WriteError {
    // 17 and 2, which come before any work.
    Refused(Refusal),
    // 18: no format string is read back as the options. Its place is 0.
    NoSuchFormat,
    // 19: the buffer is shorter than the format string. Its place is 0.
    NoRoom,
}

impl From<Refusal> for WriteError {
    ghost from_gives = { λ r e. e ≡ Refused r };

    fn from(r: Refusal) -> WriteError {
        WriteError::Refused(r)
    }
}

// Writes a fill that fits and what stands behind it: how many bytes they have, which is known before one is written.
fn put_format(fields: Fields, fill: &[u8], buffer: &mut [u8]) -> Result<usize, WriteError>
    ensures { WritesIf (leb (length (fill.now ++ parts_of fields)) format_most) (fill.now ++ parts_of fields)
        buffer.old buffer.new result }
{
    let needed = fill.len() + parts_len(fields);
    if FORMAT_MOST < needed {
        return Err(WriteError::NoSuchFormat);
    }
    if buffer.len() < needed {
        return Err(WriteError::NoRoom);
    }
    copy_in(fill, buffer, 0);
    Ok(put_parts(buffer, fill.len(), fields))
}

// The same for a fill that may not fit.
fn write_filled(
    fields: Fields,
    fill: &[u8],
    table: &[u32],
    edition: u32,
    buffer: &mut [u8],
) -> Result<usize, WriteError>
    requires { FitTable table.now }
    ensures { WritesIf (writable (properties_at table.now) edition (wanted_by fields (Bytes fill.now)))
        (candidate (wanted_by fields (Bytes fill.now))) buffer.old buffer.new result }
{
    if fill_fits(fill, table, edition, fields) {
        return put_format(fields, fill, buffer);
    }
    Err(WriteError::NoSuchFormat)
}

// Writes the format string for options to the start of a lent buffer: how many bytes it has. Bytes past it stay. Refused are an edition that is
// none, then a table that is unfit, then options as which no format string is read back, then a buffer that is too short; each writes nothing. A
// fill that is not given is not looked at.
pub fn write_format(
    alignment: u64,
    width: u64,
    precision: u64,
    representation: u64,
    fill: Option<&[u8]>,
    table: &[u32],
    edition: u32,
    buffer: &mut [u8],
) -> Result<usize, WriteError>
    ensures { Writes alignment width precision representation
        (is_some fill.entry) (unwrap_or (option_copied fill.entry) []) table.now edition
        buffer.old buffer.new result }
{
    check_input(b"", table, edition, 0)?;
    if !are_fields(alignment, width, precision, representation) {
        return Err(WriteError::NoSuchFormat);
    }
    let fields = fields_of(alignment, width, precision, representation);
    match fill {
        Some(fill) => write_filled(fields, fill, table, edition, buffer),
        None => put_format(fields, b"", buffer),
    }
}
