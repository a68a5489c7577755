// Padding (document 02, C-11): a text between fills, so that its clusters and the fills reach a width. This is our product's rule and not
// koto's. Clusters are counted in the text and in the fill, each by itself and never across a joint.
// An alignment and a width come as the numbers that the parse of a format string tells. It knows no format strings.
#![tactic(auto)]

pub mod answer;

ghost use Rattle.std.specs.Prelude.{◌≡◌, true, ◌≤◌, [], length, is_some, unwrap_or};
ghost use Rattle.std.specs.Option.{option_copied};
ghost use Rattle.utf8.specs.Encode.{WellFormed};
ghost use Rattle.property.specs.Table.{properties_at};
ghost use Rattle.fitness.specs.Fit.{FitTable};
ghost use Rattle.pad_input.specs.Check.{text_most};
ghost use Rattle.fills.specs.Pad.{is_width};
ghost use Rattle.pad.specs.Call.{error_of, PadsText, Pads};

use cluster_count::count_clusters;
use fills::{fills_of, put_padded};
use input::Refusal;
use pad_input::{PadRefusal, check_pad};

// What `pad` refuses.
#[derive(Clone, Copy, Debug, PartialEq, Eq)]
pub enum PadError {
    // 1 of the text or of a fill that is given, 17, 2, 3 and 15 of the text: they come before any work, as do the next two.
    Refused(Refusal),
    // 3 and 15 of the fill, with the offset in its own bytes.
    FillRefused(Refusal),
    // 18: the number of the alignment or the width is none, or a fill that is given is not exactly one cluster. Its place is 0.
    NoSuchFormat,
    // 19: the buffer is shorter than the padded text. Its place is 0.
    NoRoom,
}

// What the checks refuse, `pad` refuses.
impl From<PadRefusal> for PadError {
    ghost from_gives = { λ e r. r ≡ error_of e };

    fn from(refusal: PadRefusal) -> PadError {
        match refusal {
            PadRefusal::Refused(refusal) => PadError::Refused(refusal),
            PadRefusal::FillRefused(refusal) => PadError::FillRefused(refusal),
            PadRefusal::NoSuchFormat => PadError::NoSuchFormat,
        }
    }
}

// Pads a text that no check refuses. How many bytes are needed is known before one is written.
fn pad_text(
    text: &[u8],
    alignment: u64,
    width: u64,
    fill: &[u8],
    table: &[u32],
    edition: u32,
    buffer: &mut [u8],
) -> Result<usize, PadError>
    requires well_formed { WellFormed text.now × FitTable table.now × (length text.now ≤ text_most) × (length fill.now ≤ text_most) }
    requires width_value { is_width width ≡ true }
    ensures { PadsText (properties_at table.now) edition text.now alignment width fill.now
        buffer.old buffer.new result }
{
    let clusters = count_clusters(text, table, edition);
    let n = fills_of(width, clusters);
    let needed = text.len() + n * fill.len();
    if buffer.len() < needed {
        return Err(PadError::NoRoom);
    }
    Ok(put_padded(buffer, text, fill, alignment, n))
}

// Writes the padded text to the start of a lent buffer, with the fill that is given or with spaces; bytes past it stay. Refused are a text or
// a fill that is too long, then an edition that is none, then a table that is unfit, then bytes of the text that are wrong or cut, then those
// of the fill, then what is no format, then a buffer that is too short; each writes nothing. A fill that is not given is not looked at.
pub fn pad(
    text: &[u8],
    alignment: u64,
    width: u64,
    fill: Option<&[u8]>,
    table: &[u32],
    edition: u32,
    buffer: &mut [u8],
) -> Result<usize, PadError>
    ensures { Pads text.now alignment width
        (is_some fill.entry) (unwrap_or (option_copied fill.entry) []) table.now edition
        buffer.old buffer.new result }
{
    check_pad(text, alignment, width, fill, table, edition)?;
    pad_text(
        text,
        alignment,
        width,
        fill.unwrap_or(b" "),
        table,
        edition,
        buffer,
    )
}
