// What `pad` asks before it works (document 02, C-11): whether the text or the fill is too long, the edition none, the table unfit, the bytes
// of the text or of the fill ill-formed, or the format none, in this order, as one answer. It knows nothing of what is then written.
#![tactic(auto)]

ghost use Rattle.std.specs.Prelude.{◌≡◌, [], is_some, unwrap_or};
ghost use Rattle.std.specs.Option.{option_copied};
ghost use Rattle.property.specs.Table.{properties_at};
ghost use Rattle.fitness.specs.Fit.{FitTable};
ghost use Rattle.pad_input.specs.declared.PadRefusal.TheVariants.{Refused};
ghost use Rattle.pad_input.specs.Check.{long_fill, is_format, format_check, fill_check, pad_check};

use cluster_count::count_clusters;
use fills::{RIGHT, is_width};
use input::{Refusal, check_input};

// A text, and a fill, has at most this many bytes.
const TEXT_MOST: usize = 65535;

// What the checks refuse.
#[derive(Clone, Copy, Debug, PartialEq, Eq)]
pub enum PadRefusal {
    // 1 of the text or of a fill that is given, 17, 2, 3 and 15 of the text.
    Refused(Refusal),
    // 3 and 15 of the fill, with the offset in its own bytes.
    FillRefused(Refusal),
    // 18: the number of the alignment or the width is none, or a fill that is given is not exactly one cluster. Its place is 0.
    NoSuchFormat,
}

impl From<Refusal> for PadRefusal {
    ghost from_gives = { λ r e. e ≡ Refused r };

    fn from(r: Refusal) -> PadRefusal {
        PadRefusal::Refused(r)
    }
}

// Whether a fill is given and too long.
fn is_long(fill: Option<&[u8]>) -> bool
    ensures { result ≡ long_fill (is_some fill.entry) (unwrap_or (option_copied fill.entry) []) }
{
    match fill {
        Some(fill) => TEXT_MOST < fill.len(),
        None => false,
    }
}

// Whether two numbers are an alignment and a width.
fn is_format(alignment: u64, width: u64) -> bool
    ensures { result ≡ is_format alignment width }
{
    alignment <= RIGHT && is_width(width)
}

fn check_format(alignment: u64, width: u64) -> Result<(), PadRefusal>
    ensures { result ≡ format_check alignment width }
{
    if is_format(alignment, width) {
        return Ok(());
    }
    Err(PadRefusal::NoSuchFormat)
}

// The questions after those about the text, where a fill is given.
fn check_fill(
    alignment: u64,
    width: u64,
    fill: &[u8],
    table: &[u32],
    edition: u32,
) -> Result<(), PadRefusal>
    requires { FitTable table.now }
    ensures { result ≡ fill_check (properties_at table.now) edition alignment width fill.now }
{
    match utf8::check_utf8(fill) {
        Err(error) => Err(PadRefusal::FillRefused(Refusal::from(error))),
        Ok(()) => {
            if count_clusters(fill, table, edition) == 1 {
                return check_format(alignment, width);
            }
            Err(PadRefusal::NoSuchFormat)
        }
    }
}

// Whether a text may be padded so. A fill that is given is looked at whether or not it will be needed. That it is too long is asked first: it is told
// as of the text, which `check_input` asks next.
pub fn check_pad(
    text: &[u8],
    alignment: u64,
    width: u64,
    fill: Option<&[u8]>,
    table: &[u32],
    edition: u32,
) -> Result<(), PadRefusal>
    ensures { result ≡ pad_check text.now alignment width
        (is_some fill.entry) (unwrap_or (option_copied fill.entry) []) table.now edition }
{
    if is_long(fill) {
        return Err(PadRefusal::Refused(Refusal::TooLong));
    }
    check_input(text, table, edition, TEXT_MOST)?;
    match fill {
        Some(fill) => check_fill(alignment, width, fill, table, edition),
        None => check_format(alignment, width),
    }
}
