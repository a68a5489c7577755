// A scan's answer, number by number, for whoever prints it or hands it on.
ghost use Rattle.std.specs.Prelude.{◌≡◌};
ghost use Rattle.reading.specs.Scan.{number_of, place_of, count_of};
ghost use Rattle.reading.specs.Status.{status_of, half_status_of};

use crate::{Scan, ScanError};
use base::refusals::{LIST_FULL, MODES_FULL, NO_REFUSAL};

// How a scan ends, as a number: what a cursor over its list carries.
pub const END: u32 = 0;

pub const STUCK: u32 = 1;

// The scan was refused: a cursor made of this is refused too.
pub const REFUSED: u32 = 2;

// The same as the first two of a list with records at half the size: a cursor over it carries its layout.
pub const END_HALF: u32 = 3;

pub const STUCK_HALF: u32 = 4;

// The refusal's number; 0 where there is no refusal.
pub fn number_of(scanned: Result<Scan, ScanError>) -> u32
    ensures { result ≡ number_of scanned }
{
    match scanned {
        Ok(_) => NO_REFUSAL,
        Err(ScanError::Refused(refusal)) => input::answer::number_of(refusal),
        Err(ScanError::ListFull { .. }) => LIST_FULL,
        Err(ScanError::ModesFull { .. }) => MODES_FULL,
    }
}

// The refusal's place; the current byte where there is no refusal.
pub fn place_of(scanned: Result<Scan, ScanError>) -> usize
    ensures { result ≡ place_of scanned }
{
    match scanned {
        Ok(Scan::End { byte, .. } | Scan::Stuck { byte, .. }) => byte,
        Err(ScanError::Refused(refusal)) => input::answer::place_of(refusal),
        Err(ScanError::ListFull { byte, .. } | ScanError::ModesFull { byte, .. }) => byte,
    }
}

// How many records were written.
pub fn count_of(scanned: Result<Scan, ScanError>) -> usize
    ensures { result ≡ count_of scanned }
{
    match scanned {
        Ok(Scan::End { count, .. } | Scan::Stuck { count, .. }) => count,
        Err(ScanError::Refused(_)) => 0,
        Err(ScanError::ListFull { count, .. } | ScanError::ModesFull { count, .. }) => count,
    }
}

// How it ended.
pub fn status_of(scanned: Result<Scan, ScanError>) -> u32
    ensures { result ≡ status_of scanned }
{
    match scanned {
        Ok(Scan::End { .. }) => END,
        Ok(Scan::Stuck { .. }) => STUCK,
        Err(_) => REFUSED,
    }
}

// How it ended, into records at half the size.
pub fn half_status_of(scanned: Result<Scan, ScanError>) -> u32
    ensures { result ≡ half_status_of scanned }
{
    match scanned {
        Ok(Scan::End { .. }) => END_HALF,
        Ok(Scan::Stuck { .. }) => STUCK_HALF,
        Err(_) => REFUSED,
    }
}
