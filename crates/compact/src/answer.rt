// The documents' numbers of what a compaction answers, and the counts and the desks after it, for whoever hands them on.
ghost use Rattle.std.specs.Prelude.{◌≡◌};
ghost use Rattle.compact.specs.Compact.{number_of, counts_after, desks_after};

use crate::{CompactError, Kept};
use base::refusals::{BAD_MARK, BAD_STATE, NO_REFUSAL};
use desks::Desks;
use pool_rows::Counts;

// The refusal's number; 0 where there is no refusal.
pub fn number_of(compaction: Result<Kept, CompactError>) -> u32
    ensures { result ≡ number_of compaction }
{
    match compaction {
        Ok(_) => NO_REFUSAL,
        Err(CompactError::BadMark) => BAD_MARK,
        Err(CompactError::BadState) => BAD_STATE,
    }
}

// The counts after it: a refusal leaves them.
pub fn counts_after(compaction: Result<Kept, CompactError>, had: Counts) -> Counts
    ensures { result ≡ counts_after compaction had }
{
    match compaction {
        Ok(kept) => kept.counts,
        Err(_) => had,
    }
}

// The desks after it: a refusal leaves them.
pub fn desks_after(compaction: Result<Kept, CompactError>, had: Desks) -> Desks
    ensures { result ≡ desks_after compaction had }
{
    match compaction {
        Ok(kept) => kept.desks,
        Err(_) => had,
    }
}
