// The counts and the desks as a caller in C holds them.
ghost use Rattle.std.specs.Prelude.{◌≡◌};
ghost use Rattle.koto_desks.specs.Words.{counts_in, count_words, desks_in, desk_words, which_of};

use desks::{Desk, Desks, Which};
use pool_rows::Counts;

// How many desks there are.
pub const DESKS: u32 = 2;

// The desk of a number below two.
pub fn which_of(desk: u32) -> Which
    ensures { result ≡ which_of desk }
{
    if desk == 0 {
        return Which::First;
    }
    Which::Second
}

// The counts of two numbers.
pub fn counts_in(words: &[u32; 2]) -> Counts
    ensures { result ≡ counts_in words.now }
{
    Counts {
        entries: words[0],
        bytes: words[1],
    }
}

// The two numbers of counts.
pub fn count_words(counts: Counts) -> [u32; 2]
    ensures { result ≡ count_words counts }
{
    [counts.entries, counts.bytes]
}

// The desks of eight numbers.
pub fn desks_in(words: &[u32; 8]) -> Desks
    ensures { result ≡ desks_in words.now }
{
    Desks {
        first: Desk {
            guaranteed: Counts {
                entries: words[0],
                bytes: words[1],
            },
            charged: Counts {
                entries: words[2],
                bytes: words[3],
            },
        },
        second: Desk {
            guaranteed: Counts {
                entries: words[4],
                bytes: words[5],
            },
            charged: Counts {
                entries: words[6],
                bytes: words[7],
            },
        },
    }
}

// The eight numbers of both desks.
pub fn desk_words(desks: Desks) -> [u32; 8]
    ensures { result ≡ desk_words desks }
{
    let first = desks.first;
    let second = desks.second;
    let owed = first.guaranteed;
    let held = first.charged;
    let also = second.guaranteed;
    let too = second.charged;
    [
        owed.entries,
        owed.bytes,
        held.entries,
        held.bytes,
        also.entries,
        also.bytes,
        too.entries,
        too.bytes,
    ]
}
