// The calls for C over a pool that two desks share (include/koto_lexer.h); the crates `koto_lexer`, `koto_pool` and `koto_pad` have the others.
//
// As there, each takes every input, calls the inner function of its name, and hands its answer out as numbers, all of which every call writes.
// The row of entries is flat here, two numbers for each, and the header tells it in entries. The counts are two numbers, and the desks eight: of
// the first desk what it is guaranteed and what it is charged, in entries and bytes, and then of the second.
#![tactic(auto)]

mod compacts;
mod formats;
mod strings;
mod words;

pub use compacts::koto_compact_flat;
pub use formats::koto_desk_parse_flat;
pub use strings::koto_desk_add_string_flat;
