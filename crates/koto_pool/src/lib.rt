// The two public calls for C that change a pool (include/koto_lexer.h); the crate `koto_lexer` has the others.
//
// As there, each takes every input, calls the inner function of its name, and hands its answer out as numbers. The pool is a row of bytes, a
// row of entries and the counts of what is in use, all lent by the caller. Each of the two only calls the inner function, and then `tell`.
#![tactic(auto)]

mod formats;
mod pools;

pub use formats::koto_parse;
pub use pools::koto_add_string;
