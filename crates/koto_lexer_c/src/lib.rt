// The calls for C (include/koto_lexer.h), each the call of its name in a library of this repository, under the same clauses: a slice is a pointer and a length
// in C, an array a pointer.
#![tactic(auto)]

mod lists;
mod one_pool;
mod padding;
mod texts;
mod two_desks;
mod walks;
