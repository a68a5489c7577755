// The scan for C, and for whatever calls C (include/koto_lexer.h); the other calls stand in the crates `koto_next`, `koto_text`, `koto_pool` and
// their like.
//
// Each call takes every input, calls the inner function of its name, and hands its answer out as numbers: the refusal's number is returned, 0
// where there is none, and every other number goes to a place that the caller lends. All of these are written by every call, so no answer
// row can be short and nothing of an earlier call is left in one. A slice is a pointer and a length in C, an array a pointer.
#![tactic(auto)]

mod scans;

pub use scans::koto_scan;
