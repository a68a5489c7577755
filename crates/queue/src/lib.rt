// The Rust's queue, line by line: `KotoLexer`'s `next` and `peek`, and that a cursor over a list says the same, whatever was called before.
// There is no code here; see specs/.
#![tactic(auto)]
