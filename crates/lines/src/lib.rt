// What the programs share: reading a data file or standard input, its lines and their fields, and counting the cases that agree.
// tools/README.md describes the files. A function that calls a closure asks that it may, and no other has a `requires`, so that the programs
// need few proofs. This crate knows nothing of what is compared.
#![tactic(auto)]

mod fields;
mod files;
mod report;
mod rows;

pub use fields::{Fields, hex, number, past};
pub use files::{
    buffer, large_buffer, load_file, load_input, read_file, read_full, read_input, read_most,
};
pub use report::{print_each, replay};
pub use rows::within;
