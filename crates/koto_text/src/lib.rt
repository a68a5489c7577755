// What C may ask of bytes and of property tables (include/koto_lexer.h): characters, a table and its file, a first cluster. The crate `koto_lexer`
// has the scan, and says how a call answers.
#![tactic(auto)]

mod bytes;
mod clusters;
mod tables;

pub use bytes::{koto_check_utf8, koto_read_char};
pub use clusters::koto_first_cluster;
pub use tables::{koto_check_table, koto_read_table};
