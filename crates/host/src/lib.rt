// What hosts in C and Rust call, by way of host_c. A host lends its book and has it changed in place, with the promises of the calls by value; the other calls take the book by value.
#![tactic(auto)]

mod asked;
mod lent;
mod made;

pub use asked::{Side, Sides, painterend_depth, painterend_quote, painterend_volume};
pub use lent::{Ended, Passed, painterend_apply, painterend_run};
pub use made::{Made, painterend_new, painterend_register};
