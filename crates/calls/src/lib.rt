// What the two test programs share: the fields of a call, how the file that lists the calls is read, and how answers are shown.
#![tactic(auto)]

mod fields;
mod file;
mod shown;

pub use fields::{Field, Room, counted};
pub use file::read_full;
pub use shown::{print, print_bytes, print_offset};

// A byte of a buffer before a call: one that the call should not touch shows as aa.
pub const UNTOUCHED: u8 = 0xAA;
