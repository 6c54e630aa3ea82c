// The data encryption standard (FIPS PUB 46) on words of 64 bits: its tables, the rounds and the key schedule.

#![tactic(auto)]

mod rounds;
mod schedule;
mod tables;
mod words;

pub use rounds::compute;
pub use schedule::{key_schedule, reversed};
pub use words::{bytes_of, first_block, word_of};
