// Blocks and keys of the data encryption standard (FIPS PUB 46), and its modes of operation (FIPS PUB 81, FIPS PUB 113).
// A layer above knows it by its contracts and by the laws of `proofs/Promise.antt`.

#![tactic(auto)]

pub mod block;
pub mod fixity;
pub mod keys;
pub mod modes;

pub use engine::{bytes_of, word_of};
