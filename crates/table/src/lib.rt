// The password table: lent bytes, in entries of twelve.

#![tactic(auto)]

pub mod entries;
pub mod passwords;
