// What the programs `edges` and `holdings` hand in, and the lines that they print.

#![tactic(auto)]

pub mod answers;
pub mod bytes;
pub mod entries;
pub mod flat;
pub mod given;
pub mod published;
pub mod report;
