// A stream carried out on a facility, with a line for each command.

#![tactic(auto)]

pub mod run;
