// What a program prints, as a function of its input: only reading and writing are left to the program itself.

#![tactic(auto)]

pub mod notary;
pub mod paper;
