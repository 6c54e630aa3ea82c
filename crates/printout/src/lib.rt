// The lines that NOTARY prints, put onto a lent page.

#![tactic(auto)]

pub mod digits;
pub mod lines;
pub mod page;
