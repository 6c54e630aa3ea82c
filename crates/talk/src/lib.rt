// The desk's answers in words, put onto a lent page.

#![tactic(auto)]

pub mod help;
pub mod replies;
pub mod who;
