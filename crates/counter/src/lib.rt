// What lasts from line to line: the facility, and the bytes of its answers. Also the input, line by line, and a line served.

#![tactic(auto)]

pub mod input;
pub mod kept;
pub mod line;
pub mod service;
