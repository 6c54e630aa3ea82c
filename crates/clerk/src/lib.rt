// One line or one answer at a time: what a line says, its bytes in the stream, what the desk itself says of it, and an answer's bytes and words. Nothing is kept here.

#![tactic(auto)]

pub mod answers;
pub mod bytes;
pub mod heard;
pub mod replies;
pub mod told;
pub mod wrong;
