// The modes of operation as definitions (FIPS PUB 81, FIPS PUB 113), and their laws on words.
// No crate but `cipher` lists this one, so no other can name what stands here.

#![tactic(auto)]

// What a mode makes of one block: the block that it gives, and the vector that it leaves for the next.
#[derive(Clone, Copy)]
pub struct Turn {
    pub gives: u64,
    pub leaves: u64,
}
