// The answer of FIPS PUB 113: the whole of the last block.
pub const KEY: u64 = 0x0123456789ABCDEF;

pub const VECTOR: u64 = 0x0000000000000000;

pub const PLAIN: [u8; 28] = *b"7654321 Now is the time for ";

pub const VALUE: u64 = 0xF1D30F6849312CA4;
