// Bytes, words and bits. The first byte and the first bit of a word stand at the left.
ghost use Rattle.std.specs.Prelude.{◌≡◌, ◌<◌, ◌≤◌, ◌^◌, T, length, get_or};
ghost use Rattle.ground.specs.Tests.{within};
ghost use Rattle.ground.specs.Lists.{padded};
ghost use Rattle.engine.specs.Bits.{permuted, word, bytes};

// The bits of `x`, a word of `w` bits, that the table names, in the table's order.
pub fn permute(w: u64, table: &[u8], x: u64) -> u64
    requires { (w ≤ 64) × (length table.now ≤ 64) × T (within 1 w table.now) }
    ensures { (result ≡ permuted w table.now x) × (result < 2 ^ length table.now) }
{
    let mut bits: u64 = 0;
    for n in table {
        let right = w - u64::from(*n);
        bits = bits * 2 + (x >> right) % 2;
    }
    bits
}

// The first eight bytes of `s` as a word; where there are fewer, zero bytes on the right.
// Byte by byte: copying a part of no fixed length calls `memcpy`, and `libdoor.a` would ask C for that name.
pub fn first_block(s: &[u8]) -> u64
    ensures { result ≡ word (padded 8 s.now) }
{
    let mut x: u64 = 0;
    for i in 0..8 {
        x = x * 256 + u64::from(s.get(i).copied().unwrap_or(0));
    }
    x
}

pub fn word_of(b: [u8; 8]) -> u64
    ensures { result ≡ word b }
{
    u64::from_be_bytes(b)
}

pub fn bytes_of(x: u64) -> [u8; 8]
    ensures { result ≡ bytes x }
{
    x.to_be_bytes()
}
