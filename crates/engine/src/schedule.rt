// The key schedule KS: from a key of 64 bits the sixteen keys of 48 bits.
ghost use Rattle.std.specs.Prelude.{◌≡◌, reverse, ◌≤◌, ◌<◌, ◌^◌};
ghost use Rattle.engine.specs.Fips46.{shifted, KS};

use crate::tables::{LEFT_SHIFTS, PC1, PC2};
use crate::words::permute;

// A half of 28 bits, shifted to the left; what leaves at the left comes in at the right.
fn left_shift(n: u64, c: u64) -> u64
    requires { (1 ≤ n) × (n ≤ 2) × (c < 2 ^ 28) }
    ensures { (result ≡ shifted n c) × (result < 2 ^ 28) }
{
    (c << n) % 268435456 + (c >> (28 - n))
}

pub fn key_schedule(key: u64) -> [u64; 16]
    ensures { result ≡ KS key }
{
    let x = permute(64, &PC1, key);
    let mut c = x >> 28;
    let mut d = x % 268435456;
    let mut keys = [0u64; 16];
    for (i, n) in LEFT_SHIFTS.iter().enumerate() {
        let n = u64::from(*n);
        c = left_shift(n, c);
        d = left_shift(n, d);
        keys[i] = permute(56, &PC2, c * 268435456 + d);
    }
    keys
}

// The keys in the order that deciphers.
pub fn reversed(mut keys: [u64; 16]) -> [u64; 16]
    ensures { result ≡ reverse keys }
{
    keys.reverse();
    keys
}
