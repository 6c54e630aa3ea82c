// The cipher function f, and the computation on a block with the keys of its rounds.
ghost use Rattle.std.specs.Prelude.{◌≡◌, ◌<◌, ◌^◌, T};
ghost use Rattle.ground.specs.Tests.{within};
ghost use Rattle.engine.specs.Bits.{permuted};
ghost use Rattle.engine.specs.Tables.{IP, IP⁻¹};
ghost use Rattle.engine.specs.Fips46.{selected, substituted, f, computed};

use crate::tables::{E, IP, IP_INVERSE, P, S1, S2, S3, S4, S5, S6, S7, S8};
use crate::words::permute;

// What the box gives for six bits: the first and the last name the row, the four between them the column.
fn select(s: &[u8; 64], b: u64) -> u64
    requires { (b < 64) × T (within 0 15 s.now) }
    ensures { (result ≡ selected s.now b) × (result < 16) }
{
    let at = ((b / 32) * 2 + b % 2) * 16 + (b / 2) % 16;
    u64::from(s[at as usize])
}

// A line for each box: a loop over the eight is no plainer, with a list of the boxes, a shift that is counted and an invariant.
fn substitute(b: u64) -> u64
    ensures { (result ≡ substituted b) × (result < 2 ^ 32) }
{
    let mut y: u64 = 0;
    y = y * 16 + select(&S1, (b >> 42) % 64);
    y = y * 16 + select(&S2, (b >> 36) % 64);
    y = y * 16 + select(&S3, (b >> 30) % 64);
    y = y * 16 + select(&S4, (b >> 24) % 64);
    y = y * 16 + select(&S5, (b >> 18) % 64);
    y = y * 16 + select(&S6, (b >> 12) % 64);
    y = y * 16 + select(&S7, (b >> 6) % 64);
    y = y * 16 + select(&S8, b % 64);
    y
}

// f(R, K)
fn cipher_function(r: u64, k: u64) -> u64
    ensures { (result ≡ f r k) × (result < 2 ^ 32) }
{
    let expanded = permute(32, &E, r);
    let chosen = substitute(k ^ expanded);
    permute(32, &P, chosen)
}

fn initial_permutation(x: u64) -> u64
    ensures { result ≡ permuted 64 IP x }
{
    permute(64, &IP, x)
}

fn inverse_permutation(x: u64) -> u64
    ensures { result ≡ permuted 64 IP⁻¹ x }
{
    permute(64, &IP_INVERSE, x)
}

// Sixteen keys encipher; the same sixteen from the last to the first decipher.
pub fn compute(keys: &[u64], block: u64) -> u64
    ensures { result ≡ computed keys.now block }
{
    let x = initial_permutation(block);
    let mut l = x >> 32;
    let mut r = x % 4294967296;
    for key in keys {
        let next = l ^ cipher_function(r, *key);
        l = r;
        r = next;
    }
    inverse_permutation(r * 4294967296 + l)
}
