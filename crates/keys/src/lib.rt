// Parity, and notarizing an interchange key with a pair of users.

#![tactic(auto)]

ghost use Rattle.std.specs.Prelude.{◌≡◌, ◌<◌, ◌/◌, ◌%◌};
ghost use Rattle.keys.specs.Keys.{odd, mixed, parity_of, notarized};

use cipher::keys::{InterchangeKey, NotarizedKey};

// Seven bits, and behind them the bit that makes the number of ones odd.
fn odd_byte(bits: u8) -> u8
    requires { bits < 128 }
    ensures { result ≡ odd bits }
{
    bits * 2 + u8::from(bits.count_ones() % 2 == 0)
}

// The leftmost seven bits stay; what the last bit was plays no part.
fn with_parity(byte: u8) -> u8
    ensures { result ≡ odd (byte / 2) }
{
    odd_byte(byte / 2)
}

// The last seven bits of `group` into the leftmost seven of the byte.
fn mix(byte: u8, group: u32) -> u8
    ensures { result ≡ mixed byte (group % 128) }
{
    odd_byte((byte / 2) ^ ((group % 128) as u8))
}

pub fn set_parity(b: [u8; 8]) -> [u8; 8]
    ensures { result ≡ parity_of b }
{
    b.map(with_parity)
}

// The sender's identifier goes into the first four bytes, the receiver's into the last four. A loop is no plainer: each byte has a group of its own.
pub fn notarize(key: InterchangeKey, sender: u32, receiver: u32) -> NotarizedKey
    ensures { result.0 ≡ notarized key.0 sender receiver }
{
    let b = key.0;
    NotarizedKey([
        mix(b[0], sender / 2097152),
        mix(b[1], sender / 16384),
        mix(b[2], sender / 128),
        mix(b[3], sender),
        mix(b[4], receiver / 2097152),
        mix(b[5], receiver / 16384),
        mix(b[6], receiver / 128),
        mix(b[7], receiver),
    ])
}
