// The modes of operation, FIPS PUB 81: from a lent text into a lent output.
ghost use Rattle.std.specs.Prelude.{◌≡◌, ◌++◌, ◌≤◌, ◌%◌, length, drop};
ghost use Rattle.engine.specs.Fips46.{computed};
ghost use Rattle.fips81.specs.Fips81.{turned, keys_for, given, left, blocks, joined};
ghost use Rattle.cipher.specs.Cipher.{way_of, direction_of, fitting, outcome_of, applied};

use crate::keys::{DataKey, Vector};
use engine::{bytes_of, compute, key_schedule, reversed, word_of};
use fips81::Turn;

// By the names of their commands: E enciphers, D deciphers. CFB is the one of 64 bits.
#[derive(Clone, Copy)]
pub enum Mode {
    Ecbe,
    Ecbd,
    Cbce,
    Cbcd,
    Cfbe,
    Cfbd,
}

// The text is no whole number of blocks (a record: empty); or the output is shorter than the text.
#[derive(Clone, Copy, PartialEq, Eq, Debug)]
pub enum Misfit {
    BadLength,
    NoRoom,
}

fn turn_of(mode: Mode, keys: &[u64], vector: u64, block: u64) -> Turn
    ensures { result ≡ turned (way_of mode) (direction_of mode) (computed keys.now) vector block }
{
    match mode {
        Mode::Ecbe | Mode::Ecbd => Turn {
            gives: compute(keys, block),
            leaves: vector,
        },
        Mode::Cbce => {
            let enciphered = compute(keys, block ^ vector);
            Turn {
                gives: enciphered,
                leaves: enciphered,
            }
        }
        Mode::Cbcd => Turn {
            gives: compute(keys, block) ^ vector,
            leaves: block,
        },
        Mode::Cfbe => {
            let fed_back = block ^ compute(keys, vector);
            Turn {
                gives: fed_back,
                leaves: fed_back,
            }
        }
        Mode::Cfbd => Turn {
            gives: block ^ compute(keys, vector),
            leaves: block,
        },
    }
}

// ECB and CBC decipher with the keys reversed. CFB runs the cipher forwards both ways.
fn keys_for(mode: Mode, key: u64) -> [u64; 16]
    ensures { result ≡ keys_for (way_of mode) (direction_of mode) key }
{
    let keys = key_schedule(key);
    match mode {
        Mode::Ecbd | Mode::Cbcd => reversed(keys),
        Mode::Ecbe | Mode::Cbce | Mode::Cfbe | Mode::Cfbd => keys,
    }
}

// Every block of the text through the mode; the vector afterwards comes back.
fn run(mode: Mode, keys: &[u64], vector: u64, text: &[u8], out: &mut [u8]) -> u64
    requires { (length text.now % 8 ≡ 0) × (length text.now ≤ length out.old) }
    ensures { let turn = turned (way_of mode) (direction_of mode) (computed keys.now) in
        (result ≡ left turn vector (blocks text.now))
        × (out.new ≡ joined (given turn vector (blocks text.now)) ++ drop (length text.now) out.old) }
{
    let (blocks, _) = text.as_chunks::<8>();
    let mut v = vector;
    for (i, block) in blocks.iter().enumerate() {
        let at = 8 * i;
        let t = turn_of(mode, keys, v, word_of(*block));
        out[at..at + 8].copy_from_slice(&bytes_of(t.gives));
        v = t.leaves;
    }
    v
}

#[tactic(auto, unfolding(crate::specs::Cipher::fitting))]
fn fits(text: &[u8], out: &[u8]) -> Result<(), Misfit>
    ensures { result ≡ fitting text.now out.now }
{
    if text.len() % 8 != 0 {
        return Err(Misfit::BadLength);
    }
    if out.len() < text.len() {
        return Err(Misfit::NoRoom);
    }
    Ok(())
}

pub fn apply(
    mode: Mode,
    key: DataKey,
    vector: Vector,
    text: &[u8],
    out: &mut [u8],
) -> Result<Vector, Misfit>
    ensures { outcome_of result vector.0 out.new ≡ applied mode key.0 vector.0 text.now out.old }
{
    fits(text, out)?;
    let keys = keys_for(mode, word_of(key.0));
    let after = run(mode, &keys, word_of(vector.0), text, out);
    Ok(Vector(bytes_of(after)))
}
