// The fixity value of a record: FIPS PUB 113, from a vector where that starts from zero, and with the whole of the last block.
ghost use Rattle.std.specs.Prelude.{◌≡◌};
ghost use Rattle.engine.specs.Fips46.{computed};
ghost use Rattle.fips81.specs.Fips81.{chain, left, blocks, filled};
ghost use Rattle.cipher.specs.Cipher.{value_of, valued};

use crate::keys::{DataKey, Vector};
use crate::modes::Misfit;
use engine::{bytes_of, compute, first_block, key_schedule, word_of};

// CBC enciphering without its text: the last cipher block alone. `first_block` fills the last block with zero bytes.
fn chained(keys: &[u64], vector: u64, plain: &[u8]) -> u64
    ensures { result ≡ left (chain (computed keys.now)) vector (blocks (filled plain.now)) }
{
    let mut v = vector;
    for block in plain.chunks(8) {
        v = compute(keys, first_block(block) ^ v);
    }
    v
}

pub fn fixity_of(key: DataKey, vector: Vector, plain: &[u8]) -> Result<[u8; 8], Misfit>
    ensures { value_of result ≡ valued key.0 vector.0 plain.now }
{
    if plain.is_empty() {
        return Err(Misfit::BadLength);
    }
    let keys = key_schedule(word_of(key.0));
    Ok(bytes_of(chained(&keys, word_of(vector.0), plain)))
}
