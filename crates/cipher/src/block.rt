// One block of eight bytes, enciphered and deciphered.
ghost use Rattle.std.specs.Prelude.{◌≡◌};
ghost use Rattle.cipher.specs.Cipher.{enciphered, deciphered};

use crate::keys::{DataKey, NotarizedKey};
use engine::{bytes_of, compute, key_schedule, reversed, word_of};

#[tactic(auto, unfolding(fips81::specs::Keyed::enciphered, engine::specs::Fips46::encipher))]
fn forwards(key: [u8; 8], block: [u8; 8]) -> [u8; 8]
    ensures { result ≡ enciphered key block }
{
    let keys = key_schedule(word_of(key));
    bytes_of(compute(&keys, word_of(block)))
}

#[tactic(auto, unfolding(fips81::specs::Keyed::deciphered, engine::specs::Fips46::decipher))]
fn backwards(key: [u8; 8], block: [u8; 8]) -> [u8; 8]
    ensures { result ≡ deciphered key block }
{
    let keys = reversed(key_schedule(word_of(key)));
    bytes_of(compute(&keys, word_of(block)))
}

// Each direction twice, and not generic in the key: by document 01 no operation of the build may take one kind where another belongs.

pub fn encipher(key: DataKey, block: [u8; 8]) -> [u8; 8]
    ensures { result ≡ enciphered key.0 block }
{
    forwards(key.0, block)
}

pub fn decipher(key: DataKey, block: [u8; 8]) -> [u8; 8]
    ensures { result ≡ deciphered key.0 block }
{
    backwards(key.0, block)
}

// A data key or a password, enciphered under a notarized key.
pub fn seal(key: NotarizedKey, block: [u8; 8]) -> [u8; 8]
    ensures { result ≡ enciphered key.0 block }
{
    forwards(key.0, block)
}

pub fn unseal(key: NotarizedKey, block: [u8; 8]) -> [u8; 8]
    ensures { result ≡ deciphered key.0 block }
{
    backwards(key.0, block)
}
