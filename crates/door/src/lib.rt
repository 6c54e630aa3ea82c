// What C and Rust link: the cipher with a block as a number, its first byte at the left.

#![tactic(auto)]

ghost use Rattle.std.specs.Prelude.{◌≡◌};
ghost use Rattle.cipher.specs.Bits.{word, bytes};
ghost use Rattle.cipher.specs.Cipher.{enciphered, deciphered, valued, number};
ghost use Rattle.door.specs.Door.{asked, Moded, moded, Fixed, fixed};

use cipher::block::{decipher, encipher};
use cipher::fixity::fixity_of;
use cipher::keys::{DataKey, Vector};
use cipher::modes::{Misfit, Mode, apply};
use cipher::{bytes_of, word_of};

#[unsafe(no_mangle)]
pub extern "C" fn door_encipher(key: u64, block: u64) -> u64
    ensures { result ≡ word (enciphered (bytes key) (bytes block)) }
{
    word_of(encipher(DataKey(bytes_of(key)), bytes_of(block)))
}

#[unsafe(no_mangle)]
pub extern "C" fn door_decipher(key: u64, block: u64) -> u64
    ensures { result ≡ word (deciphered (bytes key) (bytes block)) }
{
    word_of(decipher(DataKey(bytes_of(key)), bytes_of(block)))
}

// The mode that a tag asks for: C names a mode by its command's tag, and may give any byte.
#[tactic(auto, unfolding(crate::specs::Door::asked))]
fn asked_by(tag: u8) -> Option<Mode>
    ensures { result ≡ asked tag }
{
    match tag {
        0x0A => Some(Mode::Ecbe),
        0x0B => Some(Mode::Ecbd),
        0x0C => Some(Mode::Cbce),
        0x0D => Some(Mode::Cbcd),
        0x0E => Some(Mode::Cfbe),
        0x0F => Some(Mode::Cfbd),
        _ => None,
    }
}

// What C is given: a number, the page's.
#[tactic(auto, unfolding(cipher::specs::Cipher::number))]
fn number_of(misfit: Misfit) -> u8
    ensures { result ≡ number (Err misfit) }
{
    match misfit {
        Misfit::BadLength => 12,
        Misfit::NoRoom => 13,
    }
}

// The tag's mode over the text, from the vector and into the output. A refusal (12, 13, or 16 for a tag of no mode)
// leaves both as they were.
#[unsafe(no_mangle)]
pub extern "C" fn door_mode(tag: u8, key: u64, vector: &mut u64, text: &[u8], out: &mut [u8]) -> u8
    ensures { ◌≡◌ {A = Moded} (record { answer = result; vector = vector.new; output = out.new }) (moded (asked tag) key vector.old text.now out.old) }
{
    let Some(mode) = asked_by(tag) else {
        return 16;
    };
    let v = Vector(bytes_of(*vector));
    match apply(mode, DataKey(bytes_of(key)), v, text, out) {
        Ok(after) => {
            *vector = word_of(after.0);
            0
        }
        Err(misfit) => number_of(misfit),
    }
}

// A record of no bytes is refused by 12, and its value is 0.
#[unsafe(no_mangle)]
pub extern "C" fn door_fixity(key: u64, vector: u64, plain: &[u8], value: &mut u64) -> u8
    ensures { ◌≡◌ {A = Fixed} (record { answer = result; value = value.new }) (fixed (valued (bytes key) (bytes vector) plain.now)) }
{
    match fixity_of(DataKey(bytes_of(key)), Vector(bytes_of(vector)), plain) {
        Ok(last) => {
            *value = word_of(last);
            0
        }
        Err(misfit) => {
            *value = 0;
            number_of(misfit)
        }
    }
}
