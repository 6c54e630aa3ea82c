// A text of three blocks by a mode, in both directions. A refusal would leave the output all zeros, which is no published text.
ghost use Rattle.std.specs.Prelude.{◌≡◌, ◌+◌, ◌++◌, replicate, slice_index};
ghost use Rattle.cipher.specs.Bits.{bytes};
ghost use Rattle.cipher.specs.Cipher.{applied};
ghost use Rattle.vectors.specs.Answers.{one};

use crate::answers::{Place, Tally};
use crate::fips_81::{CBC, CFB64, ECB, KEY, PLAIN, VECTOR};
use crate::report::line;
use cipher::bytes_of;
use cipher::keys::{DataKey, Vector};
use cipher::modes::{Mode, apply};

// The text of three published blocks.
fn text_of(blocks: [u64; 3]) -> [u8; 24]
    ensures { result ≡ bytes (slice_index blocks 0) ++ (bytes (slice_index blocks 1) ++ bytes (slice_index blocks 2)) }
{
    let [first, second, third] = blocks;
    let parts = [bytes_of(first), bytes_of(second), bytes_of(third)];
    let mut text = [0; 24];
    text.copy_from_slice(parts.as_flattened());
    text
}

fn answered(
    place: Place,
    mode: Mode,
    key: DataKey,
    vector: Vector,
    text: &[u8],
    published: &[u8],
) -> u64
    ensures { result ≡ one (applied mode key.0 vector.0 text.now (replicate 24 0)).output published.now }
{
    let mut out = [0u8; 24];
    _ = apply(mode, key, vector, text, &mut out);
    place.judged(&out, published)
}

#[tactic(auto, using(crate::proofs::Counting::one_most))]
fn run(group: &[u8], enciphering: Mode, deciphering: Mode, published: [u64; 3]) -> Tally
    ensures { result.enciphered + result.deciphered + result.wrong ≡ 2 }
{
    let place = Place { group, row: 1 };
    let key = DataKey(bytes_of(KEY));
    let vector = Vector(bytes_of(VECTOR));
    let cipher = text_of(published);
    let enciphered = answered(place, enciphering, key, vector, &PLAIN, &cipher);
    let deciphered = answered(place, deciphering, key, vector, &cipher, &PLAIN);
    let tally = Tally {
        enciphered,
        deciphered,
        wrong: 2 - (enciphered + deciphered),
    };
    line(group, tally);
    tally
}

pub fn all() -> Tally {
    let ecb = run(b"ecb", Mode::Ecbe, Mode::Ecbd, ECB);
    let cbc = run(b"cbc", Mode::Cbce, Mode::Cbcd, CBC);
    let cfb64 = run(b"cfb64", Mode::Cfbe, Mode::Cfbd, CFB64);
    ecb.plus(cbc).plus(cfb64)
}
