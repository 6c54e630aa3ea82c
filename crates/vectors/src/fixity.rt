// The fixity value of a record.
ghost use Rattle.std.specs.Prelude.{◌≡◌, ◌+◌};
ghost use Rattle.cipher.specs.Bits.{bytes};
ghost use Rattle.cipher.specs.Cipher.{valued};
ghost use Rattle.vectors.specs.Answers.{one};

use crate::answers::{Place, Tally};
use crate::fips113::{KEY, PLAIN, VALUE, VECTOR};
use crate::report::line;
use cipher::bytes_of;
use cipher::fixity::fixity_of;
use cipher::keys::{DataKey, Vector};

fn answered(place: Place, key: DataKey, vector: Vector, plain: &[u8], published: u64) -> u64
    ensures { result ≡ one (valued key.0 vector.0 plain.now).value (bytes published) }
{
    let value = fixity_of(key, vector, plain).unwrap_or([0; 8]);
    place.judged(&value, &bytes_of(published))
}

// A value is an enciphering; nothing is deciphered.
#[tactic(auto, using(crate::proofs::Counting::one_most))]
pub fn run(group: &[u8]) -> Tally
    ensures { result.enciphered + result.deciphered + result.wrong ≡ 1 }
{
    let place = Place { group, row: 1 };
    let key = DataKey(bytes_of(KEY));
    let vector = Vector(bytes_of(VECTOR));
    let right = answered(place, key, vector, &PLAIN, VALUE);
    let tally = Tally {
        enciphered: right,
        deciphered: 0,
        wrong: 1 - right,
    };
    line(group, tally);
    tally
}
