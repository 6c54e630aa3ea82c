// Tables of blocks, their rows key, plain block, cipher block. Each row is run in both directions.
ghost use Rattle.std.specs.Prelude.{◌≡◌};
ghost use Rattle.cipher.specs.Bits.{bytes};
ghost use Rattle.cipher.specs.Cipher.{enciphered, deciphered};
ghost use Rattle.vectors.specs.Answers.{one, tallied};

use crate::answers::{Place, Tally};
use crate::report::line;
use crate::sp500_20::{INITIAL_PERMUTATION, KEY_PERMUTATION, PERMUTATION, SUBSTITUTION};
use cipher::block::{decipher, encipher};
use cipher::bytes_of;
use cipher::keys::DataKey;

fn forwards(place: Place, key: u64, plain: u64, published: u64) -> u64
    ensures { result ≡ one (enciphered (bytes key) (bytes plain)) (bytes published) }
{
    let answer = encipher(DataKey(bytes_of(key)), bytes_of(plain));
    place.judged(&answer, &bytes_of(published))
}

fn backwards(place: Place, key: u64, cipher: u64, published: u64) -> u64
    ensures { result ≡ one (deciphered (bytes key) (bytes cipher)) (bytes published) }
{
    let answer = decipher(DataKey(bytes_of(key)), bytes_of(cipher));
    place.judged(&answer, &bytes_of(published))
}

#[tactic(auto, using(crate::proofs::Counting::one_most))]
fn run(group: &[u8], table: &[u64]) -> Tally
    ensures { result ≡ tallied table.now }
{
    let (rows, _) = table.as_chunks::<3>();
    let mut enciphered: u64 = 0;
    let mut deciphered: u64 = 0;
    for (i, &[key, plain, cipher]) in rows.iter().enumerate() {
        let place = Place { group, row: i + 1 };
        enciphered += forwards(place, key, plain, cipher);
        deciphered += backwards(place, key, cipher, plain);
    }
    let tally = Tally {
        enciphered,
        deciphered,
        wrong: 2 * (rows.len() as u64) - (enciphered + deciphered),
    };
    line(group, tally);
    tally
}

pub fn all() -> Tally {
    let a = run(b"initial-permutation", &INITIAL_PERMUTATION);
    let b = run(b"key-permutation", &KEY_PERMUTATION);
    let c = run(b"permutation", &PERMUTATION);
    let d = run(b"substitution", &SUBSTITUTION);
    a.plus(b).plus(c).plus(d)
}
