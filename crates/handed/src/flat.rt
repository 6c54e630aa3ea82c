// A place as bytes, in the order in which they are printed: the user, and of each side the key and the vector, each after its mark.
ghost use Rattle.std.specs.Prelude.{◌≡◌, ◌+◌, length};

use crate::bytes::joined;
use state::{Facility, Place, Side};

fn marked<const N: usize>(mark: bool, bytes: &[u8]) -> [u8; N]
    requires { 1 + length bytes.now ≡ N }
{
    joined(&[u8::from(mark)], bytes)
}

fn flat_side(s: Side) -> [u8; 18] {
    let key: [u8; 9] = marked(s.key.present, &s.key.value.0);
    let vector: [u8; 9] = marked(s.vector.present, &s.vector.value.0);
    joined(&key, &vector)
}

pub fn flat(p: Place) -> [u8; 41] {
    let user: [u8; 5] = marked(p.taken, &p.user.to_be_bytes());
    let transmit = flat_side(p.holdings.transmit);
    let receive = flat_side(p.holdings.receive);
    let sides: [u8; 36] = joined(&transmit, &receive);
    joined(&user, &sides)
}

// All places but i are the same, with every byte that stands beside a mark of missing.
pub fn are_others_alike(f: Facility, g: Facility, i: usize) -> bool {
    let places = f.places.iter().zip(g.places.iter());
    places.enumerate().all(|(j, (a, b))| j == i || a == b)
}
