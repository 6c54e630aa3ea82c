// The interchanges, by their names 1 to 15.
ghost use Rattle.std.specs.Prelude.{◌≡◌, ◌-◌, ◌<◌, true};
ghost use Rattle.state.specs.State.{named, key_at, rekeyed};

use crate::{Facility, Held};
use cipher::keys::InterchangeKey;

pub(crate) const NO_KEY: Held<InterchangeKey> = Held {
    present: false,
    value: InterchangeKey([0; 8]),
};

pub fn is_name(name: u8) -> bool
    ensures { result ≡ named name }
{
    1 <= name && name <= 15
}

// Where the key of an interchange stands.
fn index_of(name: u8) -> usize
    requires { named name ≡ true }
    ensures { (result ≡ name - 1) × (result < 15) }
{
    usize::from(name - 1)
}

// A name that is none has no key.
fn key_at(keys: [Held<InterchangeKey>; 15], name: u8) -> Held<InterchangeKey>
    ensures { result ≡ key_at name keys }
{
    if is_name(name) {
        keys[index_of(name)]
    } else {
        NO_KEY
    }
}

pub fn current_key(f: Facility, name: u8) -> Held<InterchangeKey>
    ensures { result ≡ key_at name f.current_keys }
{
    key_at(f.current_keys, name)
}

pub fn old_key(f: Facility, name: u8) -> Held<InterchangeKey>
    ensures { result ≡ key_at name f.old_keys }
{
    key_at(f.old_keys, name)
}

// The current key of the interchange, even a missing one, becomes old, and the given one current; the mark DUE is set as said.
pub fn change_key(f: Facility, name: u8, key: InterchangeKey, due: bool) -> Facility
    ensures { result ≡ rekeyed name key due f }
{
    let mut g = Facility { due, ..f };
    if is_name(name) {
        let i = index_of(name);
        g.old_keys[i] = f.current_keys[i];
        g.current_keys[i] = Held::of(key);
    }
    g
}
