// States as they are handed in: written out, and not made by commands.
ghost use Rattle.std.specs.Prelude.{◌≡◌, ◌<◌};
ghost use Rattle.handed.specs.Given.{missing, both, all_missing};

use crate::published::{HIGH_KEY, LOW_KEY, ZEROS};
use cipher::keys::{DataKey, InterchangeKey, Vector};
use cipher::modes::Mode;
use state::{Facility, Held, Holdings, Place, Side};

// The modes, with the names of their commands.
pub const MODES: [([u8; 4], Mode); 6] = [
    (*b"ECBE", Mode::Ecbe),
    (*b"ECBD", Mode::Ecbd),
    (*b"CBCE", Mode::Cbce),
    (*b"CBCD", Mode::Cbcd),
    (*b"CFBE", Mode::Cfbe),
    (*b"CFBD", Mode::Cfbd),
];

// Interchange keys, and none.
pub const LOW: Held<InterchangeKey> = Held {
    present: true,
    value: InterchangeKey(LOW_KEY),
};

pub const HIGH: Held<InterchangeKey> = Held {
    present: true,
    value: InterchangeKey(HIGH_KEY),
};

pub const NONE: Held<InterchangeKey> = Held {
    present: false,
    value: InterchangeKey(ZEROS),
};

// Marked missing, whatever stands beside the mark.
pub fn missing<T>(value: T) -> Held<T>
    ensures { result ≡ missing value }
{
    Held {
        present: false,
        value,
    }
}

pub fn side(key: Held<DataKey>, vector: Held<Vector>) -> Side
    ensures { result ≡ record { key = key; vector = vector } }
{
    Side { key, vector }
}

// The same on both sides.
pub fn both(side: Side) -> Holdings
    ensures { result ≡ both side }
{
    Holdings {
        transmit: side,
        receive: side,
    }
}

// These eight bytes, marked missing, as each key and each vector.
pub fn all_missing(bytes: [u8; 8]) -> Holdings
    ensures { result ≡ all_missing bytes }
{
    both(side(missing(DataKey(bytes)), missing(Vector(bytes))))
}

pub fn nothing() -> Holdings {
    all_missing(ZEROS)
}

// These eight bytes as each key and each vector.
pub fn all_of(bytes: [u8; 8]) -> Holdings {
    both(side(Held::of(DataKey(bytes)), Held::of(Vector(bytes))))
}

pub fn place(user: u32, holdings: Holdings) -> Place {
    Place {
        taken: true,
        user,
        holdings,
    }
}

// A free place: nobody's, whatever it holds.
pub fn free(holdings: Holdings) -> Place {
    Place {
        taken: false,
        user: 0,
        holdings,
    }
}

// Interchange 1 has these keys and the others none; no users.
pub fn facility(current: Held<InterchangeKey>, old: Held<InterchangeKey>, due: bool) -> Facility {
    let mut f = Facility {
        current_keys: [NONE; 15],
        old_keys: [NONE; 15],
        due,
        places: [free(nothing()); 16],
    };
    f.current_keys[0] = current;
    f.old_keys[0] = old;
    f
}

// In turn, with a current key that user 5's published answers go with.
pub fn ready() -> Facility {
    facility(LOW, NONE, false)
}

// The same with user 5 active.
pub fn active(holdings: Holdings) -> Facility {
    seated(ready(), 0, place(5, holdings))
}

pub fn seated(f: Facility, i: usize, p: Place) -> Facility
    requires { i < 16 }
{
    let mut g = f;
    g.places[i] = p;
    g
}
