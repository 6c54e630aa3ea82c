// The sixteen places.
ghost use Rattle.std.specs.Prelude.{◌≡◌, not, position};
ghost use Rattle.state.specs.State.{bare, vacant, seat, has, find, shut_to, give, leave, fresh, with_places};
ghost use Rattle.state.specs.Located.{Located, Free};

use crate::interchanges::NO_KEY;
use crate::{Facility, Held, Holdings, Place, Side};
use cipher::keys::{DataKey, Vector};

pub fn nothing_held() -> Holdings
    ensures { result ≡ bare }
{
    let side = Side {
        key: Held {
            present: false,
            value: DataKey([0; 8]),
        },
        vector: Held {
            present: false,
            value: Vector([0; 8]),
        },
    };
    Holdings {
        transmit: side,
        receive: side,
    }
}

fn vacant_place() -> Place
    ensures { result ≡ vacant }
{
    Place {
        taken: false,
        user: 0,
        holdings: nothing_held(),
    }
}

fn place_for(user: u32, holdings: Holdings) -> Place
    ensures { result ≡ seat user holdings }
{
    Place {
        taken: true,
        user,
        holdings,
    }
}

// No keys, no users, not DUE.
pub fn fresh_facility() -> Facility
    ensures { result ≡ fresh }
{
    Facility {
        current_keys: [NO_KEY; 15],
        old_keys: [NO_KEY; 15],
        due: false,
        places: [vacant_place(); 16],
    }
}

// The first place of the user.
fn place_of(places: [Place; 16], user: u32) -> Option<usize>
    ensures found { result ≡ position (has user) places }
    ensures located { Located user places result }
{
    places.iter().position(|p| p.taken && p.user == user)
}

// The first free place.
fn free_place(places: [Place; 16]) -> Option<usize>
    ensures found { result ≡ position (λ p. not p.taken) places }
    ensures located { Free places result }
{
    places.iter().position(|p| !p.taken)
}

// What the user holds, if he is active: the first of his places counts.
pub fn seat_of(f: Facility, user: u32) -> Option<Holdings>
    ensures { result ≡ find user f.places }
{
    let i = place_of(f.places, user)?;
    Some(f.places[i].holdings)
}

// The user has no place, and all are taken.
pub fn is_shut_to(f: Facility, user: u32) -> bool
    ensures { result ≡ shut_to (find user f.places) f.places }
{
    place_of(f.places, user).is_none() && free_place(f.places).is_none()
}

// The user's holdings become these: in the place that he has, else in the first free place.
pub fn keep(f: Facility, user: u32, holdings: Holdings) -> Facility
    ensures { result ≡ with_places f (give user holdings f.places) }
{
    let mut g = f;
    if let Some(i) = place_of(f.places, user).or_else(|| free_place(f.places)) {
        g.places[i] = place_for(user, holdings);
    }
    g
}

// The user's place is freed, with all in it.
pub fn free_place_of(f: Facility, user: u32) -> Facility
    ensures { result ≡ with_places f (leave user f.places) }
{
    let mut places = f.places;
    if let Some(i) = place_of(places, user) {
        places[i] = vacant_place();
    }
    Facility { places, ..f }
}
