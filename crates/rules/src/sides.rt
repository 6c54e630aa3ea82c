// Pairs, and the two sides of a user's place.
ghost use Rattle.std.specs.Prelude.{◌≡◌};
ghost use Rattle.rules.specs.Sides.{pair_key, side_for, loaded, vectored, with_key, with_vector, mode_side, after_mode};

use crate::Function;
use cipher::keys::{DataKey, InterchangeKey, NotarizedKey, Vector};
use cipher::modes::Mode;
use keys::notarize;
use state::{Held, Holdings, Side};

// The interchange key notarized with the pair that the function names: the sender first.
#[tactic(auto, unfolding(crate::specs::Sides::pair_key))]
pub fn pair_key(function: Function, key: InterchangeKey, issuer: u32, party: u32) -> NotarizedKey
    ensures { result.0 ≡ pair_key function key.0 issuer party }
{
    match function {
        Function::Transmit => notarize(key, issuer, party),
        Function::Receive => notarize(key, party, issuer),
        Function::Both | Function::Neither => notarize(key, issuer, issuer),
    }
}

#[tactic(auto, unfolding(crate::specs::Sides::side_for))]
pub fn side_for(function: Function, h: Holdings) -> Side
    ensures { result ≡ side_for function h }
{
    match function {
        Function::Receive => h.receive,
        Function::Transmit | Function::Both | Function::Neither => h.transmit,
    }
}

// A side with a key just loaded: its vector is removed.
fn loaded_side(key: DataKey) -> Side
    ensures { result ≡ loaded key }
{
    Side {
        key: Held::of(key),
        vector: Held {
            present: false,
            value: Vector([0; 8]),
        },
    }
}

fn vectored_side(vector: Vector, side: Side) -> Side
    ensures { result ≡ vectored vector side }
{
    Side {
        vector: Held::of(vector),
        ..side
    }
}

#[tactic(auto, unfolding(crate::specs::Sides::with_key))]
pub fn with_key(function: Function, key: DataKey, h: Holdings) -> Holdings
    ensures { result ≡ with_key function key h }
{
    let side = loaded_side(key);
    match function {
        Function::Transmit => Holdings {
            transmit: side,
            ..h
        },
        Function::Receive => Holdings { receive: side, ..h },
        Function::Both => Holdings {
            transmit: side,
            receive: side,
        },
        Function::Neither => h,
    }
}

#[tactic(auto, unfolding(crate::specs::Sides::with_vector))]
pub fn with_vector(function: Function, vector: Vector, h: Holdings) -> Holdings
    ensures { result ≡ with_vector function vector h }
{
    let transmit = vectored_side(vector, h.transmit);
    let receive = vectored_side(vector, h.receive);
    match function {
        Function::Transmit => Holdings { transmit, ..h },
        Function::Receive => Holdings { receive, ..h },
        Function::Both => Holdings { transmit, receive },
        Function::Neither => h,
    }
}

// E commands use the transmit side, D commands the receive side.
#[tactic(auto, unfolding(crate::specs::Sides::mode_side))]
pub fn mode_side(mode: Mode, h: Holdings) -> Side
    ensures { result ≡ mode_side mode h }
{
    match mode {
        Mode::Ecbe | Mode::Cbce | Mode::Cfbe => h.transmit,
        Mode::Ecbd | Mode::Cbcd | Mode::Cfbd => h.receive,
    }
}

// ECB alters nothing held.
#[tactic(auto, unfolding(crate::specs::Sides::after_mode))]
pub fn after_mode(mode: Mode, vector: Vector, h: Holdings) -> Holdings
    ensures { result ≡ after_mode mode vector h }
{
    match mode {
        Mode::Ecbe | Mode::Ecbd => h,
        Mode::Cbce | Mode::Cfbe => with_vector(Function::Transmit, vector, h),
        Mode::Cbcd | Mode::Cfbd => with_vector(Function::Receive, vector, h),
    }
}
