// Commands in a loop, for bench/ to time from C. No part of the product: no crate stands on it.
// Each function returns how many of its n commands were refused. None should be, and bench/ tests that. What a turn is given
// depends on the turn before, so that no compiler can do the work once for all.

#![tactic(auto)]

use admission::ras;
use cipher::keys::{DataKey, InterchangeKey};
use cipher::modes::Mode;
use exchange::data_keys::ldk;
use officer::rpw;
use records::by_mode;
use rules::{Outcome, Refusal};
use state::interchanges::change_key;
use state::places::{fresh_facility, keep, nothing_held};
use state::{Facility, Held, Holdings, Place, Side};

const OLD: InterchangeKey = InterchangeKey([0xFE, 0xFE, 0xFE, 0xF4, 0xFE, 0xFE, 0xFE, 0xF4]);

const CURRENT: InterchangeKey = InterchangeKey([0x01, 0x01, 0x01, 0x0B, 0x01, 0x01, 0x01, 0x0B]);

const DATA: DataKey = DataKey([0x01, 0x23, 0x45, 0x67, 0x89, 0xAB, 0xCD, 0xEF]);

// Both keys of interchange 1, and users 100 to 114 in all places but the last. They are set and not kept: places handed to
// `keep` would be cleared first, by `memset`, a name that the archive would then need.
fn fifteen() -> Facility {
    let f = change_key(fresh_facility(), 1, OLD, false);
    let mut f = change_key(f, 1, CURRENT, false);
    for (place, user) in f.places.iter_mut().zip(100..115) {
        *place = Place {
            taken: true,
            user,
            holdings: nothing_held(),
        };
    }
    f
}

// User 5 in the last place, with a transmit key.
fn sixteen() -> Facility {
    let nothing = nothing_held();
    let transmit = Side {
        key: Held::of(DATA),
        ..nothing.transmit
    };
    keep(
        fifteen(),
        5,
        Holdings {
            transmit,
            ..nothing
        },
    )
}

fn refusals(so_far: u64, met: &Result<Outcome, Refusal>) -> u64 {
    so_far.wrapping_add(u64::from(met.is_err()))
}

// The password of eight zero bytes, by the sixteenth user.
#[unsafe(no_mangle)]
pub extern "C" fn speed_ras(table: &[u8], n: u64) -> u64 {
    let f = fifteen();
    let mut refused = 0;
    for _ in 0..n {
        let user = 5 + (refused % 2) as u32;
        refused = refusals(refused, &ras(f, table, user, [0; 8]));
    }
    refused
}

// Whether LDK is refused; the facility becomes what it leaves. A function of its own: within the loop a refusal would clear a
// whole Result by `memset`.
fn is_refused(f: &mut Facility) -> bool {
    match ldk(*f, 5, 100, 1, b't', [0; 8]) {
        Ok(outcome) => {
            *f = outcome.state;
            false
        }
        Err(_) => true,
    }
}

#[unsafe(no_mangle)]
pub extern "C" fn speed_ldk(n: u64) -> u64 {
    let mut f = sixteen();
    let mut refused: u64 = 0;
    for _ in 0..n {
        refused = refused.wrapping_add(u64::from(is_refused(&mut f)));
    }
    refused
}

// One block; the next is what it was enciphered to.
#[unsafe(no_mangle)]
pub extern "C" fn speed_ecbe(n: u64) -> u64 {
    let f = sixteen();
    let mut refused = 0;
    let mut text = [0; 8];
    for _ in 0..n {
        let mut out = [0; 8];
        let met = by_mode(f, 5, Mode::Ecbe, &text, &mut out);
        refused = refusals(refused, &met);
        text = out;
    }
    refused
}

// Each time from the old key to the current one, whatever the entries then hold.
#[unsafe(no_mangle)]
pub extern "C" fn speed_rpw(table: &mut [u8], n: u64) -> u64 {
    let f = Facility {
        due: true,
        ..fifteen()
    };
    let mut refused = 0;
    for _ in 0..n {
        refused = refusals(refused, &rpw(f, table));
    }
    refused
}
