// The refusals, each where its condition holds, and the conditions.
ghost use Rattle.std.specs.Prelude.{◌≡◌, true, false, None, Some, MatchResult};
ghost use Rattle.state.specs.State.{find};
ghost use Rattle.rules.specs.Sides.{function_of, unknown, wrong_pair, lacks_vector};
ghost use Rattle.rules.specs.Refusals.{big_pair, bad_length, bad_blocks, of_own};

use crate::{Function, Refusal};
use cipher::modes::Mode;
use state::places::seat_of;
use state::{Facility, Held, Holdings};
use table::passwords::is_big;

// A command goes on past a condition that does not hold.
pub fn refuse(condition: bool, why: Refusal) -> Result<(), Refusal>
    ensures { MatchResult result (λ _. condition ≡ false) (λ e. (condition ≡ true) × (e ≡ why)) }
{
    if condition { Err(why) } else { Ok(()) }
}

// What is held, where it is present.
pub fn held<T: Copy>(it: Held<T>, why: Refusal) -> Result<T, Refusal>
    ensures { MatchResult result (λ x. (it.present ≡ true) × (it.value ≡ x)) (λ e. (it.present ≡ false) × (e ≡ why)) }
{
    it.known().ok_or(why)
}

// What the user holds, if he is active.
pub fn active(f: Facility, user: u32) -> Result<Holdings, Refusal>
    ensures { MatchResult result (λ h. find user f.places ≡ Some h) (λ e. (find user f.places ≡ None) × (e ≡ Refusal.NotActive)) }
{
    seat_of(f, user).ok_or(Refusal::NotActive)
}

#[tactic(auto, unfolding(crate::specs::Refusals::big_pair))]
pub fn is_big_pair(issuer: u32, party: u32) -> bool
    ensures { result ≡ big_pair issuer party }
{
    is_big(issuer) || is_big(party)
}

#[tactic(auto, unfolding(crate::specs::Sides::function_of))]
pub fn function_of(byte: u8) -> Function
    ensures { result ≡ function_of byte }
{
    match byte {
        b't' => Function::Transmit,
        b'r' => Function::Receive,
        b's' => Function::Both,
        _ => Function::Neither,
    }
}

#[tactic(auto, unfolding(crate::specs::Sides::unknown))]
pub fn is_unknown(function: Function) -> bool
    ensures { result ≡ unknown function }
{
    matches!(function, Function::Neither)
}

// No function, or s and "party equals issuer" do not agree.
#[tactic(auto, unfolding(crate::specs::Sides::wrong_pair))]
pub fn is_wrong_pair(function: Function, alike: bool) -> bool
    ensures { result ≡ wrong_pair function alike }
{
    match function {
        Function::Transmit | Function::Receive => alike,
        Function::Both => !alike,
        Function::Neither => true,
    }
}

#[tactic(auto, unfolding(crate::specs::Refusals::bad_length))]
pub fn is_bad_length(n: usize) -> bool
    ensures { result ≡ bad_length n }
{
    n == 0 || 32768 < n
}

#[tactic(auto, unfolding(crate::specs::Refusals::bad_blocks))]
pub fn is_bad_blocks(n: usize) -> bool
    ensures { result ≡ bad_blocks n }
{
    is_bad_length(n) || n % 8 != 0
}

// ECB needs no vector.
#[tactic(auto, unfolding(crate::specs::Sides::lacks_vector))]
pub fn lacks_vector(mode: Mode, present: bool) -> bool
    ensures { result ≡ lacks_vector mode present }
{
    match mode {
        Mode::Ecbe | Mode::Ecbd => false,
        Mode::Cbce | Mode::Cbcd | Mode::Cfbe | Mode::Cfbd => !present,
    }
}

// Interchange 1 is the facility's own.
#[tactic(auto, unfolding(crate::specs::Refusals::of_own))]
pub fn own_name(name: u8, yes: bool, no: bool) -> bool
    ensures { result ≡ of_own name yes no }
{
    if name == 1 { yes } else { no }
}
