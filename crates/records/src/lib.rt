// The six modes, and DAUT.

// What the check opens of the page's table to see that a command does what its row says.
#![tactic(auto, using(rules::proofs::Laws::by_effect), unfolding(rules::specs::Commands::tests, rules::specs::Commands::refusals, rules::specs::Commands::effect, rules::specs::Step::effected, rules::specs::Refusals::test, state::specs::State::seat_of))]

ghost use Rattle.std.specs.Prelude.{◌≡◌};
ghost use Rattle.rules.specs.Commands.{by, mode, DAUT};
ghost use Rattle.rules.specs.Outcomes.{Steps, StepsOutput};

use cipher::fixity::fixity_of;
use cipher::modes::{Mode, apply};
use rules::answers::{given, wrote};
use rules::conditions::{
    active, function_of, held, is_bad_blocks, is_bad_length, is_unknown, lacks_vector, refuse,
};
use rules::sides::{after_mode, mode_side, side_for};
use rules::{Outcome, Refusal};
use state::Facility;
use state::places::keep;
use table::passwords::is_big;

// ECBE, ECBD, CBCE, CBCD, CFBE and CFBD. Of an output that is too short it is `apply` that tells.
pub fn by_mode(
    f: Facility,
    issuer: u32,
    which: Mode,
    text: &[u8],
    out: &mut [u8],
) -> Result<Outcome, Refusal>
    ensures { StepsOutput f out.old (by issuer (mode which text.now)) result out.new }
{
    refuse(is_big(issuer), Refusal::Identifier)?;
    let holdings = active(f, issuer)?;
    let side = mode_side(which, holdings);
    let key = held(side.key, Refusal::KeyMissing)?;
    refuse(
        lacks_vector(which, side.vector.present),
        Refusal::VectorMissing,
    )?;
    refuse(is_bad_blocks(text.len()), Refusal::DataLength)?;
    let vector = apply(which, key, side.vector.value, text, out)?;
    let after = after_mode(which, vector, holdings);
    Ok(wrote(keep(f, issuer, after), text.len()))
}

// Over the plain record: t and s by the transmit side, r by the receive side.
pub fn daut(f: Facility, issuer: u32, function: u8, plain: &[u8]) -> Result<Outcome, Refusal>
    ensures { Steps f (by issuer (DAUT function plain.now)) result }
{
    let asked = function_of(function);
    refuse(is_big(issuer), Refusal::Identifier)?;
    let holdings = active(f, issuer)?;
    refuse(is_unknown(asked), Refusal::KeyFunction)?;
    let side = side_for(asked, holdings);
    let key = held(side.key, Refusal::KeyMissing)?;
    let vector = held(side.vector, Refusal::VectorMissing)?;
    refuse(is_bad_length(plain.len()), Refusal::DataLength)?;
    let value = fixity_of(key, vector, plain)?;
    Ok(given(f, value))
}
