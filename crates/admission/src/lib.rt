// RAS, LAU and CPW: users come, go, and change their passwords; the host may log one out.

// What the check opens of the page's table to see that a command does what its row says.
#![tactic(auto, using(rules::proofs::Laws::by_effect), unfolding(rules::specs::Commands::tests, rules::specs::Commands::refusals, rules::specs::Commands::effect, rules::specs::Step::effected, rules::specs::Refusals::test, state::specs::State::seat_of))]

ghost use Rattle.std.specs.Prelude.{◌≡◌};
ghost use Rattle.rules.specs.Commands.{by, RAS, LAU, CPW, logout};
ghost use Rattle.rules.specs.Outcomes.{Steps, StepsTable};

use rules::answers::done;
use rules::conditions::{active, held, refuse};
use rules::{Outcome, Refusal};
use state::Facility;
use state::interchanges::current_key;
use state::places::{free_place_of, is_shut_to, keep, nothing_held, seat_of};
use table::entries::{is_fit, set_entry};
use table::passwords::{is_authentic, is_big, seal_password};

pub fn ras(f: Facility, table: &[u8], issuer: u32, password: [u8; 8]) -> Result<Outcome, Refusal>
    ensures { StepsTable f table.now (by issuer (RAS password)) result table.now }
{
    refuse(is_big(issuer), Refusal::Identifier)?;
    refuse(!is_fit(table.len()), Refusal::TableLength)?;
    refuse(seat_of(f, issuer).is_some(), Refusal::AlreadyActive)?;
    let key = held(current_key(f, 1), Refusal::Interchange)?;
    refuse(f.due, Refusal::OutOfTurn)?; // RPW comes first
    refuse(is_shut_to(f, issuer), Refusal::AllTaken)?;
    let known = is_authentic(table, key, issuer, password);
    refuse(!known, Refusal::NotAuthenticated)?;
    Ok(done(keep(f, issuer, nothing_held())))
}

pub fn lau(f: Facility, issuer: u32) -> Result<Outcome, Refusal>
    ensures { Steps f (by issuer LAU) result }
{
    refuse(is_big(issuer), Refusal::Identifier)?;
    active(f, issuer)?;
    Ok(done(free_place_of(f, issuer)))
}

pub fn cpw(
    f: Facility,
    table: &mut [u8],
    issuer: u32,
    password: [u8; 8],
    new: [u8; 8],
) -> Result<Outcome, Refusal>
    ensures { StepsTable f table.old (by issuer (CPW password new)) result table.new }
{
    refuse(is_big(issuer), Refusal::Identifier)?;
    refuse(!is_fit(table.len()), Refusal::TableLength)?;
    active(f, issuer)?;
    let key = held(current_key(f, 1), Refusal::Interchange)?;
    refuse(f.due, Refusal::OutOfTurn)?;
    let authentic = is_authentic(table, key, issuer, password);
    refuse(!authentic, Refusal::NotAuthenticated)?;
    set_entry(table, issuer, seal_password(key, issuer, new));
    Ok(done(f))
}

// As LAU for the named user.
#[tactic(auto, unfolding(rules::specs::Step::step))]
pub fn host_logout(f: Facility, user: u32) -> Result<Outcome, Refusal>
    ensures { Steps f (logout user) result }
{
    lau(f, user)
}
