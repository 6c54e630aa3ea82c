// EIK, IPW and RPW: the officer enters keys and passwords.

// What the check opens of the page's table to see that a command does what its row says.
#![tactic(auto, using(rules::proofs::Laws::by_effect), unfolding(rules::specs::Commands::tests, rules::specs::Commands::refusals, rules::specs::Commands::effect, rules::specs::Step::effected, rules::specs::Refusals::test, state::specs::State::seat_of))]

ghost use Rattle.std.specs.Prelude.{◌≡◌};
ghost use Rattle.keys.specs.Keys.{parity_of};
ghost use Rattle.table.specs.Passwords.{same};
ghost use Rattle.rules.specs.Refusals.{lacks_entry, out_of_turn};
ghost use Rattle.rules.specs.Commands.{EIK, IPW, RPW};
ghost use Rattle.rules.specs.Outcomes.{Steps, StepsTable};

use cipher::keys::InterchangeKey;
use keys::set_parity;
use rules::answers::done;
use rules::conditions::{held, own_name, refuse};
use rules::{Outcome, Refusal};
use state::Facility;
use state::interchanges::{change_key, current_key, is_name, old_key};
use table::entries::{FREE, enrol, has_entry, is_fit};
use table::passwords::{is_big, move_all, seal_password};

// With parity set it is the same key.
#[tactic(auto, using(table::proofs::Laws::same_is))]
fn has_parity(key: [u8; 8]) -> bool
    ensures { result ≡ same key (parity_of key) }
{
    key == set_parity(key)
}

pub fn eik(f: Facility, interchange: u8, key: [u8; 8]) -> Result<Outcome, Refusal>
    ensures { Steps f (EIK interchange key) result }
{
    refuse(!is_name(interchange), Refusal::Interchange)?;
    refuse(own_name(interchange, f.due, false), Refusal::OutOfTurn)?;
    refuse(!has_parity(key), Refusal::EvenParity)?;
    let current = current_key(f, 1);
    let due = own_name(interchange, current.present, f.due);
    Ok(done(change_key(f, interchange, InterchangeKey(key), due)))
}

// No entry of the user, and no free entry.
#[tactic(auto, unfolding(rules::specs::Refusals::lacks_entry))]
fn lacks_entry(table: &[u8], user: u32) -> bool
    ensures { result ≡ lacks_entry user table.now }
{
    !has_entry(table, user) && !has_entry(table, FREE)
}

pub fn ipw(f: Facility, table: &mut [u8], user: u32, password: [u8; 8]) -> Result<Outcome, Refusal>
    ensures { StepsTable f table.old (IPW user password) result table.new }
{
    refuse(is_big(user), Refusal::Identifier)?;
    refuse(!is_fit(table.len()), Refusal::TableLength)?;
    let key = held(current_key(f, 1), Refusal::Interchange)?;
    refuse(f.due, Refusal::OutOfTurn)?;
    refuse(lacks_entry(table, user), Refusal::NoEntry)?;
    enrol(table, user, seal_password(key, user, password));
    Ok(done(f))
}

// Not DUE, or one of the two keys of interchange 1 is missing.
#[tactic(auto, unfolding(rules::specs::Refusals::out_of_turn))]
fn is_out_of_turn(f: Facility) -> bool
    ensures { result ≡ out_of_turn f }
{
    !f.due || !old_key(f, 1).present || !current_key(f, 1).present
}

pub fn rpw(f: Facility, table: &mut [u8]) -> Result<Outcome, Refusal>
    ensures { StepsTable f table.old RPW result table.new }
{
    refuse(!is_fit(table.len()), Refusal::TableLength)?;
    refuse(is_out_of_turn(f), Refusal::OutOfTurn)?;
    move_all(table, old_key(f, 1).value, current_key(f, 1).value);
    Ok(done(Facility { due: false, ..f }))
}
