// GDK, LDK and RDK: data keys made, loaded, and moved to a new interchange key.
ghost use Rattle.std.specs.Prelude.{◌≡◌};
ghost use Rattle.rules.specs.Commands.{by, GDK, LDK, RDK};
ghost use Rattle.rules.specs.Outcomes.{Steps};

use cipher::block::{seal, unseal};
use cipher::keys::DataKey;
use keys::{notarize, set_parity};
use rules::answers::{done, given};
use rules::conditions::{active, function_of, held, is_big_pair, is_wrong_pair, refuse};
use rules::sides::{pair_key, with_key};
use rules::{Outcome, Refusal};
use state::Facility;
use state::interchanges::{current_key, old_key};
use state::places::keep;

// The issuer is the sender, the party the receiver.
pub fn gdk(
    f: Facility,
    issuer: u32,
    party: u32,
    interchange: u8,
    bits: [u8; 8],
) -> Result<Outcome, Refusal>
    ensures { Steps f (by issuer (GDK party interchange bits)) result }
{
    refuse(is_big_pair(issuer, party), Refusal::Identifier)?;
    active(f, issuer)?;
    let key = held(current_key(f, interchange), Refusal::Interchange)?;
    let notarized = notarize(key, issuer, party);
    Ok(given(f, seal(notarized, set_parity(bits))))
}

// The deciphered key is stored as it stands.
pub fn ldk(
    f: Facility,
    issuer: u32,
    party: u32,
    interchange: u8,
    function: u8,
    block: [u8; 8],
) -> Result<Outcome, Refusal>
    ensures { Steps f (by issuer (LDK party interchange function block)) result }
{
    let asked = function_of(function);
    refuse(is_big_pair(issuer, party), Refusal::Identifier)?;
    let holdings = active(f, issuer)?;
    refuse(is_wrong_pair(asked, party == issuer), Refusal::KeyFunction)?;
    let key = held(current_key(f, interchange), Refusal::Interchange)?;
    let notarized = pair_key(asked, key, issuer, party);
    let opened = DataKey(unseal(notarized, block));
    Ok(done(keep(f, issuer, with_key(asked, opened, holdings))))
}

// From the old key to the current one, sealed with the same pair.
pub fn rdk(
    f: Facility,
    issuer: u32,
    party: u32,
    interchange: u8,
    function: u8,
    block: [u8; 8],
) -> Result<Outcome, Refusal>
    ensures { Steps f (by issuer (RDK party interchange function block)) result }
{
    let asked = function_of(function);
    refuse(is_big_pair(issuer, party), Refusal::Identifier)?;
    active(f, issuer)?;
    refuse(is_wrong_pair(asked, party == issuer), Refusal::KeyFunction)?;
    let old = held(old_key(f, interchange), Refusal::Interchange)?;
    let current = held(current_key(f, interchange), Refusal::Interchange)?;
    let from = pair_key(asked, old, issuer, party);
    let to = pair_key(asked, current, issuer, party);
    Ok(given(f, seal(to, unseal(from, block))))
}
