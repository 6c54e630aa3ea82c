// GIV, LIV and EIV: initialization vectors made, loaded and enciphered under a data key.
ghost use Rattle.std.specs.Prelude.{◌≡◌};
ghost use Rattle.rules.specs.Commands.{by, GIV, LIV, EIV};
ghost use Rattle.rules.specs.Outcomes.{Steps};

use cipher::block::{decipher, encipher};
use cipher::keys::Vector;
use keys::set_parity;
use rules::answers::{done, given};
use rules::conditions::{active, function_of, held, is_unknown, refuse};
use rules::sides::{side_for, with_vector};
use rules::{Outcome, Refusal};
use state::Facility;
use state::places::keep;
use table::passwords::is_big;

pub fn giv(f: Facility, issuer: u32, bits: [u8; 8]) -> Result<Outcome, Refusal>
    ensures { Steps f (by issuer (GIV bits)) result }
{
    refuse(is_big(issuer), Refusal::Identifier)?;
    let holdings = active(f, issuer)?;
    let key = held(holdings.transmit.key, Refusal::KeyMissing)?;
    Ok(given(f, encipher(key, set_parity(bits))))
}

// As s by the transmit key, stored on both sides.
pub fn liv(f: Facility, issuer: u32, function: u8, block: [u8; 8]) -> Result<Outcome, Refusal>
    ensures { Steps f (by issuer (LIV function block)) result }
{
    let asked = function_of(function);
    refuse(is_big(issuer), Refusal::Identifier)?;
    let holdings = active(f, issuer)?;
    refuse(is_unknown(asked), Refusal::KeyFunction)?;
    let key = held(side_for(asked, holdings).key, Refusal::KeyMissing)?;
    let opened = Vector(decipher(key, block));
    Ok(done(keep(f, issuer, with_vector(asked, opened, holdings))))
}

pub fn eiv(f: Facility, issuer: u32, block: [u8; 8]) -> Result<Outcome, Refusal>
    ensures { Steps f (by issuer (EIV block)) result }
{
    refuse(is_big(issuer), Refusal::Identifier)?;
    let holdings = active(f, issuer)?;
    let key = held(holdings.transmit.key, Refusal::KeyMissing)?;
    Ok(given(f, encipher(key, block)))
}
