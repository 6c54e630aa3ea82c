// Hex digits, two a byte.
ghost use Rattle.std.specs.Prelude.{◌≡◌, ◌+◌, ◌*◌, ◌<◌};
ghost use Rattle.printout.specs.Inked.{inked};
ghost use Rattle.values.specs.Sources.{hex_value, unhex};

use printout::page::Page;

// Any letter has a value here, as in the definition; `to_digit` has one for hex digits alone.
#[tactic(auto, unfolding(crate::specs::Sources::hex_value))]
fn hex_value(letter: u8) -> u8
    ensures value { result ≡ hex_value letter }
    ensures digit { result < 16 }
{
    match letter {
        ..b'A' => letter.saturating_sub(b'0') % 16,
        b'A'..b'a' => (letter - 55) % 16,
        b'a'.. => (letter - 87) % 16,
    }
}

fn hex_byte(high: u8, low: u8) -> u8
    ensures { result ≡ 16 * hex_value high + hex_value low }
{
    16 * hex_value(high) + hex_value(low)
}

#[tactic(auto, using(crate::proofs::Bytes::unhex_two, crate::proofs::Bytes::unhex_short))]
pub fn put_unhexed(page: &mut Page, digits: &[u8])
    ensures { page.new ≡ inked (unhex digits.now) page.old }
{
    let mut rest = digits;
    while let [high, low, after @ ..] = rest {
        page.put(hex_byte(*high, *low));
        rest = after;
    }
}
