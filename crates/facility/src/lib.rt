// The key notarization facility: any command that the stream can spell, carried out by its tag.

#![tactic(auto, unfolding(crate::specs::Requests::performed, crate::specs::Requests::rows))]

ghost use Rattle.std.specs.Prelude.{◌≡◌};
ghost use Rattle.rules.specs.World.{over};
ghost use Rattle.rules.specs.Outcomes.{left};
ghost use Rattle.facility.specs.Requests.{performed};

use admission::{cpw, host_logout, lau, ras};
use cipher::modes::Mode;
use exchange::data_keys::{gdk, ldk, rdk};
use exchange::vectors::{eiv, giv, liv};
use officer::{eik, ipw, rpw};
use records::{by_mode, daut};
use rules::{Outcome, Refusal};
use state::Facility;
use stream::Request;

// The data, field 87, is `text`. A tag that is no command's is refused with 16.
pub fn perform(
    f: Facility,
    table: &mut [u8],
    out: &mut [u8],
    asked: Request,
    text: &[u8],
) -> Result<Outcome, Refusal>
    ensures { left f result table.new out.new ≡ performed (over f table.old) asked text.now out.old }
{
    let Request {
        tag,
        issuer,
        party,
        interchange,
        function,
        block,
        second,
    } = asked;
    match tag {
        0x01 => ras(f, table, issuer, block),
        0x02 => lau(f, issuer),
        0x03 => cpw(f, table, issuer, block, second),
        0x04 => gdk(f, issuer, party, interchange, block),
        0x05 => ldk(f, issuer, party, interchange, function, block),
        0x06 => giv(f, issuer, block),
        0x07 => liv(f, issuer, function, block),
        0x08 => eiv(f, issuer, block),
        0x09 => rdk(f, issuer, party, interchange, function, block),
        0x0A => by_mode(f, issuer, Mode::Ecbe, text, out),
        0x0B => by_mode(f, issuer, Mode::Ecbd, text, out),
        0x0C => by_mode(f, issuer, Mode::Cbce, text, out),
        0x0D => by_mode(f, issuer, Mode::Cbcd, text, out),
        0x0E => by_mode(f, issuer, Mode::Cfbe, text, out),
        0x0F => by_mode(f, issuer, Mode::Cfbd, text, out),
        0x10 => daut(f, issuer, function, text),
        0x20 => eik(f, interchange, block),
        0x21 => ipw(f, table, issuer, block),
        0x22 => rpw(f, table),
        0x23 => host_logout(f, issuer),
        _ => Err(Refusal::Form),
    }
}
