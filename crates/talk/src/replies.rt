// A line of words for a command: its name, and what its reply means.
ghost use Rattle.std.specs.Prelude.{◌≡◌};
ghost use Rattle.printout.specs.Inked.{inked};
ghost use Rattle.talk.specs.Replies.{meaning, words_of};

use names::by_tag::put_name;
use printout::page::Page;

// By the page's numbers, and no Refusal: any number may be asked for.
#[tactic(auto, unfolding(crate::specs::Replies::meaning, crate::specs::Replies::refused))]
fn meaning(reply: u8) -> &'static [u8]
    ensures { result.now ≡ meaning reply }
{
    match reply {
        0 => b"done",
        1 => b"refused: identifier (issuer or party) above 268435455",
        2 => b"refused: table length not a multiple of 12, or above 49152",
        3 => b"refused: issuer not active",
        4 => b"refused: already active",
        5 => b"refused: key function not t, r or s; \
              in LDK and RDK also where s and \"party equals issuer\" do not agree",
        6 => b"refused: interchange not 1 to 15, or a key of it that the command needs is missing",
        7 => b"refused: out of turn: RAS, CPW, IPW, or EIK of name 1 while DUE; \
              RPW while not DUE, or while current or old key 1 is missing",
        8 => b"refused: all 16 places taken",
        9 => b"refused: not authenticated",
        10 => b"refused: key of the needed side missing",
        11 => b"refused: its IV missing",
        12 =>
            b"refused: data length: 0 or above 32768, and for all but DAUT also not a multiple of 8",
        13 => b"refused: output buffer shorter than the data",
        14 => b"refused: some byte of the entered key has even parity",
        15 => b"refused: no free entry and no entry of the user",
        16 => b"refused: form",
        17 => b"refused: cut",
        _ => b"refused",
    }
}

#[tactic(auto, using(printout::specs::Inked::entries), unfolding(crate::specs::Replies::words_of))]
pub fn put_words(page: &mut Page, tag: u8, reply: u8)
    ensures { page.new ≡ inked (words_of tag reply) page.old }
{
    page.put_all(b"    ");
    put_name(page, tag);
    page.put(b' ');
    page.put_all(meaning(reply));
    page.put(b'\n');
}
