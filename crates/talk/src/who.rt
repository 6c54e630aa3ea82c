// Who is active, and what each active user holds, without a byte of a key.
ghost use Rattle.std.specs.Prelude.{◌≡◌, length};
ghost use Rattle.printout.specs.Inked.{inked};
ghost use Rattle.state.specs.State.{holders};
ghost use Rattle.talk.specs.Who.{held, user_line, place_line, place_lines, who};

use printout::page::Page;
use state::{Facility, Place};

#[tactic(auto, using(printout::specs::Inked::entries), unfolding(crate::specs::Who::held))]
fn put_held(page: &mut Page, what: &[u8], present: bool)
    ensures { page.new ≡ inked (held what.now present) page.old }
{
    page.put_all(what);
    page.put_all(if present { b"present" } else { b"missing" });
}

#[tactic(auto, using(printout::specs::Inked::entries), unfolding(crate::specs::Who::user_line))]
fn put_user(page: &mut Page, p: Place)
    ensures { page.new ≡ inked (user_line p.user p.holdings) page.old }
{
    page.put_decimal(p.user as usize);
    put_held(page, b": transmit key ", p.holdings.transmit.key.present);
    put_held(page, b", receive key ", p.holdings.receive.key.present);
    put_held(page, b", transmit IV ", p.holdings.transmit.vector.present);
    put_held(page, b", receive IV ", p.holdings.receive.vector.present);
    page.put(b'\n');
}

// Nothing for a free place.
#[tactic(auto, using(printout::specs::Inked::inked_none), unfolding(crate::specs::Who::place_line))]
fn put_place(page: &mut Page, p: Place)
    ensures { page.new ≡ inked (place_line p) page.old }
{
    if p.taken {
        put_user(page, p);
    }
}

#[tactic(auto, using(crate::proofs::Laws::taken_count))]
fn active_users(places: [Place; 16]) -> usize
    ensures { result ≡ length (holders places) }
{
    places.iter().filter(|p| p.taken).count()
}

#[tactic(auto, using(printout::specs::Inked::entries, crate::proofs::Laws::places_more), unfolding(crate::specs::Who::place_lines))]
fn put_places(page: &mut Page, places: [Place; 16])
    ensures { page.new ≡ inked (place_lines places) page.old }
{
    for p in &places {
        put_place(page, *p);
    }
}

pub fn put_who(page: &mut Page, f: Facility)
    ensures { page.new ≡ inked (who f.places) page.old }
{
    page.put_all(b"active users: ");
    page.put_decimal(active_users(f.places));
    page.put_all(b" of 16\n");
    put_places(page, f.places);
}
