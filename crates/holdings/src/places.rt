// Places: an identifier in two of them, identifiers above 268435455, the first free one, and what a freed one holds.
use admission::{host_logout, lau, ras};
use cipher::keys::{DataKey, Vector};
use cipher::modes::Mode;
use exchange::data_keys::ldk;
use handed::entries::{FIVE, entry};
use handed::flat::{are_others_alike, flat};
use handed::given::{
    all_missing, all_of, both, free, missing, nothing, place, ready, seated, side,
};
use handed::published::{HIGH_BIT, HIGH_ZEROS, LOW_HIGH_BIT, LOW_ZEROS, ONES, ZEROS};
use handed::report::Tally;
use records::by_mode;
use rules::answers::state_after;
use rules::{Outcome, Refusal};
use state::{Facility, Held, Holdings, Place};

fn holds(t: &mut Tally, command: &[u8], words: &[u8], expected: Place, met: Place) {
    t.left(command, words, &flat(expected), &flat(met));
}

// All places but i are as they were.
fn others_stay(t: &mut Tally, command: &[u8], words: &[u8], f: Facility, g: Facility, i: usize) {
    t.case(command, words, true, are_others_alike(f, g, i));
}

fn admitted(f: Facility) -> Result<Outcome, Refusal> {
    ras(f, &entry(FIVE, LOW_ZEROS), 5, ZEROS)
}

// ---- user 5 has place 2, with nothing loaded, and place 9, with all of it ONES

fn doubled() -> Facility {
    let f = seated(ready(), 2, place(5, nothing()));
    seated(f, 9, place(5, all_of(ONES)))
}

fn first_counts(t: &mut Tally) {
    let mut out = [0; 8];
    let met = by_mode(doubled(), 5, Mode::Ecbe, &ZEROS, &mut out);
    t.reply(
        b"ECBE",
        b"nothing loaded in the first of two places",
        10,
        &met,
    );
    t.reply(
        b"RAS",
        b"of a user with two places",
        4,
        &admitted(doubled()),
    );
}

fn first_loaded(t: &mut Tally) {
    let f = doubled();
    let met = ldk(f, 5, 5, 1, b's', LOW_HIGH_BIT);
    t.reply(b"LDK", b"of a user with two places", 0, &met);
    let g = state_after(f, &met);
    let key = Held::of(DataKey(HIGH_BIT));
    let loaded = place(5, both(side(key, missing(Vector(ZEROS)))));
    holds(t, b"LDK", b"the first place", loaded, g.places[2]);
    let second = place(5, all_of(ONES));
    holds(t, b"LDK", b"the second place", second, g.places[9]);
    others_stay(t, b"LDK", b"all places but the first unaltered", f, g, 2);
}

// The second place, once the first is free.
fn second_counts(t: &mut Tally, f: Facility) {
    let mut out = [0; 8];
    let met = by_mode(f, 5, Mode::Ecbe, &ZEROS, &mut out);
    t.reply(b"ECBE", b"by the key in the second place", 0, &met);
    t.left(b"ECBE", b"the output", &HIGH_ZEROS, &out);
}

fn second_freed(t: &mut Tally, f: Facility) {
    let met = lau(f, 5);
    t.reply(b"LAU", b"of the second place", 0, &met);
    let g = state_after(f, &met);
    holds(t, b"LAU", b"the second place", free(nothing()), g.places[9]);
    t.reply(b"LAU", b"of no place more", 3, &lau(g, 5));
}

fn first_freed(t: &mut Tally) {
    let f = doubled();
    let met = lau(f, 5);
    t.reply(b"LAU", b"of a user with two places", 0, &met);
    let g = state_after(f, &met);
    holds(t, b"LAU", b"the first place", free(nothing()), g.places[2]);
    let second = place(5, all_of(ONES));
    holds(t, b"LAU", b"the second place", second, g.places[9]);
    second_counts(t, g);
    second_freed(t, g);
}

// ---- the first free place, and a freed one

// Bytes that are marked missing.
fn leftover() -> Holdings {
    all_missing(ONES)
}

// Place 2 is free, with bytes left in it, between taken ones.
fn holed() -> Facility {
    let f = seated(ready(), 0, place(100, all_of(ONES)));
    let f = seated(f, 1, place(101, all_of(ONES)));
    let f = seated(f, 2, free(leftover()));
    seated(f, 3, place(103, all_of(ONES)))
}

fn hole_filled(t: &mut Tally) {
    let f = holed();
    let met = admitted(f);
    t.reply(b"RAS", b"place 2 free between taken ones", 0, &met);
    let g = state_after(f, &met);
    holds(t, b"RAS", b"place 2", place(5, nothing()), g.places[2]);
    others_stay(t, b"RAS", b"all other places unaltered", f, g, 2);
}

fn emptied(t: &mut Tally, name: &[u8], f: Facility, met: Result<Outcome, Refusal>) {
    t.reply(name, b"of a place full of bytes", 0, &met);
    let g = state_after(f, &met);
    t.left(name, b"the freed place", &[0; 41], &flat(g.places[4]));
    others_stay(t, name, b"all other places unaltered", f, g, 4);
}

fn nothing_stays(t: &mut Tally) {
    let loaded = seated(holed(), 4, place(5, all_of(ONES)));
    emptied(t, b"LAU", loaded, lau(loaded, 5));
    emptied(t, b"host logout", loaded, host_logout(loaded, 5));
}

fn nothing_missing_stays(t: &mut Tally) {
    let marked = seated(holed(), 4, place(5, leftover()));
    emptied(t, b"LAU, marked missing", marked, lau(marked, 5));
    t.reply(
        b"LAU",
        b"of user 0 while all places are free",
        3,
        &lau(ready(), 0),
    );
}

// ---- all places taken

fn never_freed(t: &mut Tally) {
    let f = Facility {
        places: [place(268435456, nothing()); 16],
        ..ready()
    };
    t.reply(b"RAS", b"all places taken by 268435456", 8, &admitted(f));
    t.reply(b"LAU", b"of 268435456", 1, &lau(f, 268435456));
    let met = host_logout(f, 268435456);
    t.reply(b"host logout", b"of 268435456", 1, &met);
    let met = admitted(state_after(f, &met));
    t.reply(b"RAS", b"all places still taken by 268435456", 8, &met);
}

// Users 100 to 115.
fn sixteen() -> Facility {
    let mut f = ready();
    for (user, p) in (100..116).zip(f.places.iter_mut()) {
        *p = place(user, nothing());
    }
    f
}

fn admitted_later(t: &mut Tally, f: Facility) {
    let met = admitted(f);
    t.reply(b"RAS", b"of a seventeenth user once more", 0, &met);
    let g = state_after(f, &met);
    holds(t, b"RAS", b"place 7", place(5, nothing()), g.places[7]);
    let before = sixteen();
    others_stay(t, b"RAS", b"all other places unaltered", before, g, 7);
}

fn seventeenth(t: &mut Tally) {
    let f = sixteen();
    t.reply(b"RAS", b"of a seventeenth user", 8, &admitted(f));
    let met = lau(f, 107);
    t.reply(b"LAU", b"of one of sixteen, in place 7", 0, &met);
    admitted_later(t, state_after(f, &met));
}

pub fn all(t: &mut Tally) {
    first_counts(t);
    first_loaded(t);
    first_freed(t);
    hole_filled(t);
    nothing_stays(t);
    nothing_missing_stays(t);
    never_freed(t);
    seventeenth(t);
}
