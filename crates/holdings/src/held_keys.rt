// Keys: of interchanges and of users, each there or missing.
use admission::{cpw, ras};
use cipher::keys::{DataKey, InterchangeKey, Vector};
use cipher::modes::Mode;
use exchange::data_keys::{ldk, rdk};
use exchange::vectors::liv;
use handed::answers::block_of;
use handed::entries::{FIVE, entry};
use handed::given::{
    HIGH, LOW, NONE, active, both, facility, missing, nothing, place, seated, side,
};
use handed::published::{HIGH_BIT, HIGH_KEY, HIGH_ZEROS, LOW_HIGH_BIT, LOW_ZEROS, ONES, ZEROS};
use handed::report::Tally;
use officer::{eik, ipw, rpw};
use records::by_mode;
use rules::answers::state_after;
use rules::{Outcome, Refusal};
use state::{Facility, Held, Holdings};

// ---- EIK

// Interchange 2 has these keys too.
fn with_second(f: Facility, current: Held<InterchangeKey>, old: Held<InterchangeKey>) -> Facility {
    let mut g = f;
    g.current_keys[1] = current;
    g.old_keys[1] = old;
    g
}

fn shown(t: &mut Tally, words: &[u8], expected: Held<InterchangeKey>, met: Held<InterchangeKey>) {
    t.case(b"EIK", words, expected.present, met.present);
    t.left(b"EIK", b"its bytes", &expected.value.0, &met.value.0);
}

fn old_becomes_missing(t: &mut Tally) {
    let f = with_second(facility(NONE, NONE, false), NONE, LOW);
    let met = eik(f, 2, HIGH_KEY);
    t.reply(b"EIK", b"an old key there, and no current one", 0, &met);
    let g = state_after(f, &met);
    shown(t, b"then the current key there", HIGH, g.current_keys[1]);
    shown(t, b"then the old key there", NONE, g.old_keys[1]);
}

fn due_after(t: &mut Tally, words: &[u8], f: Facility, name: u8, expected: bool) {
    let met = eik(f, name, HIGH_KEY);
    t.reply(b"EIK", words, 0, &met);
    t.case(b"EIK", b"then DUE", expected, state_after(f, &met).due);
}

fn due_of_one(t: &mut Tally) {
    let f = facility(NONE, NONE, false);
    due_after(t, b"of 1, no key of it", f, 1, false);
    let f = facility(NONE, LOW, false);
    due_after(t, b"of 1, only an old key of it", f, 1, false);
    let f = facility(LOW, NONE, false);
    due_after(t, b"of 1, a current key of it", f, 1, true);
}

fn due_of_another(t: &mut Tally) {
    let f = with_second(facility(NONE, NONE, false), LOW, NONE);
    due_after(t, b"of 2, a current key of it", f, 2, false);
    let f = with_second(facility(LOW, LOW, true), LOW, NONE);
    due_after(t, b"of 2, a current key of it, while DUE", f, 2, true);
}

// ---- DUE, RPW and the dead ends

fn turned(t: &mut Tally, words: &[u8], f: Facility, moved: u8, entered: u8) {
    let mut table = entry(FIVE, LOW_ZEROS);
    let met = rpw(f, &mut table);
    t.reply(b"RPW", words, moved, &met);
    t.reply(b"EIK of 1", words, entered, &eik(f, 1, HIGH_KEY));
}

fn dead_ends(t: &mut Tally) {
    let f = facility(LOW, LOW, true);
    turned(t, b"DUE, both keys there", f, 0, 7);
    let f = facility(NONE, LOW, true);
    turned(t, b"DUE, current key missing", f, 7, 7);
    let f = facility(LOW, NONE, true);
    turned(t, b"DUE, old key missing", f, 7, 7);
    let f = facility(NONE, NONE, true);
    turned(t, b"DUE, both keys missing", f, 7, 7);
    let f = facility(LOW, LOW, false);
    turned(t, b"not DUE, both keys there", f, 7, 0);
}

// ---- no current key 1

fn keyless(t: &mut Tally) {
    let f = facility(NONE, LOW, false);
    let mut table = entry(FIVE, LOW_ZEROS);
    t.reply(b"RAS", b"no current key 1", 6, &ras(f, &table, 5, ZEROS));
    let met = ipw(f, &mut table, 5, ZEROS);
    t.reply(b"IPW", b"no current key 1", 6, &met);
}

fn keyless_change(t: &mut Tally) {
    let f = seated(facility(NONE, LOW, false), 0, place(5, nothing()));
    let mut table = entry(FIVE, LOW_ZEROS);
    let met = cpw(f, &mut table, 5, ZEROS, ONES);
    t.reply(b"CPW", b"no current key 1, the user active", 6, &met);
}

// ---- RDK

fn moved(current: Held<InterchangeKey>, old: Held<InterchangeKey>) -> Result<Outcome, Refusal> {
    let f = seated(facility(current, old, false), 0, place(5, nothing()));
    rdk(f, 5, 5, 1, b's', LOW_ZEROS)
}

fn data_key_moved(t: &mut Tally) {
    t.reply(b"RDK", b"current key missing", 6, &moved(NONE, LOW));
    t.reply(b"RDK", b"old key missing", 6, &moved(HIGH, NONE));
    let met = moved(HIGH, LOW);
    t.reply(b"RDK", b"both keys there", 0, &met);
    t.left(b"RDK", b"the block", &HIGH_ZEROS, &block_of(&met));
}

// ---- LDK and LIV

fn held_by(f: Facility) -> Holdings {
    f.places[0].holdings
}

// 80 00 .. 00: seven of its bytes have even parity.
fn even_parity(t: &mut Tally) {
    let f = active(nothing());
    let met = ldk(f, 5, 5, 1, b's', LOW_HIGH_BIT);
    t.reply(b"LDK", b"a key of even parity", 0, &met);
    let held = held_by(state_after(f, &met));
    let sent = held.transmit.key.value.0;
    t.left(b"LDK", b"the transmit key as it stands", &HIGH_BIT, &sent);
    let received = held.receive.key.value.0;
    t.left(
        b"LDK",
        b"the receive key as it stands",
        &HIGH_BIT,
        &received,
    );
}

fn vector_there(t: &mut Tally, words: &[u8], vector: Held<Vector>) {
    t.case(b"LIV", words, true, vector.present);
    t.left(b"LIV", b"its bytes", &HIGH_BIT, &vector.value.0);
}

fn vectors_on_both_sides(t: &mut Tally, held: Holdings) {
    vector_there(t, b"then the transmit vector there", held.transmit.vector);
    vector_there(t, b"then the receive vector there", held.receive.vector);
    let present = held.receive.key.present;
    t.case(b"LIV", b"then the receive key there", false, present);
}

// The three modes that decipher.
fn deciphers(t: &mut Tally, f: Facility) {
    for (name, mode) in [
        (b"ECBD", Mode::Ecbd),
        (b"CBCD", Mode::Cbcd),
        (b"CFBD", Mode::Cfbd),
    ] {
        let mut out = [0; 8];
        let met = by_mode(f, 5, mode, &ZEROS, &mut out);
        t.reply(name, b"a receive vector and no receive key", 10, &met);
    }
}

fn without_receive_key(t: &mut Tally) {
    let held = Holdings {
        transmit: side(Held::of(DataKey(ZEROS)), missing(Vector(ZEROS))),
        ..nothing()
    };
    let f = active(held);
    let met = liv(f, 5, b's', LOW_HIGH_BIT);
    t.reply(b"LIV", b"as s without a receive key", 0, &met);
    let g = state_after(f, &met);
    vectors_on_both_sides(t, held_by(g));
    deciphers(t, g);
}

pub fn all(t: &mut Tally) {
    old_becomes_missing(t);
    due_of_one(t);
    due_of_another(t);
    dead_ends(t);
    keyless(t);
    keyless_change(t);
    data_key_moved(t);
    even_parity(t);
    without_receive_key(t);
}
