// Refusal 2: a table of 0, 12 and 49152 bytes passes, of 13 and 49164 not.
use admission::{cpw, ras};
use handed::entries::{FIVE, entry, entry_at, put_last};
use handed::given::{HIGH, LOW, active, facility, nothing, ready};
use handed::published::{HIGH_ONES, LOW_ZEROS, ONES, ZEROS};
use handed::report::Tally;
use officer::{ipw, rpw};

// What the four commands that look at the table's length should reply.
#[derive(Clone, Copy)]
struct Replies {
    ipw: u8,
    ras: u8,
    cpw: u8,
    rpw: u8,
}

const PASSES: Replies = Replies {
    ipw: 0,
    ras: 0,
    cpw: 0,
    rpw: 0,
};

const REFUSED: Replies = Replies {
    ipw: 2,
    ras: 2,
    cpw: 2,
    rpw: 2,
};

// The table comes with free entries only; after IPW its last entry becomes user 5's.
fn over(t: &mut Tally, words: &[u8], table: &mut [u8], expected: Replies) {
    let met = ipw(ready(), table, 6, ZEROS);
    t.reply(b"IPW", words, expected.ipw, &met);
    put_last(table, entry(FIVE, LOW_ZEROS));
    let met = ras(ready(), table, 5, ZEROS);
    t.reply(b"RAS", words, expected.ras, &met);
    let met = cpw(active(nothing()), table, 5, ZEROS, ONES);
    t.reply(b"CPW", words, expected.cpw, &met);
    let met = rpw(facility(HIGH, LOW, true), table);
    t.reply(b"RPW", words, expected.rpw, &met);
}

fn none(t: &mut Tally) {
    let expected = Replies {
        ipw: 15,
        ras: 9,
        cpw: 9,
        rpw: 0,
    };
    over(t, b"a table of 0 bytes", &mut [], expected);
}

fn shortest(t: &mut Tally) {
    over(t, b"a table of 12 bytes", &mut [0xFF; 12], PASSES);
    over(t, b"a table of 13 bytes", &mut [0xFF; 13], REFUSED);
}

fn longest(t: &mut Tally) {
    let mut table = [0xFF; 49152];
    over(t, b"a table of 49152 bytes", &mut table, PASSES);
    t.left(
        b"RPW",
        b"the last of 4096 entries",
        &entry(FIVE, HIGH_ONES),
        &entry_at(&table, 4095),
    );
}

fn too_long(t: &mut Tally) {
    over(t, b"a table of 49164 bytes", &mut [0xFF; 49164], REFUSED);
}

pub fn all(t: &mut Tally) {
    none(t);
    shortest(t);
    longest(t);
    too_long(t);
}
