// Tables that no command makes: an identifier in two entries, identifiers above 268435455, free entries with bytes in them.
// (A function for each case, with its name and its words: a table of them would have as many lines.)
use admission::{cpw, ras};
use cipher::keys::InterchangeKey;
use handed::entries::{ABOVE, FIVE, FREE, HIGHEST, NOBODY, entry, two};
use handed::given::{HIGH, LOW, active, facility, nothing, ready};
use handed::published::{
    HIGH_BIT, HIGH_ONES, HIGH_ZEROS, LOW_HIGH_BIT, LOW_ONES, LOW_ZEROS, ONES, ZEROS,
};
use handed::report::Tally;
use officer::{ipw, rpw};
use rules::{Outcome, Refusal};
use state::{Facility, Held};

// A table before a command, and as it should be after.
#[derive(Clone, Copy)]
struct Change {
    before: [u8; 24],
    after: [u8; 24],
    expected: u8,
}

impl Change {
    fn by<F: FnOnce(&mut [u8]) -> Result<Outcome, Refusal>>(
        self,
        t: &mut Tally,
        command: &[u8],
        words: &[u8],
        carry_out: F,
    )
        requires { F.IsAlwaysCallable carry_out }
    {
        let mut table = self.before;
        let met = carry_out(&mut table);
        t.reply(command, words, self.expected, &met);
        t.left(command, b"the table", &self.after, &table);
    }

    fn by_cpw(self, t: &mut Tally, words: &[u8], password: [u8; 8]) {
        let f = active(nothing());
        self.by(t, b"CPW", words, |table| cpw(f, table, 5, password, ONES));
    }

    // Of user 5, with the password ZEROS.
    fn by_ipw(self, t: &mut Tally, words: &[u8]) {
        self.by(t, b"IPW", words, |table| ipw(ready(), table, 5, ZEROS));
    }

    fn by_rpw(self, t: &mut Tally, words: &[u8], f: Facility) {
        self.by(t, b"RPW", words, |table| rpw(f, table));
    }
}

// User 5 with the password ZEROS, and again with HIGH_BIT.
fn twice() -> [u8; 24] {
    two(entry(FIVE, LOW_ZEROS), entry(FIVE, LOW_HIGH_BIT))
}

fn first_matching(t: &mut Tally) {
    let met = ras(ready(), &twice(), 5, ZEROS);
    t.reply(b"RAS", b"the password of the first of two entries", 0, &met);
    let met = ras(ready(), &twice(), 5, HIGH_BIT);
    t.reply(
        b"RAS",
        b"the password of the second of two entries",
        9,
        &met,
    );
}

fn first_changed(t: &mut Tally) {
    let c = Change {
        before: twice(),
        after: two(entry(FIVE, LOW_ONES), entry(FIVE, LOW_HIGH_BIT)),
        expected: 0,
    };
    c.by_cpw(t, b"the password of the first of two entries", ZEROS);
}

fn second_unchanged(t: &mut Tally) {
    let c = Change {
        before: twice(),
        after: twice(),
        expected: 9,
    };
    c.by_cpw(t, b"the password of the second of two entries", HIGH_BIT);
}

fn first_enrolled(t: &mut Tally) {
    let c = Change {
        before: two(entry(FIVE, LOW_ONES), entry(FIVE, LOW_HIGH_BIT)),
        after: twice(),
        expected: 0,
    };
    c.by_ipw(t, b"a user with two entries");
}

fn both_moved(t: &mut Tally) {
    let c = Change {
        before: two(entry(FIVE, LOW_ZEROS), entry(FIVE, LOW_ONES)),
        after: two(entry(FIVE, HIGH_ZEROS), entry(FIVE, HIGH_ONES)),
        expected: 0,
    };
    c.by_rpw(t, b"a user with two entries", facility(HIGH, LOW, true));
}

// The highest user is moved from FEx8 to 01x8 (N7, N9); what stands in a free entry is not.
fn highest_moved(t: &mut Tally) {
    let c = Change {
        before: two(entry(HIGHEST, HIGH_ZEROS), entry(FREE, HIGH_ZEROS)),
        after: two(entry(HIGHEST, LOW_ZEROS), entry(FREE, HIGH_ZEROS)),
        expected: 0,
    };
    let old = Held::of(InterchangeKey([1; 8]));
    let current = Held::of(InterchangeKey([0xFE; 8]));
    let f = facility(current, old, true);
    c.by_rpw(t, b"identifier 0FFFFFFF and a free entry", f);
}

fn above() -> [u8; 24] {
    two(entry(ABOVE, LOW_ZEROS), entry(NOBODY, LOW_ZEROS))
}

fn above_unaltered(t: &mut Tally) {
    let c = Change {
        before: above(),
        after: above(),
        expected: 0,
    };
    let f = facility(HIGH, LOW, true);
    c.by_rpw(t, b"identifiers 10000000 and FFFFFFFE", f);
}

fn above_not_free(t: &mut Tally) {
    let c = Change {
        before: above(),
        after: above(),
        expected: 15,
    };
    c.by_ipw(t, b"identifiers 10000000 and FFFFFFFE");
}

fn nobody(t: &mut Tally) {
    let met = ras(ready(), &above(), 268435456, ZEROS);
    t.reply(b"RAS", b"of the identifier 10000000 of an entry", 1, &met);
    let freed = two(entry(FREE, ZEROS), entry(FREE, ZEROS));
    let met = ras(ready(), &freed, 4294967295, ZEROS);
    t.reply(
        b"RAS",
        b"of the identifier FFFFFFFF of a free entry",
        1,
        &met,
    );
}

fn passed_over(t: &mut Tally) {
    let c = Change {
        before: two(entry(NOBODY, ZEROS), entry(FREE, ONES)),
        after: two(entry(NOBODY, ZEROS), entry(FIVE, LOW_ZEROS)),
        expected: 0,
    };
    c.by_ipw(t, b"identifier FFFFFFFE before a free entry");
}

fn first_free(t: &mut Tally) {
    let c = Change {
        before: two(entry(FREE, ONES), entry(FREE, ONES)),
        after: two(entry(FIVE, LOW_ZEROS), entry(FREE, ONES)),
        expected: 0,
    };
    c.by_ipw(t, b"two free entries");
}

fn own_entry(t: &mut Tally) {
    let c = Change {
        before: two(entry(FREE, ONES), entry(FIVE, LOW_ONES)),
        after: two(entry(FREE, ONES), entry(FIVE, LOW_ZEROS)),
        expected: 0,
    };
    c.by_ipw(t, b"a free entry before the user's own");
}

pub fn all(t: &mut Tally) {
    first_matching(t);
    first_changed(t);
    second_unchanged(t);
    first_enrolled(t);
    both_moved(t);
    highest_moved(t);
    above_unaltered(t);
    above_not_free(t);
    nobody(t);
    passed_over(t);
    first_free(t);
    own_entry(t);
}
