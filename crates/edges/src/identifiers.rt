// Refusal 1: identifier 268435455 passes, 268435456 does not, in every field that names a user.
use admission::{cpw, host_logout, lau, ras};
use cipher::keys::InterchangeKey;
use exchange::data_keys::{gdk, ldk, rdk};
use exchange::vectors::{eiv, giv, liv};
use handed::entries::{ABOVE, HIGHEST, entry, two};
use handed::given::{MODES, all_of, facility, place, seated};
use handed::published::{HIGH_ONES, ONES, ZEROS};
use handed::report::Tally;
use officer::ipw;
use records::{by_mode, daut};
use rules::{Outcome, Refusal};
use state::{Facility, Held};

// The key 01x8 notarized for 268435455 is FEx8 (N7), which takes ONES to HIGH_ONES.
fn empty() -> Facility {
    let key = Held::of(InterchangeKey([1; 8]));
    facility(key, key, false)
}

// Either identifier has a place with all keys and vectors, and so has user 5.
fn full() -> Facility {
    let all = all_of(ZEROS);
    let f = seated(empty(), 0, place(268435455, all));
    seated(seated(f, 1, place(268435456, all)), 2, place(5, all))
}

fn either() -> [u8; 24] {
    two(entry(HIGHEST, HIGH_ONES), entry(ABOVE, HIGH_ONES))
}

// A user, how the lines name him, and what a command is to reply that names him.
#[derive(Clone, Copy)]
struct Named<'a> {
    user: u32,
    words: &'a [u8],
    expected: u8,
}

impl<'a> Named<'a> {
    fn new(user: u32, words: &'a [u8], expected: u8) -> Named<'a> {
        Named {
            user,
            words,
            expected,
        }
    }

    fn reply(self, t: &mut Tally, command: &[u8], met: Result<Outcome, Refusal>) {
        t.reply(command, self.words, self.expected, &met);
    }

    fn passwords(self, t: &mut Tally) {
        let mut table = either();
        self.reply(t, b"RAS", ras(empty(), &table, self.user, ONES));
        let met = cpw(full(), &mut table, self.user, ONES, ONES);
        self.reply(t, b"CPW", met);
    }

    fn enrolment(self, t: &mut Tally) {
        let mut table = [0xFF; 12];
        let met = ipw(empty(), &mut table, self.user, ONES);
        self.reply(t, b"IPW", met);
    }

    fn logouts(self, t: &mut Tally) {
        self.reply(t, b"LAU", lau(full(), self.user));
        self.reply(t, b"host logout", host_logout(full(), self.user));
    }

    fn data_keys(self, t: &mut Tally, issuer: u32, party: u32) {
        let f = full();
        self.reply(t, b"GDK", gdk(f, issuer, party, 1, ZEROS));
        self.reply(t, b"LDK", ldk(f, issuer, party, 1, b't', ZEROS));
        self.reply(t, b"RDK", rdk(f, issuer, party, 1, b't', ZEROS));
    }

    fn vectors(self, t: &mut Tally) {
        self.reply(t, b"GIV", giv(full(), self.user, ZEROS));
        self.reply(t, b"LIV", liv(full(), self.user, b't', ZEROS));
        self.reply(t, b"EIV", eiv(full(), self.user, ZEROS));
    }

    fn data(self, t: &mut Tally) {
        for (name, mode) in MODES {
            let mut out = [0; 8];
            let met = by_mode(full(), self.user, mode, &ZEROS, &mut out);
            self.reply(t, &name, met);
        }
        self.reply(t, b"DAUT", daut(full(), self.user, b't', &ZEROS));
    }

    fn issuer(self, t: &mut Tally) {
        self.passwords(t);
        self.enrolment(t);
        self.logouts(t);
        self.data_keys(t, self.user, 6);
        self.vectors(t);
        self.data(t);
    }

    fn party(self, t: &mut Tally) {
        self.data_keys(t, 5, self.user);
    }
}

pub fn all(t: &mut Tally) {
    Named::new(268435455, b"of user 268435455", 0).issuer(t);
    Named::new(268435456, b"of user 268435456", 1).issuer(t);
    Named::new(268435455, b"party 268435455", 0).party(t);
    Named::new(268435456, b"party 268435456", 1).party(t);
}
