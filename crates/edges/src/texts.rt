// Refusal 12, the length of the data, and refusal 13, the length of the output.
use cipher::modes::Mode;
use handed::answers::block_of;
use handed::bytes::joined;
use handed::given::{MODES, active, all_of};
use handed::published::{LOW_ZEROS, ZEROS};
use handed::report::Tally;
use records::{by_mode, daut};
use rules::{Outcome, Refusal};
use state::Facility;

fn loaded() -> Facility {
    active(all_of(ZEROS))
}

// User 5's keys and vectors are all zeros, so that each mode takes a block of zeros to LOW_ZEROS, or LOW_ZEROS to zeros.
#[derive(Clone, Copy)]
struct Block {
    name: [u8; 4],
    mode: Mode,
    text: [u8; 8],
    gives: [u8; 8],
}

impl Block {
    fn new(name: [u8; 4], mode: Mode) -> Block {
        let (text, gives) = match mode {
            Mode::Ecbe | Mode::Cbce | Mode::Cfbe => (ZEROS, LOW_ZEROS),
            Mode::Ecbd | Mode::Cbcd | Mode::Cfbd => (LOW_ZEROS, ZEROS),
        };
        Block {
            name,
            mode,
            text,
            gives,
        }
    }

    // Into an output of N bytes, which comes back.
    fn into_output<const N: usize>(self) -> (Result<Outcome, Refusal>, [u8; N]) {
        let mut out = [0xAA; N];
        let met = by_mode(loaded(), 5, self.mode, &self.text, &mut out[..]);
        (met, out)
    }

    fn short(self, t: &mut Tally) {
        let (met, out) = self.into_output::<7>();
        t.reply(&self.name, b"8 bytes into an output of 7", 13, &met);
        t.left(&self.name, b"the output of 7, untouched", &[0xAA; 7], &out);
    }

    fn exact(self, t: &mut Tally) {
        let (met, out) = self.into_output::<8>();
        t.reply(&self.name, b"8 bytes into an output of 8", 0, &met);
        t.left(&self.name, b"the output of 8", &self.gives, &out);
    }

    fn long(self, t: &mut Tally) {
        let (met, out) = self.into_output::<16>();
        t.reply(&self.name, b"8 bytes into an output of 16", 0, &met);
        t.wrote(&self.name, b"bytes written of 16", 8, &met);
        let expected: [u8; 16] = joined(&self.gives, &[0xAA; 8]);
        t.left(
            &self.name,
            b"the output of 16, eight of them untouched",
            &expected,
            &out,
        );
    }
}

fn outputs(t: &mut Tally) {
    for (name, mode) in MODES {
        let block = Block::new(name, mode);
        block.short(t);
        block.exact(t);
        block.long(t);
    }
}

fn cbc(t: &mut Tally, words: &[u8], text: &[u8], expected: u8) {
    let mut out = [0; 32776];
    let met = by_mode(loaded(), 5, Mode::Cbce, text, &mut out);
    t.reply(b"CBCE", words, expected, &met);
    let met = by_mode(loaded(), 5, Mode::Cbcd, text, &mut out);
    t.reply(b"CBCD", words, expected, &met);
}

fn cbc_lengths(t: &mut Tally) {
    cbc(t, b"data of 0 bytes", &[], 12);
    cbc(t, b"data of 7 bytes", &[0; 7], 12);
    cbc(t, b"data of 8 bytes", &[0; 8], 0);
    cbc(t, b"data of 32768 bytes", &[0; 32768], 0);
    cbc(t, b"data of 32776 bytes", &[0; 32776], 12);
}

fn record(t: &mut Tally, words: &[u8], plain: &[u8], expected: u8) {
    let met = daut(loaded(), 5, b't', plain);
    t.reply(b"DAUT", words, expected, &met);
}

fn record_lengths(t: &mut Tally) {
    record(t, b"a record of 0 bytes", &[], 12);
    record(t, b"a record of 1 byte", &[0], 0);
    record(t, b"a record of 32768 bytes", &[0; 32768], 0);
    record(t, b"a record of 32769 bytes", &[0; 32769], 12);
}

// One zero byte, filled with seven more.
fn value(t: &mut Tally) {
    let met = daut(loaded(), 5, b't', &[0]);
    t.left(
        b"DAUT",
        b"the value of one zero byte",
        &LOW_ZEROS,
        &block_of(&met),
    );
}

pub fn all(t: &mut Tally) {
    outputs(t);
    cbc_lengths(t);
    record_lengths(t);
    value(t);
}
