// A line for each case, in plain words, and how many of them were wrong.
// By `io`: `println!` is no plainer here, with a handle through every function and a result that
// none can use, and a page of `printout` has its bytes in upper case. `vectors` prints by the same
// few lines: a crate below both for them is no plainer.
ghost use Rattle.std.specs.Prelude.{◌≡◌};
ghost use Rattle.handed.specs.Counted.{counted};

use io::{print_decimal, print_hex, write_all};
use rules::answers::number_of;
use rules::{Outcome, Refusal, Reply};

#[derive(Clone, Copy, Default)]
pub struct Tally {
    pub cases: u64,
    pub wrong: u64,
}

fn text(s: &[u8]) {
    write_all(1, s);
}

// What a case expects, and meets.
pub trait Shown: Copy + PartialEq {
    fn show(self);
}

impl Shown for u64 {
    fn show(self) {
        print_decimal(1, self);
    }
}

// Whether something is so.
impl Shown for bool {
    fn show(self) {
        if self {
            text(b"yes");
        } else {
            text(b"no");
        }
    }
}

impl Shown for &[u8] {
    fn show(self) {
        for b in self {
            print_hex(1, u64::from(*b), 2);
        }
    }
}

// How many bytes of the output an answer says that it wrote.
fn written(met: &Result<Outcome, Refusal>) -> usize {
    match met {
        Ok(
            Outcome {
                reply: Reply::Output(n),
                ..
            },
        ) => *n,
        _ => 0,
    }
}

impl Tally {
    // No count of this program comes near 2^64.
    #[tactic(auto, unfolding(crate::specs::Counted::counted))]
    fn count(&mut self, right: bool)
        ensures { self.new ≡ counted right self.old }
    {
        self.cases = self.cases.wrapping_add(1);
        if !right {
            text(b", WRONG");
            self.wrong = self.wrong.wrapping_add(1);
        }
        text(b"\n");
    }

    pub fn case<T: Shown>(&mut self, command: &[u8], words: &[u8], expected: T, met: T)
        ensures { self.new ≡ counted (T.eq met expected) self.old }
    {
        text(command);
        text(b", ");
        text(words);
        text(b": expected ");
        expected.show();
        text(b", met ");
        met.show();
        self.count(met == expected);
    }

    // The reply to a command.
    pub fn reply(
        &mut self,
        command: &[u8],
        words: &[u8],
        expected: u8,
        met: &Result<Outcome, Refusal>,
    ) {
        self.case(
            command,
            words,
            u64::from(expected),
            u64::from(number_of(met)),
        );
    }

    // How many bytes of the output a command says that it wrote.
    pub fn wrote(
        &mut self,
        command: &[u8],
        words: &[u8],
        expected: usize,
        met: &Result<Outcome, Refusal>,
    ) {
        self.case(command, words, expected as u64, written(met) as u64);
    }

    // Bytes that a command leaves, gives or writes.
    pub fn left(&mut self, command: &[u8], words: &[u8], expected: &[u8], met: &[u8]) {
        self.case(command, words, expected, met);
    }

    // The last line.
    pub fn total(self) {
        self.cases.show();
        text(b" cases, ");
        self.wrong.show();
        text(b" wrong\n");
    }
}
