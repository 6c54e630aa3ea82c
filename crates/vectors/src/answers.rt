// Answers beside the published ones.
ghost use Rattle.std.specs.Prelude.{◌≡◌, ◌+◌, ◌%◌, ◌^◌};
ghost use Rattle.vectors.specs.Answers.{one};

use crate::report::wrong;

// The right answers, each way, and the wrong ones.
#[derive(Clone, Copy)]
pub struct Tally {
    pub enciphered: u64,
    pub deciphered: u64,
    pub wrong: u64,
}

impl Tally {
    // No sum of this program comes near 2^64.
    pub fn plus(self, other: Tally) -> Tally
        ensures { (result.enciphered ≡ (self.enciphered + other.enciphered) % 2 ^ 64)
            × (result.deciphered ≡ (self.deciphered + other.deciphered) % 2 ^ 64)
            × (result.wrong ≡ (self.wrong + other.wrong) % 2 ^ 64) }
    {
        Tally {
            enciphered: self.enciphered.wrapping_add(other.enciphered),
            deciphered: self.deciphered.wrapping_add(other.deciphered),
            wrong: self.wrong.wrapping_add(other.wrong),
        }
    }
}

// Where an answer stands: its group, and its row from 1.
#[derive(Clone, Copy)]
pub struct Place<'a> {
    pub group: &'a [u8],
    pub row: usize,
}

impl Place<'_> {
    // 1 for an answer that is the published one; else 0, and a line that says so.
    #[tactic(auto, unfolding(crate::specs::Answers::one))]
    pub fn judged(self, answer: &[u8], published: &[u8]) -> u64
        ensures { result ≡ one answer.now published.now }
    {
        let right = answer == published;
        if !right {
            wrong(self, answer, published);
        }
        u64::from(right)
    }
}
