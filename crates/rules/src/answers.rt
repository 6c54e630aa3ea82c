// Answers: the numbers of refusals, the outcomes of what is done, and what an answer tells.
ghost use Rattle.std.specs.Prelude.{◌≡◌};
ghost use Rattle.rules.specs.Refusals.{number};
ghost use Rattle.rules.specs.Step.{number_of};
ghost use Rattle.rules.specs.Outcomes.{answer_of, state_of, refusal_of, done_of, gave_of, wrote_of};

use crate::{Outcome, Refusal, Reply};
use cipher::modes::Misfit;
use state::Facility;

impl From<Refusal> for u8 {
    ghost from_gives = { λ e n. n ≡ number e };

    fn from(why: Refusal) -> u8 {
        match why {
            Refusal::Identifier => 1,
            Refusal::TableLength => 2,
            Refusal::NotActive => 3,
            Refusal::AlreadyActive => 4,
            Refusal::KeyFunction => 5,
            Refusal::Interchange => 6,
            Refusal::OutOfTurn => 7,
            Refusal::AllTaken => 8,
            Refusal::NotAuthenticated => 9,
            Refusal::KeyMissing => 10,
            Refusal::VectorMissing => 11,
            Refusal::DataLength => 12,
            Refusal::OutputLength => 13,
            Refusal::EvenParity => 14,
            Refusal::NoEntry => 15,
            Refusal::Form => 16,
            Refusal::Cut => 17,
        }
    }
}

// What a mode cannot take, the page's commands refuse.
impl From<Misfit> for Refusal {
    ghost from_gives = { λ m e. e ≡ refusal_of m };

    #[tactic(auto, unfolding(crate::specs::Outcomes::refusal_of))]
    fn from(misfit: Misfit) -> Refusal {
        match misfit {
            Misfit::BadLength => Refusal::DataLength,
            Misfit::NoRoom => Refusal::OutputLength,
        }
    }
}

pub fn done(state: Facility) -> Outcome
    ensures { result ≡ done_of state }
{
    Outcome {
        state,
        reply: Reply::Plain,
    }
}

pub fn given(state: Facility, block: [u8; 8]) -> Outcome
    ensures { result ≡ gave_of state block }
{
    Outcome {
        state,
        reply: Reply::Block(block),
    }
}

pub fn wrote(state: Facility, n: usize) -> Outcome
    ensures { result ≡ wrote_of state n }
{
    Outcome {
        state,
        reply: Reply::Output(n),
    }
}

// The page's number of an answer.
pub fn number_of(answer: &Result<Outcome, Refusal>) -> u8
    ensures { result ≡ number_of (answer_of answer.now) }
{
    match answer {
        Ok(_) => 0,
        Err(why) => u8::from(*why),
    }
}

// The facility after an answer: a refusal leaves it.
pub fn state_after(f: Facility, answer: &Result<Outcome, Refusal>) -> Facility
    ensures { result ≡ state_of f answer.now }
{
    match answer {
        Ok(outcome) => outcome.state,
        Err(_) => f,
    }
}
