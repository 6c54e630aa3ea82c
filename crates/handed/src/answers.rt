// What an answer gives: beside `rules::answers`, which has its number and the facility afterwards.
ghost use Rattle.std.specs.Prelude.{◌≡◌};
ghost use Rattle.rules.specs.Outcomes.{block_of};

use rules::{Outcome, Refusal, Reply};

// The bytes returned; zeros where there are none.
pub fn block_of(met: &Result<Outcome, Refusal>) -> [u8; 8]
    ensures { result ≡ block_of met.now }
{
    match met {
        Ok(
            Outcome {
                reply: Reply::Block(block),
                ..
            },
        ) => *block,
        _ => [0; 8],
    }
}
