// Numbers in decimal digits.
ghost use Rattle.std.specs.Prelude.{◌≡◌};
ghost use Rattle.values.specs.Numbers.{decimal_value, up_to};
ghost use Rattle.values.specs.Values.{number_value};
ghost use Rattle.values.specs.Results.{upto_as, value_as};

use crate::{Part, Value};
use words::letters::run_end;
use words::{Class, Expected, Wrong};

// The number that the digits say, if it is at most the limit.
#[tactic(auto, using(crate::specs::Numbers::reading))]
pub fn number_up_to(digits: &[u8], limit: u32) -> Option<u32>
    ensures { upto_as result ≡ up_to limit (decimal_value digits.now) }
{
    let mut n: u32 = 0;
    for digit in digits {
        n = n
            .checked_mul(10)?
            .checked_add(u32::from(digit.saturating_sub(b'0')))?;
    }
    (n <= limit).then_some(n)
}

// The word as a number up to the limit.
#[tactic(auto, unfolding(crate::specs::Values::number_value, crate::specs::Values::number_found))]
pub fn number_value(expected: Expected, limit: u32, word: Part) -> Result<Value, Wrong>
    ensures { value_as result ≡ number_value expected limit word.entry.line.now word.entry.start word.entry.end }
{
    let digits = run_end(word.line, word.start, Class::Digit);
    if digits < word.end {
        return Err(Wrong::at(digits, expected));
    }
    let number = number_up_to(word.letters(), limit).ok_or(Wrong::at(word.start, expected))?;
    Ok(Value::numeric(number))
}
