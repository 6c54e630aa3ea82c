// A key's function: `t`, `r` or `s`.
ghost use Rattle.std.specs.Prelude.{◌≡◌};
ghost use Rattle.values.specs.Values.{function_letter, function_value};
ghost use Rattle.values.specs.Results.{value_as};

use crate::{Part, Value};
use words::letters::letter_at;
use words::split::span;
use words::{Expected, Wrong};

#[tactic(auto, unfolding(crate::specs::Values::function_letter))]
fn is_function(letter: u8) -> bool
    ensures { result ≡ function_letter letter }
{
    matches!(letter, b't' | b'r' | b's')
}

#[tactic(auto, unfolding(crate::specs::Values::function_value))]
pub fn function_value(word: Part) -> Result<Value, Wrong>
    ensures { value_as result ≡ function_value word.entry.line.now word.entry.start word.entry.end }
{
    let letter = letter_at(word.line, word.start);
    if span(word.start, word.end) == 1 && is_function(letter) {
        Ok(Value::numeric(u32::from(letter)))
    } else {
        Err(Wrong::at(word.start, Expected::Function))
    }
}
