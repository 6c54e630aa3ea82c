// Blocks and data: hex digits, or the bytes of an answer.
ghost use Rattle.std.specs.Prelude.{◌≡◌, length};
ghost use Rattle.values.specs.Values.{hex_block, data_of, hex_data, bytes_value};
ghost use Rattle.values.specs.Results.{value_as};

use crate::answer::answer_value;
use crate::{Answers, Origin, Part, Source, Value};
use words::letters::{letter_at, run_end};
use words::split::span;
use words::{Class, Expected, Wrong};

#[tactic(auto, unfolding(crate::specs::Values::hex_block))]
fn hex_block(word: Part) -> Result<Value, Wrong>
    ensures { value_as result ≡ hex_block word.entry.line.now word.entry.start word.entry.end }
{
    let digits = run_end(word.line, word.start, Class::Hex);
    if span(word.start, digits) < 16 {
        return Err(Wrong::at(digits, Expected::Block));
    }
    if span(word.start, word.end) == 16 {
        Ok(Value::of_bytes(word.source(Origin::HexDigits)))
    } else {
        Err(Wrong::at(word.start + 16, Expected::Block))
    }
}

// So many bytes from a source, as data: there is a limit.
#[tactic(auto, unfolding(crate::specs::Values::data_of))]
pub fn data_of(start: usize, n: usize, from: Source) -> Result<Value, Wrong>
    ensures { value_as result ≡ data_of start n from }
{
    if n <= 65500 {
        Ok(Value::of_bytes(from))
    } else {
        Err(Wrong::at(start, Expected::FewerBytes))
    }
}

#[tactic(auto, unfolding(crate::specs::Values::hex_data))]
fn hex_data(word: Part) -> Result<Value, Wrong>
    ensures { value_as result ≡ hex_data word.entry.line.now word.entry.start word.entry.end }
{
    let digits = run_end(word.line, word.start, Class::Hex);
    if digits < word.end {
        return Err(Wrong::at(digits, Expected::Bytes));
    }
    let n = span(word.start, word.end);
    if n % 2 == 0 {
        data_of(word.start, n / 2, word.source(Origin::HexDigits))
    } else {
        Err(Wrong::at(word.end, Expected::Bytes))
    }
}

// A block, which has eight bytes, or data.
#[tactic(auto, unfolding(crate::specs::Values::bytes_value), using(words::specs::Letters::letter_there))]
pub fn bytes_value(eight: bool, answers: Answers, word: Part) -> Result<Value, Wrong>
    ensures { value_as result ≡ bytes_value eight (length answers.entry.kept.now) answers.entry.ends.now word.entry.line.now word.entry.start word.entry.end }
{
    if letter_at(word.line, word.start) == b'$' {
        let digits = Part {
            start: word.start + 1,
            ..word
        };
        return answer_value(eight, answers, word.start, digits);
    }
    if eight {
        hex_block(word)
    } else {
        hex_data(word)
    }
}
