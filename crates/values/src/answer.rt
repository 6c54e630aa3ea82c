// `$n`: the bytes of answer n.
ghost use Rattle.std.specs.Prelude.{◌≡◌, length};
ghost use Rattle.values.specs.Sources.{answer_source};
ghost use Rattle.values.specs.Values.{expected_bytes, answer_block, answer_data, answer_value};
ghost use Rattle.values.specs.Results.{source_as, value_as};

use crate::blocks::data_of;
use crate::numbers::number_up_to;
use crate::{Answers, Origin, Part, Source, Value};
use words::letters::run_end;
use words::split::span;
use words::{Class, Expected, Wrong};

// Where the bytes of answer n stand, if it is there.
#[tactic(auto, unfolding(crate::specs::Sources::answer_source))]
fn answer_source(answers: Answers, n: usize) -> Option<Source>
    ensures { source_as result ≡ answer_source (length answers.entry.kept.now) answers.entry.ends.now n }
{
    let before = n.checked_sub(1)?;
    let end = *answers.ends.get(n)?;
    if answers.kept.len() < end {
        return None;
    }
    let start = answers.ends[before];
    Some(Source {
        from: Origin::Answered,
        start,
        end,
    })
}

#[tactic(auto, unfolding(crate::specs::Values::answer_block))]
fn answer_block(start: usize, from: Source) -> Result<Value, Wrong>
    ensures { value_as result ≡ answer_block start from }
{
    if span(from.start, from.end) == 8 {
        Ok(Value::of_bytes(from))
    } else {
        Err(Wrong::at(start, Expected::Block))
    }
}

#[tactic(auto, unfolding(crate::specs::Values::answer_data))]
fn answer_data(start: usize, from: Source) -> Result<Value, Wrong>
    ensures { value_as result ≡ answer_data start from }
{
    if from.start < from.end {
        data_of(start, span(from.start, from.end), from)
    } else {
        Err(Wrong::at(start, Expected::Bytes))
    }
}

fn expected_bytes(eight: bool) -> Expected
    ensures { result ≡ expected_bytes eight }
{
    if eight {
        Expected::Block
    } else {
        Expected::Bytes
    }
}

// The `$` stands at `at`, and the digits of n are this part of the line.
#[tactic(auto, unfolding(crate::specs::Values::answer_value, crate::specs::Values::answer_found, crate::specs::Values::answer_block, crate::specs::Values::answer_data))]
pub fn answer_value(eight: bool, answers: Answers, at: usize, digits: Part) -> Result<Value, Wrong>
    ensures { value_as result ≡ answer_value eight (length answers.entry.kept.now) answers.entry.ends.now digits.entry.line.now at digits.entry.start digits.entry.end }
{
    let expected = expected_bytes(eight);
    let stop = run_end(digits.line, digits.start, Class::Digit);
    if stop < digits.end {
        return Err(Wrong { at: stop, expected });
    }
    if digits.end <= digits.start {
        return Err(Wrong::at(digits.start, expected));
    }
    let wrong = Wrong { at, expected };
    let n = number_up_to(digits.letters(), u32::MAX).ok_or(wrong)?;
    let from = answer_source(answers, n as usize).ok_or(wrong)?;
    if eight {
        answer_block(at, from)
    } else {
        answer_data(at, from)
    }
}
