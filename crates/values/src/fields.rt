// A word as a field of the command.
ghost use Rattle.std.specs.Prelude.{◌≡◌, length, Ok};
ghost use Rattle.ground.specs.Lists.{padded};
ghost use Rattle.values.specs.Sources.{meant};
ghost use Rattle.values.specs.Fields.{expected_for, plain_value, text_value, value_of, with_value};
ghost use Rattle.values.specs.Results.{value_as};

use crate::blocks::{bytes_value, data_of};
use crate::functions::function_value;
use crate::numbers::number_value;
use crate::sources::put_meant;
use crate::{Answers, Origin, Part, Source, Value};
use printout::page::Page;
use stream::Request;
use words::split::{quote_before, span};
use words::{Expected, Word, Wrong};

// A field goes by its tag, as in the stream; any byte may be asked for.
#[tactic(auto, unfolding(crate::specs::Fields::expected_for))]
fn expected_for(field: u8) -> Expected
    ensures { result ≡ expected_for field }
{
    match field {
        0x81 | 0x82 => Expected::Identifier,
        0x83 => Expected::Interchange,
        0x84 => Expected::Function,
        0x85 | 0x86 => Expected::Block,
        0x87 => Expected::Bytes,
        _ => Expected::NothingMore,
    }
}

#[tactic(auto, unfolding(crate::specs::Fields::plain_value))]
fn plain_value(field: u8, answers: Answers, word: Part) -> Result<Value, Wrong>
    ensures { value_as result ≡ plain_value field (length answers.entry.kept.now) answers.entry.ends.now word.entry.line.now word.entry.start word.entry.end }
{
    match field {
        0x81 | 0x82 => number_value(Expected::Identifier, u32::MAX, word),
        0x83 => number_value(Expected::Interchange, 255, word),
        0x84 => function_value(word),
        0x85 | 0x86 => bytes_value(true, answers, word),
        0x87 => bytes_value(false, answers, word),
        _ => Err(Wrong::at(word.start, Expected::NothingMore)),
    }
}

#[tactic(auto, unfolding(crate::specs::Fields::text_value))]
fn text_value(field: u8, start: usize, end: usize) -> Result<Value, Wrong>
    ensures { value_as result ≡ text_value field start end }
{
    let at = quote_before(start);
    if field == 0x87 {
        let from = Source {
            from: Origin::Letters,
            start,
            end,
        };
        data_of(at, span(start, end), from)
    } else {
        Err(Wrong::at(at, expected_for(field)))
    }
}

// The word as that field's value.
#[tactic(auto, unfolding(crate::specs::Fields::value_of))]
pub fn value_of(field: u8, line: &[u8], answers: Answers, word: Word) -> Result<Value, Wrong>
    ensures { value_as result ≡ value_of field line.now (length answers.entry.kept.now) answers.entry.ends.now word }
{
    match word {
        Word::PlainWord { start, end } => plain_value(field, answers, Part { line, start, end }),
        Word::TextWord { start, end } => text_value(field, start, end),
        Word::Broken { at, expected } => Err(Wrong { at, expected }),
        Word::NoWord { at } => Err(Wrong::at(at, expected_for(field))),
    }
}

// The first eight bytes of a source.
#[tactic(auto, using(crate::proofs::Laws::eight_padded), unfolding(printout::specs::Inked::inked))]
fn eight_of(from: Source, line: &[u8], kept: &[u8]) -> [u8; 8]
    ensures { result ≡ padded 8 (meant from line.now kept.now) }
{
    let mut block = [0u8; 8];
    put_meant(&mut Page::new(&mut block), from, line, kept);
    block
}

// The request with one field more.
#[tactic(auto, using(crate::proofs::Laws::one_byte, crate::proofs::Laws::four_bytes), unfolding(crate::specs::Fields::with_value, crate::specs::Values::fitting, crate::specs::Fields::value_bytes, stream::specs::Commands::filled))]
pub fn with_value(field: u8, value: Value, line: &[u8], kept: &[u8], asked: Request) -> Request
    ensures { result ≡ with_value field (value_as (Ok value)) line.now kept.now asked }
{
    let mut a = asked;
    let number = value.number;
    match field {
        0x81 => a.issuer = number,
        0x82 => a.party = number,
        0x83 => a.interchange = (number % 256) as u8,
        0x84 => a.function = (number % 256) as u8,
        0x85 => a.block = eight_of(value.bytes, line, kept),
        0x86 => a.second = eight_of(value.bytes, line, kept),
        _ => {}
    }
    a
}
