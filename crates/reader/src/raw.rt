// Raw bytes: hex digits after a `!`.
ghost use Rattle.std.specs.Prelude.{◌≡◌, length, Ok};
ghost use Rattle.reader.specs.Raw.{raw_hex, raw_turn, raw_turns, raw_line};
ghost use Rattle.reader.specs.Results.{line_as};

use crate::Line;
use names::Says;
use values::{Origin, Part, Source};
use words::letters::run_end;
use words::split::{quote_before, span, word_at};
use words::{Class, Expected, Word, Wrong};

// A plain word: an even number of hex digits.
#[tactic(auto, unfolding(crate::specs::Raw::raw_hex))]
fn raw_hex(word: Part, r: Line) -> Result<Line, Wrong>
    ensures { line_as result ≡ raw_hex word.entry.line.now (line_as (Ok r)) word.entry.start word.entry.end }
{
    let digits = run_end(word.line, word.start, Class::Hex);
    if digits < word.end {
        return Err(Wrong::at(digits, Expected::RawBytes));
    }
    if span(word.start, word.end) % 2 == 0 {
        Ok(Line::so_far(Says::Raw, 0, word.end, r.bytes))
    } else {
        Err(Wrong::at(word.end, Expected::RawBytes))
    }
}

#[tactic(auto, unfolding(crate::specs::Raw::raw_turn, crate::specs::Raw::raw_word))]
fn raw_turn(line: &[u8], r: Line) -> Result<Line, Wrong>
    ensures { line_as result ≡ raw_turn line.now (line_as (Ok r)) }
{
    match word_at(line, r.at) {
        Word::PlainWord { start, end } => raw_hex(Part { line, start, end }, r),
        Word::TextWord { start, .. } => Err(Wrong::at(quote_before(start), Expected::RawBytes)),
        Word::Broken { at, expected } => Err(Wrong { at, expected }),
        Word::NoWord { at } => Ok(Line::so_far(Says::Raw, 0, at, r.bytes)),
    }
}

#[tactic(auto, using(crate::proofs::Steps::turns))]
fn raw_turns(line: &[u8], r: Line) -> Result<Line, Wrong>
    ensures { line_as result ≡ raw_turns line.now (length line.now) (line_as (Ok r)) }
{
    let mut q = r;
    for _ in 0..line.len() {
        q = raw_turn(line, q)?;
    }
    Ok(q)
}

// At least one word of hex digits, and no other.
#[tactic(auto, unfolding(crate::specs::Raw::raw_line, crate::specs::Raw::raw_start))]
pub fn raw_line(line: &[u8], at: usize) -> Result<Line, Wrong>
    ensures { line_as result ≡ raw_line line.now at }
{
    match word_at(line, at) {
        Word::PlainWord { .. } => {
            let bytes = Source {
                from: Origin::HexWords,
                start: at,
                end: line.len(),
            };
            raw_turns(line, Line::so_far(Says::Raw, 0, at, bytes))
        }
        Word::TextWord { start, .. } => Err(Wrong::at(quote_before(start), Expected::RawBytes)),
        Word::Broken { at, expected } => Err(Wrong { at, expected }),
        Word::NoWord { at } => Err(Wrong::at(at, Expected::RawBytes)),
    }
}
