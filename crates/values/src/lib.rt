// A word as a field of the command: a number, or bytes and where they come from.

#![tactic(auto)]

pub mod answer;
pub mod blocks;
pub mod fields;
pub mod functions;
pub mod hex;
pub mod numbers;
pub mod sources;

ghost use Rattle.std.specs.Prelude.{◌≡◌, Ok};
ghost use Rattle.stream.specs.Fields.{part};
ghost use Rattle.values.specs.Values.{numeric, fitting};
ghost use Rattle.values.specs.Results.{value_as};

use crate::sources::part_of;

// Where bytes come from: hex digits, the words of raw bytes, or letters of the line; or an answer.
#[derive(Clone, Copy)]
pub enum Origin {
    HexDigits,
    HexWords,
    Letters,
    Answered,
}

#[derive(Clone, Copy)]
pub struct Source {
    pub from: Origin,
    pub start: usize,
    pub end: usize,
}

pub const NO_BYTES: Source = Source {
    from: Origin::Letters,
    start: 0,
    end: 0,
};

// The answers so far: `kept` is the room for their bytes, filled from its start, and `ends` says where each answer's end there, the first entry being 0.
#[derive(Clone, Copy)]
pub struct Answers<'a> {
    pub kept: &'a [u8],
    pub ends: &'a [usize],
}

// The letters of a line from start to end.
#[derive(Clone, Copy)]
pub struct Part<'a> {
    pub line: &'a [u8],
    pub start: usize,
    pub end: usize,
}

impl<'a> Part<'a> {
    fn letters(self) -> &'a [u8]
        ensures { result.now ≡ part self.entry.start self.entry.end self.entry.line.now }
    {
        part_of(self.line, self.start, self.end)
    }

    fn source(self, from: Origin) -> Source
        ensures { result ≡ record { from = from; start = self.entry.start; end = self.entry.end } }
    {
        Source {
            from,
            start: self.start,
            end: self.end,
        }
    }
}

// A word as a field's value, a number or bytes. Both stand here, since `with_value` takes any two.
#[derive(Clone, Copy)]
pub struct Value {
    pub number: u32,
    pub bytes: Source,
}

impl Value {
    fn numeric(number: u32) -> Value
        ensures { value_as (Ok result) ≡ numeric number }
    {
        Value {
            number,
            bytes: NO_BYTES,
        }
    }

    fn of_bytes(bytes: Source) -> Value
        ensures { value_as (Ok result) ≡ fitting 0 bytes }
    {
        Value { number: 0, bytes }
    }
}
