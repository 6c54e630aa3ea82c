// The page's table of commands: what refuses each, and what each does. `specs/Commands.antt` is the definition; here is what the commands' code shares.

#![tactic(auto)]

pub mod answers;
pub mod conditions;
pub mod sides;

use state::Facility;

// What a key function asks for: t, r, s, or none of them. No Option: `sides::pair_key`, `side_for`, `with_key` and `with_vector` promise an answer to that, too.
#[derive(Clone, Copy)]
pub enum Function {
    Transmit,
    Receive,
    Both,
    Neither,
}

// The page's "Refusal numbers", in its order. (`specs/Refusals.number` has the numbers.)
#[derive(Clone, Copy, PartialEq, Eq, Debug)]
pub enum Refusal {
    Identifier,
    TableLength,
    NotActive,
    AlreadyActive,
    KeyFunction,
    Interchange,
    OutOfTurn,
    AllTaken,
    NotAuthenticated,
    KeyMissing,
    VectorMissing,
    DataLength,
    OutputLength,
    EvenParity,
    NoEntry,
    Form,
    Cut,
}

// What a command gives that is done: no more than that; eight bytes; or so many bytes written to the output.
#[derive(Clone, Copy)]
pub enum Reply {
    Plain,
    Block([u8; 8]),
    Output(usize),
}

// The facility after a command that is done, and its reply.
#[derive(Clone, Copy)]
pub struct Outcome {
    pub state: Facility,
    pub reply: Reply,
}
