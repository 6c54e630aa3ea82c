// The names of the commands, and the other words that a line can start with.

#![tactic(auto)]

pub mod by_tag;
pub mod first_word;
pub mod spelling;

// What a line says.
#[derive(Clone, Copy)]
pub enum Says {
    Nothing,
    Command,
    Raw,
    Help,
    Who,
    Quit,
}

// What a first word begins: a command with its tag, or another of these.
#[derive(Clone, Copy)]
pub enum FirstWord {
    Command(u8),
    Raw,
    Help,
    Who,
    Quit,
}

// The commands' names, by their tags: a user and his keys, records, the officer and the host.
pub const COMMANDS: [(u8, &[u8]); 20] = [
    (0x01, b"RAS"),
    (0x02, b"LAU"),
    (0x03, b"CPW"),
    (0x04, b"GDK"),
    (0x05, b"LDK"),
    (0x06, b"GIV"),
    (0x07, b"LIV"),
    (0x08, b"EIV"),
    (0x09, b"RDK"),
    (0x0A, b"ECBE"),
    (0x0B, b"ECBD"),
    (0x0C, b"CBCE"),
    (0x0D, b"CBCD"),
    (0x0E, b"CFBE"),
    (0x0F, b"CFBD"),
    (0x10, b"DAUT"),
    (0x20, b"EIK"),
    (0x21, b"IPW"),
    (0x22, b"RPW"),
    (0x23, b"LOGOUT"),
];
