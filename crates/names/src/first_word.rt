// What a line says by its first word.
ghost use Rattle.std.specs.Prelude.{◌≡◌};
ghost use Rattle.names.specs.Names.{desk_start, start_of};
ghost use Rattle.names.specs.FirstWord.{start_as};

use crate::spelling::is_name;
use crate::{COMMANDS, FirstWord};

// The desk's own words, and `!` for raw bytes: each is of a kind of its own, so a table would be no plainer.
#[tactic(auto, unfolding(crate::specs::Names::desk_start))]
fn desk_start(word: &[u8]) -> Option<FirstWord>
    ensures { start_as result ≡ desk_start word.now }
{
    if is_name(word, b"!") {
        Some(FirstWord::Raw)
    } else if is_name(word, b"HELP") {
        Some(FirstWord::Help)
    } else if is_name(word, b"WHO") {
        Some(FirstWord::Who)
    } else if is_name(word, b"QUIT") {
        Some(FirstWord::Quit)
    } else {
        None
    }
}

// What a line that starts with this word is to say.
#[tactic(auto, unfolding(crate::specs::Names::start_of))]
pub fn start_of(word: &[u8]) -> Option<FirstWord>
    ensures { start_as result ≡ start_of word.now }
{
    for (tag, name) in COMMANDS {
        if is_name(word, name) {
            return Some(FirstWord::Command(tag));
        }
    }
    desk_start(word)
}
