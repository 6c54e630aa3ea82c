// Letters of a line, and runs of one kind.
ghost use Rattle.std.specs.Prelude.{◌≡◌, ◌+◌, drop, get_or};
ghost use Rattle.words.specs.Letters.{between, blank_letter, is_in, front};

use crate::Class;

#[tactic(auto, unfolding(crate::specs::Letters::between))]
pub fn is_between(first: u8, last: u8, letter: u8) -> bool
    ensures { result ≡ between first last letter }
{
    first <= letter && letter <= last
}

// A space, a tab, a carriage return.
#[tactic(auto, unfolding(crate::specs::Letters::blank_letter))]
fn is_blank(letter: u8) -> bool
    ensures { result ≡ blank_letter letter }
{
    matches!(letter, b' ' | b'\t' | b'\r')
}

#[tactic(auto, unfolding(crate::specs::Letters::is_in, crate::specs::Letters::between))]
fn is_hex(letter: u8) -> bool
    ensures { result ≡ is_in Class.Hex letter }
{
    matches!(letter, b'0'..=b'9' | b'A'..=b'F' | b'a'..=b'f')
}

#[tactic(auto, unfolding(crate::specs::Letters::is_in))]
fn is_in(class: Class, letter: u8) -> bool
    ensures { result ≡ is_in class letter }
{
    match class {
        Class::Blank => is_blank(letter),
        Class::Plain => !is_blank(letter) && letter != b'#',
        Class::Text => letter != b'"',
        Class::Digit => is_between(b'0', b'9', letter),
        Class::Hex => is_hex(letter),
    }
}

// Where the run of such letters that starts here ends. (By number: the place is what is asked for, and a chain would count from `at`.)
#[tactic(auto, using(crate::specs::Letters::front_steps))]
pub fn run_end(line: &[u8], at: usize, class: Class) -> usize
    ensures { result ≡ at + front class (drop at line.now) }
{
    for i in at..line.len() {
        if !is_in(class, line[i]) {
            return i;
        }
    }
    at.max(line.len())
}

// The letter there; 0 where the line has ended.
pub fn letter_at(line: &[u8], at: usize) -> u8
    ensures { result ≡ get_or line.now at 0 }
{
    line.get(at).copied().unwrap_or(0)
}
