// A page is a lent buffer, filled from its start on; what finds no room is left out.
ghost use Rattle.std.specs.Prelude.{◌≡◌, [], ◌∷◌, take};
ghost use Rattle.printout.specs.Page.{page, entered};
ghost use Rattle.printout.specs.Inked.{inked};

// A letter at this place, and the place behind it: on the letters alone, with the place in hand. Through a page each letter would load and store it.
#[tactic(auto, unfolding(crate::specs::Page::entered, crate::specs::Page::letter))]
pub(crate) fn put_at(letters: &mut [u8], at: usize, letter: u8) -> usize
    ensures { page letters.new result ≡ entered (letter ∷ []) (page letters.old at) }
{
    if at < letters.len() {
        letters[at] = letter;
        at + 1
    } else {
        at
    }
}

// A text that finds room is copied whole; of another goes on what finds room, letter by letter.
#[tactic(auto, using(crate::specs::Page::parts))]
fn put_all_at(letters: &mut [u8], at: usize, text: &[u8]) -> usize
    ensures { page letters.new result ≡ entered text.now (page letters.old at) }
{
    if at <= letters.len() && text.len() <= letters.len() - at {
        letters[at..at + text.len()].copy_from_slice(text);
        return at + text.len();
    }
    let mut to = at;
    for x in text {
        to = put_at(letters, to, *x);
    }
    to
}

// The letters that are lent, and how far they are filled.
#[derive(Drop)]
pub struct Page<'a> {
    pub letters: &'a mut [u8],
    pub filled: usize,
}

impl<'a> Page<'a> {
    pub fn new(letters: &'a mut [u8]) -> Page<'a>
        ensures { result ≡ record { letters = letters.entry; filled = 0 } }
    {
        Page { letters, filled: 0 }
    }

    #[tactic(auto, unfolding(crate::specs::Inked::inked, crate::specs::Page::entered, crate::specs::Page::letter))]
    pub fn put(&mut self, letter: u8)
        ensures { self.new ≡ inked (letter ∷ []) self.old }
    {
        let at = self.filled;
        if at < self.letters.len() {
            self.letters[at] = letter;
            self.filled = at + 1;
        }
    }

    #[tactic(auto, unfolding(crate::specs::Inked::inked))]
    pub fn put_all(&mut self, text: &[u8])
        ensures { self.new ≡ inked text.now self.old }
    {
        self.filled = put_all_at(self.letters, self.filled, text);
    }
}

// At most so many of the bytes.
pub fn first_of(bytes: &[u8], n: usize) -> &[u8]
    ensures { result.now ≡ take n bytes.now }
{
    &bytes[..n.min(bytes.len())]
}
