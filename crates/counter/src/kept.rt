// The bytes of the answers, kept for `$n`.
ghost use Rattle.std.specs.Prelude.{◌≡◌, ◌+◌, take, replicate};
ghost use Rattle.printout.specs.Inked.{sheet, bearing};
ghost use Rattle.counter.specs.Kept.{kept_bytes, end_marked, with_bytes};
ghost use Rattle.counter.specs.Holds.{books_as, with_books};

use clerk::answers::put_returned;
use printout::page::Page;
use values::Answers;

// Room for the bytes of the answers. (Made here, where the length is proved from its number alone: a caller that made it would have the check count to it.)
pub fn room() -> [u8; 1048576]
    ensures { result ≡ replicate 1048576 0 }
{
    [0; 1048576]
}

// The answers so far: their bytes, as far as they found room; where each ends there, behind a 0; and how many there are.
// (The count stands beside the ends, since it runs on past them.)
#[derive(Drop)]
pub struct Books<'a> {
    pub kept: Page<'a>,
    pub ends: &'a mut [usize],
    pub count: usize,
}

// An answer's bytes, while they find room.
#[tactic(auto, unfolding(crate::specs::Kept::kept_bytes, printout::specs::Inked::inked))]
fn keep_bytes(kept: &mut Page, bytes: &[u8])
    ensures { kept.new ≡ bearing (kept_bytes bytes.now (sheet kept.old)) kept.old }
{
    let room = kept.letters.len();
    if kept.filled <= room && bytes.len() <= room - kept.filled {
        put_returned(kept, bytes);
    }
}

// Where answer n ends; the first answers only, as many as there are ends for.
#[tactic(auto, unfolding(crate::specs::Kept::end_marked))]
fn mark_end(ends: &mut [usize], n: usize, to: usize)
    ensures { ends.new ≡ end_marked ends.old n to }
{
    if n < ends.len() {
        ends[n] = to;
    }
}

impl<'a> Books<'a> {
    // Before the first answer.
    pub fn new(kept: &'a mut [u8], ends: &'a mut [usize]) -> Books<'a>
        ensures { result ≡ record { kept = record { letters = kept.entry; filled = 0 }; ends = ends.entry; count = 0 } }
    {
        Books {
            kept: Page::new(kept),
            ends,
            count: 0,
        }
    }

    // What `$n` means: the ends are those of the answers given, with the 0 before them.
    pub fn answers(&self) -> Answers<'_>
        ensures kept { result.kept.now ≡ self.now.kept.letters.now }
        ensures ends { result.ends.now ≡ take (self.now.count + 1) self.now.ends.now }
    {
        Answers {
            kept: self.kept.letters,
            ends: &self.ends[..self.ends.len().min(self.count.saturating_add(1))],
        }
    }

    // One answer more, with these bytes.
    #[tactic(auto, unfolding(crate::specs::Kept::next))]
    pub fn keep(&mut self, bytes: &[u8])
        ensures { self.new ≡ with_books (with_bytes bytes.now (books_as self.old)) self.old }
    {
        self.count = self.count.saturating_add(1);
        keep_bytes(&mut self.kept, bytes);
        mark_end(self.ends, self.count, self.kept.filled);
    }
}
