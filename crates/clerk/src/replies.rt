// What the desk answers to a command: NOTARY's own line, and a line of words.
ghost use Rattle.std.specs.Prelude.{◌≡◌, ◌++◌};
ghost use Rattle.printout.specs.Inked.{inked};
ghost use Rattle.printout.specs.Lines.{line};
ghost use Rattle.talk.specs.Replies.{words_of};

use printout::lines::put_line;
use printout::page::Page;
use talk::replies::put_words;

// (`clerk/specs/Replies.reply` says which number and which bytes are an answer's.)
#[tactic(auto, using(printout::specs::Inked::inked_more))]
pub fn put_reply(page: &mut Page, ordinal: usize, tag: u8, number: u8, bytes: &[u8])
    ensures { page.new ≡ inked (line ordinal tag number bytes.now ++ words_of tag number) page.old }
{
    put_line(page, ordinal, tag, number, bytes);
    put_words(page, tag, number);
}
