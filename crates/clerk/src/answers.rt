// An answer's bytes, onto a page: onto that of the bytes kept, for one.
ghost use Rattle.std.specs.Prelude.{◌≡◌};
ghost use Rattle.printout.specs.Inked.{inked};

use printout::page::Page;

// The bytes returned or, for a mode, written: any that there are, so that no answer is left out.
// (`session/specs/Run.shown_of` says which bytes are an answer's; `shown` tells them.)
pub fn put_returned(page: &mut Page, bytes: &[u8])
    ensures { page.new ≡ inked bytes.now page.old }
{
    page.put_all(bytes);
}
