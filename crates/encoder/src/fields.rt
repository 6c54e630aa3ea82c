// A field: a one-byte tag, a two-byte length, high byte first, and the value.
ghost use Rattle.std.specs.Prelude.{◌≡◌, ◌∷◌};
ghost use Rattle.ground.specs.Rows.{digits};
ghost use Rattle.stream.specs.Fields.{field};
ghost use Rattle.printout.specs.Inked.{inked};

use printout::page::Page;

// The tag, and the last two bytes of the length.
pub(crate) fn put_header(page: &mut Page, tag: u8, n: usize)
    ensures { page.new ≡ inked (tag ∷ digits 256 2 n) page.old }
{
    let [.., high, low] = n.to_be_bytes();
    page.put_all(&[tag, high, low]);
}

#[tactic(auto, using(printout::specs::Inked::entries))]
pub(crate) fn put_field(page: &mut Page, tag: u8, value: &[u8])
    ensures { page.new ≡ inked (field tag value.now) page.old }
{
    put_header(page, tag, value.len());
    page.put_all(value);
}
