// A command's name, by its tag.
ghost use Rattle.std.specs.Prelude.{◌≡◌};
ghost use Rattle.printout.specs.Inked.{inked};
ghost use Rattle.names.specs.Names.{name};

use crate::COMMANDS;
use printout::page::Page;

#[tactic(auto, using(crate::proofs::Table::name_found), unfolding(crate::specs::Names::name))]
fn name_of(tag: u8) -> &'static [u8]
    ensures { result.now ≡ name tag }
{
    for (known, name) in COMMANDS {
        if known == tag {
            return name;
        }
    }
    b"unknown tag"
}

pub fn put_name(page: &mut Page, tag: u8)
    ensures { page.new ≡ inked (name tag) page.old }
{
    page.put_all(name_of(tag));
}
