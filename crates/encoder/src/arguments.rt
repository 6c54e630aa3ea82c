// A command's arguments: each by its tag.
ghost use Rattle.std.specs.Prelude.{◌≡◌};
ghost use Rattle.printout.specs.Inked.{inked};
ghost use Rattle.stream.specs.Fields.{field};
ghost use Rattle.stream.specs.Grammar.{argument, spelled};
ghost use Rattle.encoder.specs.Written.{one_size, all_sizes, counted};

use crate::fields::put_field;
use printout::page::Page;
use stream::Request;

// By its tag, as in the stream: any byte may be asked for. Numbers with the high byte first.
#[tactic(auto, using(crate::proofs::ByForm::four_bytes), unfolding(stream::specs::Grammar::argument))]
fn put_argument(page: &mut Page, k: u8, asked: Request, text: &[u8])
    ensures { page.new ≡ inked (field k (argument k asked text.now)) page.old }
{
    match k {
        0x81 => put_field(page, k, &asked.issuer.to_be_bytes()),
        0x82 => put_field(page, k, &asked.party.to_be_bytes()),
        0x83 => put_field(page, k, &[asked.interchange]),
        0x84 => put_field(page, k, &[asked.function]),
        0x85 => put_field(page, k, &asked.block),
        0x86 => put_field(page, k, &asked.second),
        0x87 => put_field(page, k, text),
        _ => put_field(page, k, &[]),
    }
}

// The argument fields of a command, one after the other.
#[tactic(auto, using(printout::specs::Inked::entries, crate::proofs::ByForm::fields_more), unfolding(stream::specs::Grammar::spelled))]
pub(crate) fn put_arguments(page: &mut Page, arguments: &[u8], asked: Request, text: &[u8])
    ensures { page.new ≡ inked (spelled arguments.now asked text.now) page.old }
{
    for k in arguments {
        put_argument(page, *k, asked, text);
    }
}

// The length of an argument's field, with n bytes of data.
#[tactic(auto, unfolding(crate::specs::Written::one_size))]
fn field_size(k: u8, n: usize) -> usize
    ensures { result ≡ counted (one_size k n) }
{
    match k {
        0x81 | 0x82 => 7,
        0x83 | 0x84 => 4,
        0x85 | 0x86 => 11,
        0x87 => n.saturating_add(3),
        _ => 3,
    }
}

// The length of all of them.
#[tactic(auto, using(crate::specs::Written::sizes_counted))]
pub(crate) fn value_size(arguments: &[u8], n: usize) -> usize
    ensures { result ≡ counted (all_sizes arguments.now n) }
{
    let mut size = 0usize;
    for k in arguments {
        size = size.saturating_add(field_size(*k, n));
    }
    size
}
