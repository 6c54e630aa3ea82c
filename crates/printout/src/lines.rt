// One line a command: ordinal, tag, reply number, and the bytes or "-", with single spaces.
ghost use Rattle.std.specs.Prelude.{◌≡◌};
ghost use Rattle.printout.specs.Inked.{inked};
ghost use Rattle.printout.specs.Lines.{shown, line};

use crate::page::Page;

#[tactic(auto, unfolding(crate::specs::Lines::shown))]
fn put_shown(page: &mut Page, bytes: &[u8])
    ensures { page.new ≡ inked (shown bytes.now) page.old }
{
    if bytes.is_empty() {
        page.put(b'-');
    } else {
        page.put_hex(bytes);
    }
}

pub fn put_line(page: &mut Page, ordinal: usize, tag: u8, reply: u8, bytes: &[u8])
    ensures { page.new ≡ inked (line ordinal tag reply bytes.now) page.old }
{
    page.put_decimal(ordinal);
    page.put(b' ');
    page.put_hex_byte(tag);
    page.put(b' ');
    page.put_decimal(usize::from(reply));
    page.put(b' ');
    put_shown(page, bytes);
    page.put(b'\n');
}
