// Numbers in decimal, bytes in upper-case hexadecimal.
ghost use Rattle.std.specs.Prelude.{◌≡◌, ◌<◌};
ghost use Rattle.printout.specs.Page.{page, entered};
ghost use Rattle.printout.specs.Digits.{hex_digit, hex_byte, hex, decimal};
ghost use Rattle.printout.specs.Inked.{inked};

use crate::page::{Page, put_at};

#[tactic(auto, unfolding(crate::specs::Digits::hex_digit))]
fn hex_digit(n: u8) -> u8
    requires { n < 16 }
    ensures { result ≡ hex_digit n }
{
    if n < 10 { 48 + n } else { 55 + n }
}

#[tactic(auto, using(crate::specs::Page::parts), unfolding(crate::specs::Digits::hex_byte))]
fn put_hex_byte_at(letters: &mut [u8], at: usize, byte: u8) -> usize
    ensures { page letters.new result ≡ entered (hex_byte byte) (page letters.old at) }
{
    let next = put_at(letters, at, hex_digit(byte / 16));
    put_at(letters, next, hex_digit(byte % 16))
}

#[tactic(auto, using(crate::specs::Page::parts, crate::specs::Digits::hex_more), unfolding(crate::specs::Digits::hex))]
fn put_hex_at(letters: &mut [u8], at: usize, bytes: &[u8]) -> usize
    ensures { page letters.new result ≡ entered (hex bytes.now) (page letters.old at) }
{
    let mut to = at;
    for b in bytes {
        to = put_hex_byte_at(letters, to, *b);
    }
    to
}

impl Page<'_> {
    #[tactic(auto, unfolding(crate::specs::Inked::inked))]
    pub fn put_hex_byte(&mut self, byte: u8)
        ensures { self.new ≡ inked (hex_byte byte) self.old }
    {
        self.filled = put_hex_byte_at(self.letters, self.filled, byte);
    }

    #[tactic(auto, unfolding(crate::specs::Inked::inked))]
    pub fn put_hex(&mut self, bytes: &[u8])
        ensures { self.new ≡ inked (hex bytes.now) self.old }
    {
        self.filled = put_hex_at(self.letters, self.filled, bytes);
    }

    // The last digit behind those before it; no number has more than twenty.
    #[tactic(auto, using(crate::specs::Inked::entries, crate::specs::Digits::by_last))]
    pub fn put_decimal(&mut self, number: usize)
        ensures { self.new ≡ inked (decimal number) self.old }
    {
        if 10 <= number {
            self.put_decimal(number / 10);
        }
        self.put(48 + (number % 10) as u8);
    }
}
