// What is wrong with a line: where it stops being one, and what was expected there.
ghost use Rattle.std.specs.Prelude.{◌≡◌};
ghost use Rattle.printout.specs.Inked.{inked};
ghost use Rattle.clerk.specs.Wrong.{expected_text, column, wrong_text};

use printout::page::Page;
use words::{Expected, Wrong};

#[tactic(auto, unfolding(crate::specs::Wrong::expected_text))]
fn expected_text(expected: Expected) -> &'static [u8]
    ensures { result.now ≡ expected_text expected }
{
    match expected {
        Expected::Name => b"a command, or help",
        Expected::Identifier => b"an identifier: a decimal number up to 4294967295",
        Expected::Interchange => b"an interchange: a decimal number up to 255",
        Expected::Function => b"a function: t, r or s",
        Expected::Block => b"a block: 16 hex digits, or $n of an answer of 8 bytes",
        Expected::Bytes => b"data: hex digits in pairs, \"text\", or $n of an answer with bytes",
        Expected::RawBytes => b"raw bytes: hex digits in pairs",
        Expected::FewerBytes => b"data of at most 65500 bytes",
        Expected::ClosingQuote => b"a closing quote",
        Expected::SpaceAfterQuote => b"a space after the quote",
        Expected::NothingMore => b"nothing more",
    }
}

// Columns are counted from 1, places from 0.
#[tactic(auto, unfolding(crate::specs::Wrong::column))]
fn column_of(place: usize) -> usize
    ensures { result ≡ column place }
{
    place.saturating_add(1)
}

#[tactic(auto, using(printout::specs::Inked::entries), unfolding(crate::specs::Wrong::wrong_text))]
pub fn put_wrong(page: &mut Page, number: usize, wrong: Wrong)
    ensures { page.new ≡ inked (wrong_text number wrong.at wrong.expected) page.old }
{
    page.put_all(b"line ");
    page.put_decimal(number);
    page.put_all(b", column ");
    page.put_decimal(column_of(wrong.at));
    page.put_all(b": expected ");
    page.put_all(expected_text(wrong.expected));
    page.put(b'\n');
}
