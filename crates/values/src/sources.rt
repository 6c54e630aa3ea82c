// Where bytes come from, and the bytes themselves put onto a page.
ghost use Rattle.std.specs.Prelude.{◌≡◌, length};
ghost use Rattle.printout.specs.Inked.{inked};
ghost use Rattle.stream.specs.Fields.{part};
ghost use Rattle.values.specs.Sources.{raw_from, meant};

use crate::hex::put_unhexed;
use crate::{Origin, Source};
use printout::page::Page;
use words::Word;
use words::split::word_at;

// The part from start to end, as far as it is there.
pub fn part_of(s: &[u8], start: usize, end: usize) -> &[u8]
    ensures { result.now ≡ part start end s.now }
{
    let end = end.min(s.len());
    if start <= end { &s[start..end] } else { &[] }
}

// The bytes of all plain words from there on: a line has at most as many words as letters.
#[tactic(auto, using(crate::proofs::Bytes::raw_more, crate::proofs::Bytes::raw_none, crate::proofs::Bytes::raw_ends))]
fn put_raw(page: &mut Page, line: &[u8], start: usize)
    ensures { page.new ≡ inked (raw_from (length line.now) line.now start) page.old }
{
    let mut from = start;
    for _ in 0..line.len() {
        let Word::PlainWord { start, end } = word_at(line, from) else {
            return;
        };
        put_unhexed(page, part_of(line, start, end));
        from = end;
    }
}

// The bytes that a source stands for. (It points into the line or into the room of the answers: two lent rooms, of which each caller has its own pair.)
#[tactic(auto, unfolding(crate::specs::Sources::meant))]
pub fn put_meant(page: &mut Page, source: Source, line: &[u8], kept: &[u8])
    ensures { page.new ≡ inked (meant source line.now kept.now) page.old }
{
    let start = source.start;
    let end = source.end;
    match source.from {
        Origin::HexDigits => put_unhexed(page, part_of(line, start, end)),
        Origin::HexWords => put_raw(page, line, start),
        Origin::Letters => page.put_all(part_of(line, start, end)),
        Origin::Answered => page.put_all(part_of(kept, start, end)),
    }
}
