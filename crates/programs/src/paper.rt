// The paper that a program prints on: 327680 letters, room for all lines of any 65536 bytes.
ghost use Rattle.std.specs.Prelude.{◌≡◌, take};

use printout::page::first_of;

// What stands on the paper, as far as it is filled.
pub fn written(paper: &[u8; 327680], filled: usize) -> &[u8]
    ensures { result.now ≡ take filled paper.now }
{
    first_of(&paper[..], filled)
}
