// A command to its bytes in the stream's form, put onto a lent page.

#![tactic(auto)]

ghost use Rattle.std.specs.Prelude.{◌≡◌};
ghost use Rattle.printout.specs.Inked.{inked};
ghost use Rattle.encoder.specs.Encoded.{encoded};

pub mod arguments;
pub mod fields;

use crate::arguments::{put_arguments, value_size};
use crate::fields::put_header;
use printout::page::Page;
use stream::Request;
use stream::commands::form_of;

// Nothing for an unknown tag, nor for a value too long for two bytes of length.
pub fn put_command(page: &mut Page, asked: Request, text: &[u8])
    ensures { page.new ≡ inked (encoded asked text.now) page.old }
{
    let Some(arguments) = form_of(asked.tag) else {
        return;
    };
    let size = value_size(arguments, text.len());
    if size < 65536 {
        put_header(page, asked.tag, size);
        put_arguments(page, arguments, asked, text);
    }
}
