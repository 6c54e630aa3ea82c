// What may be said to the desk, a line for each command.
ghost use Rattle.std.specs.Prelude.{◌≡◌};
ghost use Rattle.printout.specs.Inked.{inked};
ghost use Rattle.talk.specs.Help.{help};

use printout::page::Page;

const HELP: &[u8] = b"\
to begin                                  EIK 1, then IPW, then RAS
RAS issuer password                       become active
LAU issuer                                leave, with all that was loaded
CPW issuer old-password new-password      change the own password
GDK issuer party interchange bits         make a data key, sealed for party
LDK issuer party interchange t|r|s block  load a key: t send, r receive, s own
GIV issuer bits                           make an IV under the transmit key
LIV issuer t|r|s block                    load an IV: t, r, or s for both
EIV issuer block                          encipher an IV under transmit key
RDK issuer party interchange t|r|s block  move a block from old to current key
ECBE issuer data                          encipher, ECB
ECBD issuer data                          decipher, ECB
CBCE issuer data                          encipher, CBC
CBCD issuer data                          decipher, CBC
CFBE issuer data                          encipher, 64-bit CFB
CFBD issuer data                          decipher, 64-bit CFB
DAUT issuer t|r|s data                    fixity value of a plain record
EIK interchange key                       officer: enter an interchange key
IPW user password                         officer: enter a password
RPW                                       officer: move passwords to new key 1
LOGOUT user                               host: log a user out
issuer, party, user                       who asks, the other: decimal numbers
interchange                               a decimal number, 1 to 15
block (and password, bits, key)           16 hex digits, or $n
$n                                        the bytes of answer n
! hex                                     raw bytes of the command stream
\"text\"                                    data as letters; else hex in pairs
#                                         what follows is a comment
who                                       who is active, and what is loaded
help                                      these lines
quit                                      leave the desk
";

#[tactic(auto, unfolding(crate::specs::Help::help))]
pub fn put_help(page: &mut Page)
    ensures { page.new ≡ inked help page.old }
{
    page.put_all(HELP);
}
