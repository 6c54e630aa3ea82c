// A stream carried out: its commands one after the other, and a line for each.
ghost use Rattle.std.specs.Prelude.{◌≡◌, ◌+◌, ◌<◌, ◌^◌};
ghost use Rattle.rules.specs.World.{over};
ghost use Rattle.rules.specs.Outcomes.{answer_of, block_of, left};
ghost use Rattle.printout.specs.Inked.{sheet, bearing, inked};
ghost use Rattle.printout.specs.Lines.{line};
ghost use Rattle.session.specs.Run.{answer_to, shown_of, reached, turn_of, leaves, printed_run};

use facility::perform;
use printout::lines::put_line;
use printout::page::{Page, first_of};
use rules::answers::number_of;
use rules::{Outcome, Refusal, Reply};
use state::Facility;
use stream::Field;
use stream::commands::{decode, text_from};
use stream::reader::Reader;

// The command of this tag and value: 16 where the value is not that of a command with this tag.
#[tactic(auto, unfolding(crate::specs::Run::answer_to))]
pub fn answer_to(
    f: Facility,
    table: &mut [u8],
    out: &mut [u8],
    tag: u8,
    value: &[u8],
) -> Result<Outcome, Refusal>
    ensures { left f result table.new out.new ≡ answer_to (over f table.old) tag value.now out.old }
{
    match decode(tag, value) {
        Some(reading) => perform(f, table, out, reading.asked, text_from(value, reading.text)),
        None => Err(Refusal::Form),
    }
}

// The bytes returned or, for a mode, written; `out` is the output as the command left it.
pub fn shown<'a>(answer: &'a Result<Outcome, Refusal>, out: &'a [u8]) -> &'a [u8]
    ensures { result.now ≡ shown_of (answer_of answer.now) (block_of answer.now) out.now }
{
    let Ok(outcome) = answer else {
        return &[];
    };
    match &outcome.reply {
        Reply::Plain => &[],
        Reply::Block(block) => block,
        Reply::Output(n) => first_of(out, *n),
    }
}

// The line of an answer: any number and any bytes, so that no answer is left out.
// (`specs/Run.line_of` says which number and which bytes are an answer's; `number_of` and `shown` tell them.)
pub fn put_answer(page: &mut Page, ordinal: usize, tag: u8, number: u8, bytes: &[u8])
    ensures { page.new ≡ inked (line ordinal tag number bytes.now) page.old }
{
    put_line(page, ordinal, tag, number, bytes);
}

// How far a run has come: the facility, and the next line's ordinal.
#[derive(Clone, Copy)]
pub struct Going {
    pub state: Facility,
    pub ordinal: usize,
}

// What stands at the reader is answered, with its line: a whole field as the command that it says; 17, where it runs past the stream's end.
// A refusal leaves the facility where it stands: nothing is copied back.
#[tactic(auto, unfolding(crate::specs::Run::turn_of, printout::specs::Inked::inked))]
fn turn(d: &mut Going, next: Field, value: &[u8], table: &mut [u8], out: &mut [u8], page: &mut Page)
    requires { d.old.ordinal + 1 < 2 ^ 64 }
    ensures reached { reached (over d.new.state table.new) out.new (sheet page.new) d.new.ordinal ≡ turn_of next value.now (over d.old.state table.old) out.old (sheet page.old) d.old.ordinal }
    ensures page { page.new ≡ bearing (sheet page.new) page.old }
{
    match next {
        Field::Whole { tag, .. } => {
            let answer = answer_to(d.state, table, out, tag, value);
            put_answer(
                page,
                d.ordinal,
                tag,
                number_of(&answer),
                shown(&answer, out),
            );
            if let Ok(outcome) = &answer {
                d.state = outcome.state;
            }
            d.ordinal += 1;
        }
        Field::Cut { tag } => put_answer(page, d.ordinal, tag, u8::from(Refusal::Cut), &[]),
        Field::End => {}
    }
}

// All commands of the stream, with their lines from the page's place on. A header or value that runs past the stream's end is 17, and reading stops:
// past it the reader stands at the end.
pub fn run(f: Facility, table: &mut [u8], out: &mut [u8], s: &[u8], page: &mut Page) -> Facility
    ensures run { leaves (over result table.new) out.new (sheet page.new) ≡ printed_run s.now (over f table.old) out.old (sheet page.old) }
    ensures page { page.new ≡ bearing (sheet page.new) page.old }
{
    let mut r = Reader::new(s);
    let mut d = Going {
        state: f,
        ordinal: 1,
    };
    // The reader moves on by what stands there: nothing is counted here.
    while r.at < r.src.len() {
        turn(&mut d, r.field(), r.value(), table, out, page);
        r = r.past();
    }
    d.state
}
