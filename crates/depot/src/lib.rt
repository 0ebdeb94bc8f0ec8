// A depot's work on one fragment: the rules of list and fragment, the formula in lent memory, and the reply written from it.
#![tactic(auto)]

ghost use Rattle.std.specs.Prelude.{◌≡◌, length};
ghost use Rattle.fragment.specs.Lent.{lent};
ghost use Rattle.depot.specs.inner.Worked.{Fit, Checked, Worked, call_of};
ghost use Rattle.depot.specs.Answer.{call, Answered};
ghost use Rattle.depot.specs.Number.{refusal_number, size_of};
ghost use Rattle.depot.specs.declared.Refusal.TheVariants.{TooManySteps};

use formula::{Source, TooMany, formula};
use fragment::Lent;
use question::List;
use question::rules::list_ok;
use reply::WIDTH;
use writing::{Held, reply_size, reply_write, stand_ins};

// Why a depot refuses, by the numbers of refusal.
#[derive(Clone, Copy, Debug, PartialEq, Eq)]
pub enum Refusal {
    BadList = 5,
    BadFragment = 6,
    ShortWork = 7,
    TooManySteps = 8,
    ShortReply = 9,
}

impl From<TooMany> for Refusal {
    ghost from_gives = { λ _ r. r ≡ TooManySteps };

    fn from(_many: TooMany) -> Refusal {
        Refusal::TooManySteps
    }
}

// An answer as C has it, a number beside a value: the number of refusal, 0 for none, and the reply's size in bytes, 0 on refusal.
#[repr(C)]
#[derive(Clone, Copy)]
pub struct Answer {
    pub refusal: usize,
    pub size: usize,
}

impl From<Result<usize, Refusal>> for Answer {
    ghost from_gives = { λ r a. (a.refusal ≡ refusal_number r) × (a.size ≡ size_of r) };

    fn from(outcome: Result<usize, Refusal>) -> Answer {
        match outcome {
            Ok(size) => Answer { refusal: 0, size },
            Err(refusal) => Answer {
                refusal: refusal as usize,
                size: 0,
            },
        }
    }
}

// What a depot is asked: the formula of a source, which is the fragment with this number, for the question with that one.
#[derive(Clone, Copy)]
struct Call<'a> {
    source: Source<'a>,
    fragment: u32,
    number: u32,
}

impl<'a> Call<'a> {
    // Whether list and fragment keep their rules, and `room` numbers of work memory are enough.
    fn check(&self, room: usize) -> Result<(), Refusal>
        ensures { Checked (call_of self.now) room result }
    {
        if self.number == 0 || !list_ok(self.source.list, self.source.text) {
            return Err(Refusal::BadList);
        }
        if !self.source.fragment.ok(self.fragment) {
            return Err(Refusal::BadFragment);
        }
        if room < self.source.layout().need {
            return Err(Refusal::ShortWork);
        }
        Ok(())
    }

    // The formula, and the reply written from it; the work memory is left as it comes.
    fn reply(&self, work: &mut [u16], out: &mut [u8]) -> Result<usize, Refusal>
        requires { Fit (call_of self.now) (length work.old) }
        ensures { Worked (call_of self.now) out.old result out.new }
    {
        let steps = formula(&self.source, work)?;
        let entries = self.source.list.count;
        let rows = self.source.fragment.rows;
        let need = reply_size(WIDTH, entries, stand_ins(rows), steps);
        if out.len() < need {
            return Err(Refusal::ShortReply);
        }
        let layout = self.source.layout();
        let memory: &[u16] = work;
        let held = Held {
            steps: &memory[layout.steps..layout.steps + 3 * steps],
            v: &memory[..entries],
            d: &memory[layout.d..layout.d + entries],
        };
        Ok(reply_write(out, WIDTH, self.number, self.fragment, rows, held))
    }
}

// A depot's reply to a question about its fragment. The parameters stand apart, as C hands them over.
pub fn depot_reply(
    text: &[u8],
    list: List,
    rows: &[u32],
    pool: &[u8],
    fragment: u32,
    number: u32,
    work: &mut [u16],
    out: &mut [u8],
) -> Result<usize, Refusal>
    ensures { Answered (call list text.now (lent rows.now pool.now) fragment number) work.old out.old (refusal_number result) (size_of result) work.new out.new }
{
    let lent = Lent { rows, pool };
    let source = Source {
        list,
        text,
        fragment: lent,
    };
    let call = Call {
        source,
        fragment,
        number,
    };
    call.check(work.len())?;
    let outcome = call.reply(work, out);
    work.fill(0);
    outcome
}
