// The desk: one question at a time, replies put one after another in a lent store, and the answer once every fragment is heard.
// Anyone may fill a record with anything: accepting and asking first judge record and store whole.
#![tactic(auto)]

ghost use Rattle.std.specs.Prelude.{◌≡◌, ◌+◌, ◌^◌, ◌≤◌, ◌<◌, length, IfOk, Some};
ghost use Rattle.std.specs.Fmt.{styled_text};
ghost use Rattle.meaning.specs.Reply.{Reply};
ghost use Rattle.reply.specs.Read.{Is};
ghost use Rattle.desk.specs.Numbers.{number_of, refusal_number, record_after, said_number, said_text, refusal_of};
ghost use Rattle.desk.specs.Calls.{Opens, AskRefusal, Why, Accepts, Asks};
ghost use Rattle.desk.specs.Changed.{fresh_record, opened_as, noted};

use solving::{all_heard, answer};
use std::fmt;
use whole::{Question, Record, Unfit, judge, rules_ok, whole};

// Why a call is refused; the discriminants are the numbers of refusal.
#[derive(Clone, Copy, Debug, PartialEq, Eq)]
pub enum Refusal {
    BadLayout = 10,
    OldNumber = 11,
    NoneOpen = 12,
    NotAReply = 13,
    OtherQuestion = 14,
    Misfit = 15,
    AlreadyHeard = 16,
    StoreFull = 17,
    NotWhole = 20,
}

impl From<Unfit> for Refusal {
    ghost from_gives = { λ unfit refusal. refusal ≡ refusal_of unfit };

    fn from(unfit: Unfit) -> Refusal {
        match unfit {
            Unfit::NotAReply => Refusal::NotAReply,
            Unfit::OtherQuestion => Refusal::OtherQuestion,
            Unfit::Misfit => Refusal::Misfit,
        }
    }
}

// The refusal's number.
impl From<Refusal> for u8 {
    ghost from_gives = { λ refusal number. number ≡ number_of refusal };

    fn from(refusal: Refusal) -> u8 {
        refusal as u8
    }
}

// What is said of the open question.
#[derive(Clone, Copy, Debug, PartialEq, Eq)]
pub enum Said {
    Waiting = 0,
    No = 1,
    Yes = 2,
}

impl fmt::Display for Said {
    ghost output = { λ said. Some (said_text said) };

    ghost styled_output = { λ said spec. Some (styled_text spec (said_text said)) };

    fn fmt<W: fmt::Write>(&self, f: &mut fmt::Formatter<W>) -> fmt::Result {
        f.pad(match self {
            Said::Waiting => "waiting",
            Said::No => "no",
            Said::Yes => "yes",
        })
    }
}

// For C: a refusal's number (0: none), and the number of what is said (0 where refused).
#[repr(C)]
#[derive(Clone, Copy)]
pub struct Asked {
    pub refusal: u8,
    pub said: u8,
}

impl From<Result<Said, Refusal>> for Asked {
    ghost from_gives = { λ said asked. (asked.refusal ≡ refusal_number said) × (asked.said ≡ said_number said) };

    fn from(said: Result<Said, Refusal>) -> Asked {
        match said {
            Ok(said) => Asked {
                refusal: 0,
                said: said as u8,
            },
            Err(refusal) => Asked {
                refusal: refusal.into(),
                said: 0,
            },
        }
    }
}

pub fn desk_fresh() -> Record
    ensures { result ≡ fresh_record }
{
    Record::default()
}

// The record of a question that is just opened.
fn opened_as(layout: &[u8], entries: usize, number: u64) -> Record
    requires { length layout.now ≤ 32 }
    ensures { result ≡ opened_as layout.now entries number }
{
    let mut parents = [0; 32];
    parents[..layout.len()].copy_from_slice(layout);
    Record {
        last: number,
        used: 0,
        question: Question {
            number,
            entries,
            parts: layout.len(),
            layout: parents,
            ..desk_fresh().question
        },
    }
}

// Opening, by value. Each call has such a core that decides and answers, and a thin one over a lent record: the form that the scope asks for.
pub fn opened(desk: Record, layout: &[u8], entries: usize, number: u32) -> Result<Record, Refusal>
    ensures { Opens desk layout.now entries number (refusal_number result) (record_after desk result) }
{
    if !rules_ok(layout, entries) {
        return Err(Refusal::BadLayout);
    }
    let number = u64::from(number);
    if number <= desk.last {
        return Err(Refusal::OldNumber);
    }
    Ok(opened_as(layout, entries, number))
}

// Opens the question of that number and forgets all earlier replies.
pub fn desk_open(
    desk: &mut Record,
    layout: &[u8],
    entries: usize,
    number: u32,
) -> Result<(), Refusal>
    ensures { Opens desk.old layout.now entries number (refusal_number result) desk.new }
{
    *desk = opened(*desk, layout, entries, number)?;
    Ok(())
}

// Whether record and store are whole and a question is open.
fn ready(desk: Record, store: &[u8]) -> Result<(), Refusal>
    ensures { AskRefusal desk store.now (refusal_number result) }
{
    if !whole(desk, store) {
        return Err(Refusal::NotWhole);
    }
    if !desk.question.is_open() {
        return Err(Refusal::NoneOpen);
    }
    Ok(())
}

// The fragment whose reply the bytes s are, or why they are refused.
fn fragment_of(desk: Record, store: &[u8], s: &[u8]) -> Result<usize, Refusal>
    ensures number { Why desk store.now s.now (refusal_number result) }
    ensures fragment { IfOk result (λ f. (f < 32) × ((r : Reply) → Is 12 s.now r → f ≡ r.fragment)) }
{
    ready(desk, store)?;
    // Rust has no `From` of a `u32` to `usize`
    let fragment = judge(desk.question, s)?.fragment as usize;
    if desk.question.is_heard(fragment) {
        return Err(Refusal::AlreadyHeard);
    }
    if store.len() - desk.used < s.len() {
        return Err(Refusal::StoreFull);
    }
    Ok(fragment)
}

// The record once n bytes of fragment f are put at the end of the used part.
fn noted_in(desk: Record, f: usize, n: usize) -> Record
    requires { (f < 32) × (desk.used + n < 2 ^ 64) }
    ensures { result ≡ noted desk f n }
{
    let mut after = desk;
    after.used += n;
    after.question.heard[f] = 1;
    after.question.place[f] = desk.used;
    after.question.size[f] = n;
    after
}

// Accepting, by value.
pub fn accepted(desk: Record, store: &mut [u8], reply: &[u8]) -> Result<Record, Refusal>
    ensures { Accepts desk store.old reply.now (refusal_number result) (record_after desk result) store.new }
{
    let fragment = fragment_of(desk, store, reply)?;
    store[desk.used..desk.used + reply.len()].copy_from_slice(reply);
    Ok(noted_in(desk, fragment, reply.len()))
}

// Takes a reply into the store and marks its fragment heard.
pub fn desk_accept(desk: &mut Record, store: &mut [u8], reply: &[u8]) -> Result<(), Refusal>
    ensures { Accepts desk.old store.old reply.now (refusal_number result) desk.new store.new }
{
    *desk = accepted(*desk, store, reply)?;
    Ok(())
}

// Asking, by value.
pub fn asked_of(desk: Record, store: &[u8]) -> Result<Said, Refusal>
    ensures { Asks desk store.now (refusal_number result) (said_number result) }
{
    ready(desk, store)?;
    if !all_heard(desk.question) {
        return Ok(Said::Waiting);
    }
    if answer(desk.question, desk.used, store) {
        Ok(Said::Yes)
    } else {
        Ok(Said::No)
    }
}

// What is said of the open question.
pub fn desk_ask(desk: &Record, store: &[u8]) -> Result<Said, Refusal>
    ensures { Asks desk.now store.now (refusal_number result) (said_number result) }
{
    asked_of(*desk, store)
}
