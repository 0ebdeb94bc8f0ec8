// A reply and its bits: reading a field at its place, and the check that any bytes are a reply.
// The width of a reference's number is a parameter `w` wherever a reference is read or written.
#![tactic(auto)]

pub mod judging;

ghost use Rattle.std.specs.Prelude.{◌≡◌, ◌+◌, ◌*◌, ◌^◌, ◌≤◌, ◌<◌, length};
ghost use Rattle.reply.specs.inner.Decode.{ref_width, step_width, ins_to, steps_to, end_of};
ghost use Rattle.reply.specs.inner.Fields.{kind_code, Decodes, HeadIs, InIs, RefIs, StepIs};

use bits::{Cursor, Field};

// Where the header ends and the stand-ins start.
pub const HEAD_TO: usize = 60;

// The width of a reference's number in today's replies.
pub const WIDTH: usize = 12;

// The bits of a stand-in, and at that width of a reference and of a step.
pub const IN_WIDTH: usize = 5;

pub const REF_WIDTH: usize = 2 + WIDTH;

pub const STEP_WIDTH: usize = 2 + 2 * REF_WIDTH;

// The most steps that a reply has.
pub const MOST_STEPS: usize = 4096;

// The header's fields; entries in full.
#[derive(Clone, Copy)]
pub struct Head {
    pub number: u32,
    pub fragment: u32,
    pub entries: usize,
    pub ins: usize,
    pub steps: usize,
}

impl Head {
    // Where the steps begin, after the stand-ins.
    pub fn steps_at(self) -> usize
        requires { self.ins < 32 }
        ensures { result ≡ ins_to self.ins }
    {
        HEAD_TO + IN_WIDTH * self.ins
    }

    // Where the results begin, after the steps.
    pub fn results_at(self) -> usize
        requires { (self.ins < 32) × (self.steps < 8192) }
        ensures { result ≡ steps_to 12 self.ins self.steps }
    {
        self.steps_at() + STEP_WIDTH * self.steps
    }

    // Where the last field ends: two results for each entry.
    pub fn end(self) -> usize
        requires { (self.entries ≤ 32) × (self.ins < 32) × (self.steps < 8192) }
        ensures { result ≡ end_of 12 self.ins self.steps self.entries }
    {
        self.results_at() + REF_WIDTH * (2 * self.entries)
    }
}

// What a reference is to: false, true, a variable or a step, by its code.
#[derive(Clone, Copy, Debug, PartialEq, Eq)]
pub enum RefKind {
    Low = 0,
    High = 1,
    Var = 2,
    Step = 3,
}

// A step's operation, by its code.
#[derive(Clone, Copy, Debug, PartialEq, Eq)]
pub enum Op {
    And = 0,
    Or = 1,
    Not = 2,
}

// A reference as its bits say it: the number names the variable or the step, and is 0 for a constant of a well-formed reply.
#[derive(Clone, Copy, Debug, PartialEq, Eq)]
pub struct Reference {
    pub kind: RefKind,
    pub number: usize,
}

// A step: its operation, none for the code that names none, and its references.
#[derive(Clone, Copy, Debug, PartialEq, Eq)]
pub struct StepField {
    pub op: Option<Op>,
    pub left: Reference,
    pub right: Reference,
}

// The kind with this code. Two bits always name one, so that the error of a `TryFrom` would be one that no call meets.
fn kind_of(code: u32) -> RefKind
    requires { code < 4 }
    ensures { kind_code result ≡ code }
{
    match code {
        0 => RefKind::Low,
        1 => RefKind::High,
        2 => RefKind::Var,
        _ => RefKind::Step,
    }
}

// A code that names no operation (question and fragment have the like, of theirs).
#[derive(Clone, Copy, Debug, PartialEq, Eq)]
pub struct UnknownOp(pub u32);

impl TryFrom<u32> for Op {
    type Error = UnknownOp;

    ghost try_from_gives = { Decodes };

    fn try_from(code: u32) -> Result<Self, UnknownOp> {
        match code {
            0 => Ok(Op::And),
            1 => Ok(Op::Or),
            2 => Ok(Op::Not),
            _ => Err(UnknownOp(code)),
        }
    }
}

pub fn header(s: &[u8]) -> Head
    requires { 8 ≤ length s.now }
    ensures { HeadIs s.now result }
{
    let a = Cursor { at: 0 }.take(s, 32);
    let b = a.next.take(s, 5);
    let c = b.next.take(s, 5);
    let d = c.next.take(s, 5);
    let e = d.next.take(s, 13);
    // Rust has no `From` of a `u32` to `usize`; Rattle proves that an `as` loses nothing
    Head {
        number: a.value,
        fragment: b.value,
        entries: c.value as usize + 1,
        ins: d.value as usize,
        steps: e.value as usize,
    }
}

// The fragment that the stand-in at position i stands for.
pub fn take_in(s: &[u8], i: usize) -> usize
    requires { (ins_to i + 5 ≤ 8 * length s.now) × (ins_to i + 5 < 2 ^ 64) }
    ensures { InIs s.now i result }
{
    let here = HEAD_TO + IN_WIDTH * i;
    let x = Cursor { at: here }.take(s, IN_WIDTH);
    x.value as usize
}

pub fn take_ref(c: Cursor, s: &[u8], w: usize) -> Field<Reference>
    requires { (c.at + ref_width w ≤ 8 * length s.now) × (c.at + ref_width w < 2 ^ 64) × (w ≤ 32) }
    ensures { RefIs w s.now c.at result }
{
    let k = c.take(s, 2);
    let x = k.next.take(s, w);
    Field {
        value: Reference {
            kind: kind_of(k.value),
            number: x.value as usize,
        },
        next: x.next,
    }
}

pub fn take_step(c: Cursor, s: &[u8], w: usize) -> StepField
    requires { (c.at + step_width w ≤ 8 * length s.now) × (c.at + step_width w < 2 ^ 64) × (w ≤ 32) }
    ensures { StepIs w s.now c.at result }
{
    let k = c.take(s, 2);
    let a = take_ref(k.next, s, w);
    let b = take_ref(a.next, s, w);
    StepField {
        op: Op::try_from(k.value).ok(),
        left: a.value,
        right: b.value,
    }
}
