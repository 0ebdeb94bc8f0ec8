// The check: whether any bytes at all are a reply. Each field is read once, in order.
ghost use Rattle.std.specs.Prelude.{◌≡◌, ◌+◌, ◌*◌, ◌^◌, ◌≤◌, ◌<◌, length};
ghost use Rattle.meaning.specs.Says.{Says};
ghost use Rattle.reply.specs.Read.{Checks, check_number};
ghost use Rattle.reply.specs.inner.Decode.{ref_width, step_width, ins_to};
ghost use Rattle.reply.specs.inner.Fields.{kind_code, op_code, HeadIs};
ghost use Rattle.reply.specs.inner.Checked.{RefOk, OperandOk, StepOk, RefGood, StepGood, InGood, Checked, SizesOk};

use crate::{
    Head, MOST_STEPS, Op, RefKind, Reference, StepField, WIDTH, header, take_in, take_ref,
    take_step,
};
use bits::Cursor;

// The bytes are not a reply.
#[derive(Clone, Copy, Debug, PartialEq, Eq)]
pub struct NotAReply;

// The refusal's number.
impl From<NotAReply> for u8 {
    ghost from_gives = { λ _ number. number ≡ 13 };

    fn from(_refusal: NotAReply) -> u8 {
        13
    }
}

// The most bytes that a reply has.
const MOST_BYTES: usize = 15_499;

// How many variables and steps a reference may name.
#[derive(Clone, Copy)]
struct Counts {
    vars: usize,
    steps: usize,
}

impl Reference {
    // Whether it may stand as a result: a constant with number 0, an existing variable or an existing step.
    fn is_result(self, counts: Counts) -> bool
        ensures { Says (RefOk counts.vars counts.steps (kind_code self.kind) self.number) result }
    {
        match self.kind {
            RefKind::Low | RefKind::High => self.number == 0,
            RefKind::Var => self.number < counts.vars,
            RefKind::Step => self.number < counts.steps,
        }
    }

    // Whether it may stand as an operand: as a result, but no constant.
    fn is_operand(self, counts: Counts) -> bool
        ensures { Says (OperandOk counts.vars counts.steps (kind_code self.kind) self.number) result }
    {
        matches!(self.kind, RefKind::Var | RefKind::Step) && self.is_result(counts)
    }

    // Whether its bits are all zeros, as the second reference of not.
    fn is_zero(self) -> bool
        ensures { Says ((kind_code self.kind ≡ 0) × (self.number ≡ 0)) result }
    {
        self == Reference {
            kind: RefKind::Low,
            number: 0,
        }
    }
}

impl StepField {
    // Whether it is a step's code, with references that may stand where it has them.
    fn is_good(self, counts: Counts) -> bool
        ensures { Says (StepOk counts.vars counts.steps (op_code self.op) (kind_code self.left.kind) self.left.number (kind_code self.right.kind) self.right.number) result }
    {
        let Some(op) = self.op else {
            return false;
        };
        self.left.is_operand(counts)
            && match op {
                Op::And | Op::Or => self.right.is_operand(counts),
                Op::Not => self.right.is_zero(),
            }
    }
}

// Whether each stand-in's fragment exceeds the reply's own and no two are the same.
fn ins_ok(s: &[u8], fragment: u32, count: usize) -> bool
    requires { (ins_to count ≤ 8 * length s.now) × (ins_to count < 2 ^ 64) }
    ensures { Says ((i : _) → i < count → InGood s.now fragment i) result }
{
    let mut met = [false; 32];
    for i in 0..count {
        let x = take_in(s, i);
        if x <= fragment as usize || met[x] {
            return false;
        }
        met[x] = true;
    }
    true
}

// Whether each step, from bit `at` on, may stand where it does in the list. The width and the place are those of `take_step`.
fn steps_ok(s: &[u8], w: usize, at: usize, count: usize, vars: usize) -> bool
    requires { (at + step_width w * count ≤ 8 * length s.now) × (at + step_width w * count < 2 ^ 64) × (w ≤ 32) }
    ensures { Says ((i : _) → i < count → StepGood w s.now vars i (at + step_width w * i)) result }
{
    let step_width = 2 + 2 * (2 + w);
    for i in 0..count {
        let here = at + step_width * i;
        if !take_step(Cursor { at: here }, s, w).is_good(Counts { vars, steps: i }) {
            return false;
        }
    }
    true
}

// Whether each reference, from bit `at` on, may stand as a result. One function for this and `steps_ok` would take the width and the
// test as parameters, and be no plainer.
fn refs_ok(s: &[u8], w: usize, at: usize, count: usize, counts: Counts) -> bool
    requires { (at + ref_width w * count ≤ 8 * length s.now) × (at + ref_width w * count < 2 ^ 64) × (w ≤ 32) }
    ensures { Says ((e : _) → e < count → RefGood w s.now counts.vars counts.steps (at + ref_width w * e)) result }
{
    let ref_width = 2 + w;
    for e in 0..count {
        let here = at + ref_width * e;
        if !take_ref(Cursor { at: here }, s, w).value.is_result(counts) {
            return false;
        }
    }
    true
}

// Whether this many bytes are what the header says, and its numbers are allowed.
fn sizes_ok(h: Head, size: usize) -> bool
    requires { (h.entries ≤ 32) × (h.ins < 32) × (h.steps < 8192) }
    ensures { Says (SizesOk h size) result }
{
    if h.number == 0 || h.steps > MOST_STEPS {
        return false;
    }
    h.end().div_ceil(8) == size
}

// Whether bytes with this header are a reply.
fn is_reply(bytes: &[u8], h: Head) -> bool
    requires { (8 ≤ length bytes.now) × (length bytes.now ≤ 15499) × HeadIs bytes.now h }
    ensures { Says (Checked 12 bytes.now) result }
{
    let counts = Counts {
        vars: 2 * h.entries * h.ins,
        steps: h.steps,
    };
    let steps_at = h.steps_at();
    let results_at = h.results_at();
    let end = h.end();
    let size = bytes.len();
    sizes_ok(h, size)
        && ins_ok(bytes, h.fragment, h.ins)
        && steps_ok(bytes, WIDTH, steps_at, h.steps, counts.vars)
        && refs_ok(bytes, WIDTH, results_at, 2 * h.entries, counts)
        && Cursor { at: end }.blank(bytes, 8 * size)
}

// Whether the bytes are a reply.
pub fn reply_check(bytes: &[u8]) -> Result<(), NotAReply>
    ensures { Checks bytes.now (check_number result) }
{
    if (8..=MOST_BYTES).contains(&bytes.len()) && is_reply(bytes, header(bytes)) {
        Ok(())
    } else {
        Err(NotAReply)
    }
}
