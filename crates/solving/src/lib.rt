// Solving the replies held, from the highest fragment down.
// A fragment's row has 64 places: V of each entry, then D. Variables stand in the same order, so that a stand-in's are its fragment's row.
#![tactic(auto)]

ghost use Rattle.std.specs.Prelude.{◌≡◌, [], ◌+◌, ◌*◌, ◌≤◌, ◌<◌, length, take};
ghost use Rattle.meaning.specs.Algebra.{bool};
ghost use Rattle.meaning.specs.Says.{Says};
ghost use Rattle.meaning.specs.Formula.{ref_value, step_value, step_values};
ghost use Rattle.meaning.specs.Solve.{solved};
ghost use Rattle.std.proofs.Math.Option.{some};
ghost use Rattle.std.proofs.Props.{props};
ghost use Rattle.reply.specs.inner.Decode.{ref_at, steps_to, entries_of, ins_of, steps_of, decoded};
ghost use Rattle.reply.specs.inner.Checked.{Checked, RefOk, StepOk, vars_of};
ghost use Rattle.reply.specs.inner.Fields.{kind_code, op_code, HeadIs};
ghost use Rattle.whole.specs.Whole.{Opened};
ghost use Rattle.solving.specs.inner.Sound.{ref_prop, step_prop};
ghost use Rattle.solving.specs.inner.Values.{ref_of, step_of, truth_in, values_in, variable_of, Put, Agree, AllHeard, answer_of};

use bits::Cursor;
use reply::{
    Head, Op, REF_WIDTH, RefKind, Reference, STEP_WIDTH, StepField, WIDTH, header, take_in,
    take_ref, take_step,
};
use whole::Question;

// The places of a fragment's row.
const ROW: usize = 64;

// A reply that passed the check, and its header.
#[derive(Clone, Copy)]
struct Reply<'a> {
    bytes: &'a [u8],
    head: Head,
    ghost sound: { Checked 12 bytes.now } by { Prim.hlevel (props, ref_prop, step_prop) },
    ghost read: { HeadIs bytes.now head },
}

// What is known while solving: the rows, and of the reply in hand the variables and the values of the steps. The rows lie one after
// another, as the variables do, so that a row is copied in one piece; rows in an array of arrays would be no plainer.
#[derive(Drop)]
struct Known {
    rows: [bool; 2048],
    vars: [bool; 2048],
    values: [bool; 4096],
}

impl Known {
    // The value of a reference.
    #[tactic(auto, unfolding(reply::specs::inner::Decode::ref_from, reply::specs::inner::Checked::RefOk))]
    fn value(&self, r: Reference) -> bool
        requires { RefOk 2048 4096 (kind_code r.kind) r.number }
        ensures { result ≡ ref_value bool (truth_in self.now.vars) self.now.values (ref_of r) }
    {
        match r.kind {
            RefKind::Low => false,
            RefKind::High => true,
            RefKind::Var => self.vars[r.number],
            RefKind::Step => self.values[r.number],
        }
    }

    // The value of a step, once those before it are known.
    #[tactic(auto, unfolding(reply::specs::inner::Decode::step_from, reply::specs::inner::Checked::StepOk))]
    fn step_value(&self, t: StepField) -> bool
        requires { StepOk 2048 4096 (op_code t.op) (kind_code t.left.kind) t.left.number (kind_code t.right.kind) t.right.number }
        ensures { result ≡ step_value bool (truth_in self.now.vars) self.now.values (step_of t) }
    {
        let a = self.value(t.left);
        match t.op {
            Some(Op::And) => a && self.value(t.right),
            Some(Op::Or) => a || self.value(t.right),
            Some(Op::Not) => !a,
            None => unreachable!(),
        }
    }

    // The variables of a reply: for each stand-in the row of its fragment.
    #[tactic(auto, using(crate::proofs::Replies::small))]
    fn gather(&mut self, r: &Reply)
        ensures rows { self.new.rows ≡ self.old.rows }
        ensures vars { (x : _) → x < vars_of r.now.bytes.now → truth_in self.new.vars x ≡ variable_of r.now.bytes.now self.old.rows x }
    {
        let n = 2 * r.head.entries;
        for p in 0..r.head.ins {
            // A slice first: no proof follows a part of an array behind a reference yet.
            let rows: &[bool] = &self.rows;
            let from = ROW * take_in(r.bytes, p);
            let to = n * p;
            self.vars[to..to + n].copy_from_slice(&rows[from..from + n]);
        }
    }

    // The values of a reply's steps, in order.
    #[tactic(auto, using(crate::proofs::Replies::small))]
    fn step_values(&mut self, r: &Reply)
        ensures rows { self.new.rows ≡ self.old.rows }
        ensures vars { self.new.vars ≡ self.old.vars }
        ensures values { take (steps_of r.now.bytes.now) self.new.values ≡ step_values bool (truth_in self.old.vars) [] (decoded 12 r.now.bytes.now).steps }
    {
        let at = r.head.steps_at();
        for i in 0..r.head.steps {
            let here = at + STEP_WIDTH * i;
            let t = take_step(Cursor { at: here }, r.bytes, WIDTH);
            self.values[i] = self.step_value(t);
        }
    }

    // The row of fragment f: the values of V and D of its reply.
    #[tactic(auto, using(crate::proofs::Replies::small))]
    fn results(&mut self, r: &Reply, f: usize)
        requires { f < 32 }
        ensures { Put self.old.rows (64 * f) (2 * entries_of r.now.bytes.now) (λ e. ref_value bool (truth_in self.old.vars) self.old.values (ref_at 12 r.now.bytes.now (steps_to 12 (ins_of r.now.bytes.now) (steps_of r.now.bytes.now) + 14 * e))) self.new.rows }
    {
        let at = r.head.results_at();
        for e in 0..2 * r.head.entries {
            let here = at + REF_WIDTH * e;
            let x = take_ref(Cursor { at: here }, r.bytes, WIDTH);
            self.rows[ROW * f + e] = self.value(x.value);
        }
    }

    // Fragment f solved by the bytes of its reply: its row, from those of the fragments that it stands for.
    fn solve(&mut self, bytes: &[u8], f: usize)
        requires { Checked 12 bytes.now × (f < 32) }
        ensures { Agree (entries_of bytes.now) (values_in (entries_of bytes.now) self.new.rows) (solved bool (entries_of bytes.now) (some (decoded 12 bytes.now)) f (values_in (entries_of bytes.now) self.old.rows)) }
    {
        let head = header(bytes);
        let r = Reply { bytes, head };
        self.gather(&r);
        self.step_values(&r);
        self.results(&r, f);
    }
}

// All fragments solved from the highest down: V of fragment 0's last entry.
pub fn answer(q: Question, used: usize, store: &[u8]) -> bool
    requires { Opened q used store.now × AllHeard q }
    ensures { result ≡ answer_of q store.now }
{
    let mut known = Known {
        rows: [false; 2048],
        vars: [false; 2048],
        values: [false; 4096],
    };
    for f in (0..q.parts).rev() {
        let a = q.place[f];
        known.solve(&store[a..a + q.size[f]], f);
    }
    known.rows[q.entries - 1]
}

pub fn all_heard(q: Question) -> bool
    requires { q.parts ≤ 32 }
    ensures { Says (AllHeard q) result }
{
    (0..q.parts).all(|f| q.is_heard(f))
}
