// A depot's formula (01) in lent memory. V says what each entry is at a row, C whether it is so at some child of the row, D whether
// at the row or below it. A cell is one entry at one row: for so many cells the memory has all of V, then C, then D, then as
// many numbers unused, then the steps, three numbers each: operation, left and right reference.
// A reference is one number, since the lent memory holds numbers: 0 false, 4096 true, 8192 + x a variable, 12288 + i a step.
#![tactic(auto)]

ghost use Rattle.std.specs.Prelude.{◌≡◌, ℕ, ◌+◌, ◌*◌, ◌/◌, ◌<◌, ◌≤◌, length};
ghost use Rattle.meaning.specs.Bytes.{word, same_bytes};
ghost use Rattle.meaning.specs.Fragment.{RealRow, num, rows_of};
ghost use Rattle.meaning.specs.Reply.{laid_run};
ghost use Rattle.question.specs.inner.Kind.{code, IsEntry};
ghost use Rattle.question.specs.Listed.{entry_of, placed, EntryRule, Keeps, listed};
ghost use Rattle.formula.specs.inner.Made.{Ready, Made};
ghost use Rattle.fragment.specs.Lent.{lent};
ghost use Rattle.formula.specs.inner.Flat.{add_f, join_f, not_f, truth, test_f, value_f, enter_f, visit_f, stand_f, row_f, or_into, lift_f, push_f, deliver_f, sweep_f};

use fragment::{Lent, RowKind};
use question::{Entry, Kind, List};
use reply::{MOST_STEPS, Op};
use writing::stand_ins;

const FALSE: u16 = 0;

const TRUE: u16 = 4096;

const VARIABLE: usize = 8192;

const STEP: usize = 12288;

// How many numbers the steps take at most.
const STEP_ROOM: usize = 3 * MOST_STEPS;

// There are over 4,096 steps.
#[derive(Clone, Copy, Debug, PartialEq, Eq)]
pub struct TooMany;

// What a formula is made of: a list over its question text, and a fragment.
#[derive(Clone, Copy)]
pub struct Source<'a> {
    pub list: List,
    pub text: &'a [u8],
    pub fragment: Lent<'a>,
}

// Where the parts of the work memory begin: V at 0, then C at `cells`, then D and the steps. `need` is how long it has to be.
#[derive(Clone, Copy)]
pub struct Layout {
    pub cells: usize,
    pub d: usize,
    pub steps: usize,
    pub need: usize,
}

impl<'a> Source<'a> {
    ghost use Rattle.formula.specs.inner.Memory.{LaidOut, fragment_of};

    // The layout of the work memory for this many cells, rows × entries.
    pub fn layout(&self) -> Layout
        requires { length self.now.fragment.rows.now / 6 * self.now.list.count ≤ 16384 }
        ensures { LaidOut (length self.now.fragment.rows.now / 6 * self.now.list.count) result }
    {
        let cells = self.fragment.rows.len() / 6 * self.list.count;
        Layout {
            cells,
            d: 2 * cells,
            steps: 4 * cells,
            need: 4 * cells + STEP_ROOM,
        }
    }

    // Entry e of the list, which keeps the rules, so that its kind is known.
    fn entry(&self, e: usize) -> Entry
        requires keeps { Keeps self.now.list self.now.text.now }
        requires e_bound { e < self.now.list.count }
        ensures { IsEntry self.now.list e result }
    {
        let Ok(x) = self.list.entry(e) else {
            unreachable!();
        };
        x
    }

    // Whether the entry's word is row k's word, whose start is number `field` of the row and whose length is the next.
    fn same_word(&self, x: Entry, k: usize, field: usize) -> bool
        requires word_in_bounds { x.a + x.b ≤ length self.now.text.now }
        requires field_in_bounds { (k * 6 + 6 ≤ length self.now.fragment.rows.now) × (field ≤ 4) }
        requires row_in_bounds { num (fragment_of self.now) k field + num (fragment_of self.now) k (field + 1) ≤ length self.now.fragment.pool.now }
        ensures { result ≡ same_bytes (word self.now.text.now x.a x.b) (word self.now.fragment.pool.now (num (fragment_of self.now) k field) (num (fragment_of self.now) k (field + 1))) }
    {
        let rows = self.fragment.rows;
        let start = rows[k * 6 + field] as usize;
        let size = rows[k * 6 + (field + 1)] as usize;
        // The lengths come first, so that a word of another length costs no call of `==`, for each row and entry.
        x.b == size && self.text[x.a..x.a + x.b] == self.fragment.pool[start..start + x.b]
    }

    // What an entry of a kind that needs no other entry says at row k, as a reference; true for every other kind.
    fn tested(&self, k: usize, x: Entry) -> u16
        requires k_in_bounds { k * 6 + 6 ≤ length self.now.fragment.rows.now }
        requires real_row { RealRow (fragment_of self.now) k }
        requires by_index { (e : ℕ) × EntryRule self.now.text.now e (code x.kind) x.a x.b }
        ensures { result ≡ test_f (fragment_of self.now) k (entry_of (word self.now.text.now) (code x.kind) x.a x.b) }
    {
        match x.kind {
            Kind::Label => constant(self.same_word(x, k, 2)),
            Kind::Text => constant(self.same_word(x, k, 4)),
            _ => TRUE,
        }
    }
}

// A constant as a reference.
fn constant(b: bool) -> u16
    ensures { result ≡ truth b }
{
    if b { TRUE } else { FALSE }
}

// The lent memory while a formula is made, for so many cells, and how many steps it has. Each method's clause `same` says that
// it still holds the same memory: a `&mut` may come back with another, and no ghost field can say which one it began with.
// References are codes here and no `reply::Reference`: each one read or written would be a conversion that may fail. A row is told by
// its number, as its parent and its cells are, so a method asks that it is one of the source's.
#[derive(Drop)]
struct Memory<'a> {
    work: &'a mut [u16],
    cells: usize,
    steps: usize,
    ghost room: { 4 * cells + 12288 ≤ length work.now },
    ghost count: { steps ≤ 4096 },
}

impl<'a> Memory<'a> {
    ghost use Rattle.formula.specs.inner.Memory.{op_number, state, Ruled, Same, Gives, Does, fragment_of, Operands};

    // One step more, and the reference to it.
    fn added(&mut self, op: Op, a: u16, b: u16) -> Result<u16, TooMany>
        ensures same { Same self.old self.new }
        ensures gives { Gives (add_f self.old.cells (op_number op) a b self.old.work.now self.old.steps) self.new result }
    {
        if MOST_STEPS <= self.steps {
            return Err(TooMany);
        }
        let code = (STEP + self.steps) as u16;
        let at = 4 * self.cells + 3 * self.steps;
        self.work[at] = op as u16;
        self.work[at + 1] = a;
        self.work[at + 2] = b;
        self.steps += 1;
        Ok(code)
    }

    // The constant that decides a joining: false decides and, true decides or.
    fn deciding(op: Op) -> u16
        requires { op_number op ≤ 1 }
        ensures { result ≡ op_number op * 4096 }
    {
        match op {
            Op::Or => TRUE,
            Op::And | Op::Not => FALSE,
        }
    }

    // a and b joined by and or by or.
    fn joined(&mut self, op: Op, a: u16, b: u16) -> Result<u16, TooMany>
        requires { op_number op ≤ 1 }
        ensures same { Same self.old self.new }
        ensures gives { Gives (join_f self.old.cells (op_number op) a b self.old.work.now self.old.steps) self.new result }
    {
        let decides = Self::deciding(op);
        let leaves = TRUE - decides;
        // a first: a test's constant then needs no look at b, for each row and entry
        if a == decides {
            return Ok(a);
        }
        if a == leaves || b == decides {
            return Ok(b);
        }
        if b == leaves {
            return Ok(a);
        }
        self.added(op, a, b)
    }

    // a and b.
    fn both(&mut self, a: u16, b: u16) -> Result<u16, TooMany>
        ensures same { Same self.old self.new }
        ensures gives { Gives (join_f self.old.cells 0 a b self.old.work.now self.old.steps) self.new result }
    {
        self.joined(Op::And, a, b)
    }

    // a or b.
    fn either(&mut self, a: u16, b: u16) -> Result<u16, TooMany>
        ensures same { Same self.old self.new }
        ensures gives { Gives (join_f self.old.cells 1 a b self.old.work.now self.old.steps) self.new result }
    {
        self.joined(Op::Or, a, b)
    }

    // Not a.
    fn negated(&mut self, a: u16) -> Result<u16, TooMany>
        ensures same { Same self.old self.new }
        ensures gives { Gives (not_f self.old.cells a self.old.work.now self.old.steps) self.new result }
    {
        match a {
            FALSE => Ok(TRUE),
            TRUE => Ok(FALSE),
            _ => self.added(Op::Not, a, FALSE),
        }
    }

    // V of an entry by its kind at row k, whose references begin at `at`. A test is made in its own arm, for each row and entry.
    fn value(&mut self, source: &Source, at: usize, k: usize, x: Entry) -> Result<u16, TooMany>
        requires k_in_bounds { k * 6 + 6 ≤ length source.now.fragment.rows.now }
        requires real_row { RealRow (fragment_of source.now) k }
        requires rule { (e : ℕ) × EntryRule source.now.text.now e (code x.kind) x.a x.b }
        requires by_index { (e : ℕ) × (at + e ≤ self.old.cells) × Operands e x.kind x.a x.b }
        ensures same { Same self.old self.new }
        ensures gives { Gives (value_f self.old.cells at (placed (code x.kind) x.a x.b) (test_f (fragment_of source.now) k (entry_of (word source.now.text.now) (code x.kind) x.a x.b)) self.old.work.now self.old.steps) self.new result }
    {
        let c = self.cells + at;
        let d = 2 * self.cells + at;
        match x.kind {
            Kind::Itself | Kind::Label | Kind::Text => Ok(source.tested(k, x)),
            Kind::Child => Ok(self.work[c + x.a]),
            Kind::Below => Ok(self.work[d + x.a]),
            Kind::Not => {
                let a = self.work[at + x.a];
                self.negated(a)
            }
            Kind::Or => {
                let (a, b) = (self.work[at + x.a], self.work[at + x.b]);
                self.either(a, b)
            }
            Kind::At | Kind::And => {
                let (a, b) = (self.work[at + x.a], self.work[at + x.b]);
                self.both(a, b)
            }
        }
    }

    // Entry e of row k, a real one: V by its kind, then D becomes V or D. Its row's place is worked out once a row.
    fn entered(
        &mut self,
        source: &Source,
        at: usize,
        k: usize,
        e: usize,
        x: Entry,
    ) -> Result<(), TooMany>
        requires k_in_bounds { k * 6 + 6 ≤ length source.now.fragment.rows.now }
        requires real_row { RealRow (fragment_of source.now) k }
        requires rule { EntryRule source.now.text.now e (code x.kind) x.a x.b }
        requires e_bound { at + e < self.old.cells }
        requires reads { Operands e x.kind x.a x.b }
        ensures same { Same self.old self.new }
        ensures does { Does (enter_f self.old.cells at e (placed (code x.kind) x.a x.b) (test_f (fragment_of source.now) k (entry_of (word source.now.text.now) (code x.kind) x.a x.b)) (state self.old)) self.new result }
    {
        let lower = 2 * self.cells + at + e;
        let v = self.value(source, at, k, x)?;
        let below = self.work[lower];
        let d = self.either(v, below)?;
        self.work[at + e] = v;
        self.work[lower] = d;
        Ok(())
    }

    // Row k, a real one: each entry in order.
    fn visited(&mut self, source: &Source, at: usize, k: usize) -> Result<(), TooMany>
        requires count_bound { at + source.now.list.count ≤ self.old.cells }
        requires k_in_bounds { k * 6 + 6 ≤ length source.now.fragment.rows.now }
        requires real_row { RealRow (fragment_of source.now) k }
        requires keeps { Keeps source.now.list source.now.text.now }
        ensures same { Same self.old self.new }
        ensures does { Does (visit_f source.now.list source.now.text.now (fragment_of source.now) self.old.cells at k (state self.old)) self.new result }
    {
        for e in 0..source.list.count {
            let x = source.entry(e);
            self.entered(source, at, k, e, x)?;
        }
        Ok(())
    }

    // A stand-in's V and D are variables, the first of them `first`.
    fn stood(&mut self, at: usize, count: usize, first: usize)
        requires count_bound { at + count ≤ self.old.cells }
        requires count_bound_2 { count ≤ 32 }
        requires first_bound { first ≤ 32768 }
        ensures same { Same self.old self.new }
        ensures memory { self.new.work.now ≡ stand_f self.old.cells at count first self.old.work.now }
        ensures steps { self.new.steps ≡ self.old.steps }
    {
        for e in 0..count {
            let v = first + e;
            let d = first + count + e;
            self.work[at + e] = (VARIABLE + v) as u16;
            self.work[2 * self.cells + at + e] = (VARIABLE + d) as u16;
        }
    }

    // The reference at i becomes it or the reference at j.
    fn or_into(&mut self, i: usize, j: usize) -> Result<(), TooMany>
        requires i_bound { i < 4 * self.old.cells }
        requires j_bound { j < 4 * self.old.cells }
        ensures same { Same self.old self.new }
        ensures does { Does (or_into self.old.cells i j (state self.old)) self.new result }
    {
        let (a, b) = (self.work[i], self.work[j]);
        self.work[i] = self.either(a, b)?;
        Ok(())
    }

    // Entry e of the row at `at` to its parent at `up`: C becomes C or V, then D becomes D or this D.
    fn lifted(&mut self, at: usize, up: usize, e: usize) -> Result<(), TooMany>
        requires e_bound { at + e < self.old.cells }
        requires e_bound_2 { up + e < self.old.cells }
        ensures same { Same self.old self.new }
        ensures does { Does (lift_f self.old.cells at up e (state self.old)) self.new result }
    {
        let here = at + e;
        let lower = 2 * self.cells + at + e;
        let c = self.cells + up + e;
        let d = 2 * self.cells + up + e;
        self.or_into(c, here)?;
        self.or_into(d, lower)
    }

    // Each entry of the row at `at` to its parent at `up`.
    fn pushed(&mut self, at: usize, up: usize, count: usize) -> Result<(), TooMany>
        requires count_bound { at + count ≤ self.old.cells }
        requires count_bound_2 { up + count ≤ self.old.cells }
        ensures same { Same self.old self.new }
        ensures does { Does (push_f self.old.cells at up count (state self.old)) self.new result }
    {
        for e in 0..count {
            self.lifted(at, up, e)?;
        }
        Ok(())
    }

    // V and D of row k, a stand-in with the position `place` or a real row.
    fn row(&mut self, source: &Source, k: usize, place: usize) -> Result<(), TooMany>
        requires ruled { Ruled source.now self.old }
        requires k_in_bounds { k < length source.now.fragment.rows.now / 6 }
        requires place_bound { place ≤ 512 }
        ensures same { Same self.old self.new }
        ensures does { Does (row_f source.now.list source.now.text.now (fragment_of source.now) self.old.cells k place (state self.old)) self.new result }
    {
        let count = source.list.count;
        if source.fragment.is(k, RowKind::StandIn) {
            self.stood(k * count, count, place * (2 * count));
            Ok(())
        } else {
            self.visited(source, k * count, k)
        }
    }

    // Row k, and then its part in its parent.
    fn delivered(&mut self, source: &Source, k: usize, place: usize) -> Result<(), TooMany>
        requires ruled { Ruled source.now self.old }
        requires k_in_bounds { k < length source.now.fragment.rows.now / 6 }
        requires place_bound { place ≤ 512 }
        ensures same { Same self.old self.new }
        ensures does { Does (deliver_f source.now.list source.now.text.now (fragment_of source.now) self.old.cells k place (state self.old)) self.new result }
    {
        self.row(source, k, place)?;
        if k == 0 {
            return Ok(());
        }
        let count = source.list.count;
        let parent = source.fragment.rows[k * 6] as usize;
        self.pushed(k * count, parent * count, count)
    }

    // All rows, from the last to the first.
    fn swept(&mut self, source: &Source) -> Result<(), TooMany>
        requires ruled { Ruled source.now self.old }
        ensures same { Same self.old self.new }
        ensures does { Does (sweep_f source.now.list source.now.text.now (fragment_of source.now) self.old.cells (length source.now.fragment.rows.now / 6) (state self.old)) self.new result }
    {
        let mut place = stand_ins(source.fragment.rows);
        for k in (0..source.fragment.rows.len() / 6).rev() {
            place -= usize::from(source.fragment.is(k, RowKind::StandIn));
            self.delivered(source, k, place)?;
        }
        Ok(())
    }
}

// The formula of a fragment, whatever the memory held: how many steps it has.
pub fn formula(source: &Source, work: &mut [u16]) -> Result<usize, TooMany>
    requires { Ready source.now.list source.now.text.now (lent source.now.fragment.rows.now source.now.fragment.pool.now) work.old }
    ensures { Made (length source.now.fragment.rows.now / 6 * source.now.list.count) source.now.list.count (laid_run (rows_of (lent source.now.fragment.rows.now source.now.fragment.pool.now)) (listed source.now.list source.now.text.now)) work.new result }
{
    work.fill(0);
    let cells = source.layout().cells;
    let mut memory = Memory {
        work,
        cells,
        steps: 0,
    };
    memory.swept(source)?;
    Ok(memory.steps)
}
