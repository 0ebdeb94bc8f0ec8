// Writing a reply from a depot's memory into a lent buffer: every bit past what is written stays as it was.
// The width of a reference's number is a parameter `w`, 12 today, so that a later width changes no contract. A cursor goes from write
// to write by value, and its place says what is written: so each function asks anew for room from there on.
#![tactic(auto)]

ghost use Rattle.std.specs.Prelude.{◌≡◌, ℕ, ◌++◌, ◌+◌, ◌*◌, ◌/◌, ◌^◌, ◌≤◌, ◌<◌, length, get_or};
ghost use Rattle.meaning.specs.Fragment.{num, row_count};
ghost use Rattle.bits.specs.Bits.{digits};
ghost use Rattle.bits.specs.Fields.{Wrote};
ghost use Rattle.reply.specs.Write.{ref_bits, step_bits, each, head_bits};
ghost use Rattle.reply.specs.inner.Decode.{ref_width, step_width, size};
ghost use Rattle.meaning.specs.Says.{Says};
ghost use Rattle.writing.specs.inner.Codes.{ref_of, step_of, refs_at, steps_at, RefCode, StepCode, HeldIn, FrontIn, bare, row_in, row_ins, reply_held, Written};

use bits::Cursor;
use fragment::RowKind;
use reply::{HEAD_TO, Head, IN_WIDTH};

// A code is its kind times this, and its number.
const KIND: u16 = 4096;

// How many bytes a reply of these counts has.
pub fn reply_size(w: usize, entries: usize, ins: usize, steps: usize) -> usize
    requires { (w ≤ 14) × (entries ≤ 32) × (ins < 32) × (steps ≤ 4096) }
    ensures { result ≡ size w ins steps entries }
{
    let wide = 2 + w;
    (HEAD_TO + IN_WIDTH * ins + (2 + 2 * wide) * steps + 2 * wide * entries).div_ceil(8)
}

// Whether the second number of a row says that it is a stand-in. C lends rows as numbers, and here one becomes a kind.
fn is_stand_in(kind: u32) -> bool
    ensures { Says (kind ≡ 1) result }
{
    RowKind::try_from(kind) == Ok(RowKind::StandIn)
}

// How many stand-ins the rows have.
pub fn stand_ins(rows: &[u32]) -> usize
    ensures { result ≡ length (row_ins rows.now) }
{
    rows.chunks_exact(6)
        .filter(|row| is_stand_in(row[1]))
        .count()
}

// The stand-in's field of one row, if it is a stand-in, by the two numbers that C lends.
fn put_row(c: Cursor, out: &mut [u8], kind: u32, fragment: u32) -> Cursor
    requires { (c.at + 5 * length (row_in kind fragment) ≤ 8 * length out.old) × (c.at + 5 < 2 ^ 64) × (kind ≡ 1 → fragment < 32) }
    ensures { Wrote out.old out.new c.at result.at (each (digits 5) (row_in kind fragment)) × (result.at ≡ c.at + 5 * length (row_in kind fragment)) }
{
    if is_stand_in(kind) {
        c.put(out, IN_WIDTH, fragment)
    } else {
        c
    }
}

// The stand-ins, by increasing row.
fn put_ins(mut c: Cursor, out: &mut [u8], rows: &[u32]) -> Cursor
    requires rows_bound { (c.at + 5 * length (row_ins rows.now) ≤ 8 * length out.old) × (c.at + 5 * length (row_ins rows.now) + 5 < 2 ^ 64) }
    requires k_bound { (k : _) → k < row_count (bare rows.now) → num (bare rows.now) k 1 ≡ 1 → num (bare rows.now) k 2 < 32 }
    ensures { Wrote out.old out.new c.at result.at (each (digits 5) (row_ins rows.now)) × (result.at ≡ c.at + 5 * length (row_ins rows.now)) }
{
    for row in rows.chunks_exact(6) {
        c = put_row(c, out, row[1], row[2]);
    }
    c
}

// The numbers before the stand-ins; they are small, but `usize` has no `From` to a shorter type.
fn put_head(out: &mut [u8], head: Head) -> Cursor
    requires { (8 ≤ length out.old) × (head.fragment < 32) × (0 < head.entries) × (head.entries ≤ 32) × (head.ins < 32) × (head.steps < 8192) }
    ensures { Wrote out.old out.new 0 result.at (head_bits head.number head.fragment head.entries head.ins head.steps) × (result.at ≡ 60) }
{
    let a = Cursor { at: 0 }.put(out, 32, head.number);
    let b = a.put(out, 5, head.fragment);
    let c = b.put(out, 5, (head.entries - 1) as u32);
    let d = c.put(out, 5, head.ins as u32);
    d.put(out, 13, head.steps as u32)
}

// A reference's kind and number.
fn put_ref(c: Cursor, out: &mut [u8], w: usize, code: u16) -> Cursor
    requires { (c.at + ref_width w ≤ 8 * length out.old) × (c.at + ref_width w < 2 ^ 64) × (w ≤ 32) × RefCode w code }
    ensures { Wrote out.old out.new c.at result.at (ref_bits w (ref_of code)) × (result.at ≡ c.at + ref_width w) }
{
    let k = c.put(out, 2, u32::from(code / KIND));
    k.put(out, w, u32::from(code % KIND))
}

// A step's operation and its two references.
fn put_step(c: Cursor, out: &mut [u8], w: usize, step: &[u16]) -> Cursor
    requires room { (c.at + step_width w ≤ 8 * length out.old) × (c.at + step_width w < 2 ^ 64) × (w ≤ 32) }
    requires good { (length step.now ≡ 3) × StepCode w step.now 0 }
    ensures { Wrote out.old out.new c.at result.at (step_bits w (step_of step.now 0)) × (result.at ≡ c.at + step_width w) }
{
    let k = c.put(out, 2, u32::from(step[0]));
    let a = put_ref(k, out, w, step[1]);
    put_ref(a, out, w, step[2])
}

// Steps, three numbers each.
fn put_steps(mut c: Cursor, out: &mut [u8], w: usize, steps: &[u16]) -> Cursor
    requires room { (c.at + step_width w * (length steps.now / 3) ≤ 8 * length out.old) × (c.at + step_width w * (length steps.now / 3) < 2 ^ 64) × (w ≤ 32) }
    requires good { (i : ℕ) → i < length steps.now / 3 → StepCode w steps.now (i * 3) }
    ensures { Wrote out.old out.new c.at result.at (each (step_bits w) (steps_at steps.now 0 (length steps.now / 3))) × (result.at ≡ c.at + step_width w * (length steps.now / 3)) }
{
    for step in steps.chunks_exact(3) {
        c = put_step(c, out, w, step);
    }
    c
}

// References. One function for this, `put_steps` and `put_ins` would take a closure that writes, which is no plainer than a loop of one line.
fn put_refs(mut c: Cursor, out: &mut [u8], w: usize, codes: &[u16]) -> Cursor
    requires room { (c.at + ref_width w * length codes.now ≤ 8 * length out.old) × (c.at + ref_width w * length codes.now < 2 ^ 64) × (w ≤ 32) }
    requires good { (e : ℕ) → e < length codes.now → RefCode w (get_or codes.now e 0) }
    ensures { Wrote out.old out.new c.at result.at (each (ref_bits w) (refs_at codes.now 0 (length codes.now))) × (result.at ≡ c.at + ref_width w * length codes.now) }
{
    for code in codes {
        c = put_ref(c, out, w, *code);
    }
    c
}

// A formula as a depot's memory holds it: three numbers for each step, its operation and its two references, then V and D. C lends the
// memory as 16-bit numbers, so a reference there is a code.
#[derive(Clone, Copy)]
pub struct Held<'a> {
    pub steps: &'a [u16],
    pub v: &'a [u16],
    pub d: &'a [u16],
}

// Writes the reply that a depot's memory holds at the start of `out`, and gives its length. What it takes is what a depot is called with.
pub fn reply_write(
    out: &mut [u8],
    w: usize,
    number: u32,
    fragment: u32,
    rows: &[u32],
    held: Held,
) -> usize
    requires { (w ≤ 14) × FrontIn fragment (length held.v.now) (length held.steps.now / 3) rows.now × HeldIn w held.steps.now held.v.now held.d.now × (size w (length (row_ins rows.now)) (length held.steps.now / 3) (length held.v.now) ≤ length out.old) }
    ensures { Written w (reply_held number fragment rows.now held.entry.steps.now held.entry.v.now held.entry.d.now) out.old out.new result }
{
    let head = Head {
        number,
        fragment,
        entries: held.v.len(),
        ins: stand_ins(rows),
        steps: held.steps.len() / 3,
    };
    let a = put_head(out, head);
    let b = put_ins(a, out, rows);
    let c = put_steps(b, out, w, held.steps);
    let d = put_refs(c, out, w, held.v);
    let end = put_refs(d, out, w, held.d);
    let size = end.at.div_ceil(8);
    end.pad(out, 8 * size);
    size
}
