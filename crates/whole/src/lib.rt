// The desk's record, and whether record and store are whole: layout rules, each reply heard free of every `Unfit`,
// and the store laid with no gap and no overlap.
#![tactic(auto)]

ghost use Rattle.std.specs.Prelude.{◌≡◌, ◌≢◌, ◌+◌, ◌*◌, ◌^◌, ◌≤◌, ◌<◌, length, IfOk};
ghost use Rattle.meaning.specs.Says.{Says};
ghost use Rattle.meaning.specs.Register.{Layout};
ghost use Rattle.reply.specs.inner.Decode.{ins_to};
ghost use Rattle.reply.specs.inner.Fields.{HeadIs};
ghost use Rattle.whole.specs.Whole.{OpenRules, layout_of, Rules, Heard, start_of, size_of, part_of, Own, Laid, Whole};
ghost use Rattle.whole.specs.declared.Unfit.TheVariants as Unfits;
ghost use Rattle.whole.specs.inner.Steps.{StandsFor, ChildOf, OnlyChildren, AllChildren, Fitting, Judged, judge_number, Starts, Apart, TileOk, Tested};

use reply::judging::{NotAReply, reply_check};
use reply::{Head, header, take_in};

// Why a reply is not one for this question; the discriminants are the numbers of refusal.
#[derive(Clone, Copy, Debug, PartialEq, Eq)]
pub enum Unfit {
    NotAReply = 13,
    OtherQuestion = 14,
    Misfit = 15,
}

impl From<NotAReply> for Unfit {
    ghost from_gives = { λ _ unfit. unfit ≡ Unfits.NotAReply };

    fn from(_refusal: NotAReply) -> Unfit {
        Unfit::NotAReply
    }
}

// A question: its number (0: none is open), entry count, layout, and for each fragment whether it is heard (0: it is not),
// where its reply starts in the store and how many bytes it has.
// It is laid out for C: so a number stands for none and for no, and arrays lie side by side.
// C may fill it with anything: so what a test needs of it is a clause, and no invariant of the type.
#[repr(C)]
#[derive(Clone, Copy, Default)]
pub struct Question {
    pub number: u64,
    pub entries: usize,
    pub parts: usize,
    pub layout: [u8; 32],
    pub heard: [u8; 32],
    pub place: [usize; 32],
    pub size: [usize; 32],
}

// The last number opened, how many bytes of the store are used, and the question; laid out for C, as the question is.
#[repr(C)]
#[derive(Clone, Copy, Default)]
pub struct Record {
    pub last: u64,
    pub used: usize,
    pub question: Question,
}

// ---- layouts

pub fn layout_ok(layout: &[u8]) -> bool
    ensures { Says (Layout layout.now) result }
{
    let parts = layout.len();
    if !(1..=32).contains(&parts) || layout[0] != 255 {
        return false;
    }
    // by number, since the parent is compared with it: plainer than an enumeration without its first
    (1..parts).all(|k| usize::from(layout[k]) < k)
}

// Whether layout and entry count keep the rules of an open question.
pub fn rules_ok(layout: &[u8], entries: usize) -> bool
    ensures { Says (OpenRules layout.now entries) result }
{
    (1..=32).contains(&entries) && layout_ok(layout)
}

// ---- a reply: no reply at all, another question's, or a misfit

// The bytes of a reply, and its header.
#[derive(Clone, Copy)]
struct Received<'a> {
    bytes: &'a [u8],
    head: Head,
    ghost room: { ins_to head.ins ≤ 8 * length bytes.now },
    ghost few: { head.ins < 32 },
}

impl Received<'_> {
    // Whether g is among the stand-ins.
    fn stands_for(&self, g: usize) -> bool
        ensures { Says (StandsFor self.now.bytes.now self.now.head.ins g) result }
    {
        (0..self.head.ins).any(|i| take_in(self.bytes, i) == g)
    }

    // Whether the layout cuts g from the reply's fragment.
    fn is_child(&self, layout: &[u8], g: usize) -> bool
        ensures { Says (ChildOf layout.now self.now.head.fragment g) result }
    {
        g < layout.len() && u32::from(layout[g]) == self.head.fragment
    }

    // Whether each stand-in is a child of the fragment.
    fn only_children(&self, layout: &[u8]) -> bool
        ensures { Says (OnlyChildren layout.now self.now.bytes.now self.now.head) result }
    {
        (0..self.head.ins).all(|i| self.is_child(layout, take_in(self.bytes, i)))
    }

    // If g is a child of the fragment, whether it has a stand-in.
    fn child_met(&self, layout: &[u8], g: usize) -> bool
        ensures { Says (ChildOf layout.now self.now.head.fragment g → StandsFor self.now.bytes.now self.now.head.ins g) result }
    {
        !self.is_child(layout, g) || self.stands_for(g)
    }

    // Whether each child of the fragment has a stand-in.
    fn all_children(&self, layout: &[u8]) -> bool
        ensures { Says (AllChildren layout.now self.now.bytes.now self.now.head) result }
    {
        (0..layout.len()).all(|g| self.child_met(layout, g))
    }
}

impl Question {
    // Whether a question is open.
    pub fn is_open(&self) -> bool
        ensures { Says (self.now.number ≢ 0) result }
    {
        self.number != 0
    }

    // Whether the reply is of a fragment of this layout, has its entry count, and the fragment's children for stand-ins.
    fn fits(&self, reply: &Received) -> bool
        requires { self.now.parts ≤ 32 }
        ensures { Says (Fitting self.now reply.now.bytes.now reply.now.head) result }
    {
        let head = reply.head;
        if self.parts <= head.fragment as usize || head.entries != self.entries {
            return false;
        }
        let layout = &self.layout[..self.parts];
        reply.only_children(layout) && reply.all_children(layout)
    }

    // ---- the store

    // Whether fragment f is heard.
    pub fn is_heard(&self, f: usize) -> bool
        requires { f < 32 }
        ensures { Says (Heard self.now f) result }
    {
        self.heard[f] != 0
    }

    // If g is another heard fragment, whether its bytes and f's are apart.
    fn apart(&self, f: usize, g: usize) -> bool
        requires { (f < 32) × (g < 32) × (start_of self.now f + size_of self.now f < 2 ^ 64) }
        ensures { Says (Heard self.now g → (g ≡ f → ⊥) → Apart (Heard self.now) (start_of self.now) (size_of self.now) f g) result }
    {
        if g == f || !self.is_heard(g) {
            return true;
        }
        let a = self.place[f];
        let b = self.place[g];
        a + self.size[f] <= b || (b <= a && self.size[g] <= a - b)
    }

    // Whether f's bytes are apart from those of every other heard fragment.
    fn apart_from(&self, f: usize) -> bool
        requires { (f < 32) × (start_of self.now f + size_of self.now f < 2 ^ 64) }
        ensures { Says ((g : _) → Heard self.now g → (g ≡ f → ⊥) → Apart (Heard self.now) (start_of self.now) (size_of self.now) f g) result }
    {
        (0..32).all(|g| self.apart(f, g))
    }

    // Whether g is heard and placed at `at`.
    fn begins(&self, g: usize, at: usize) -> bool
        requires { g < 32 }
        ensures { Says (Heard self.now g × (start_of self.now g ≡ at)) result }
    {
        self.is_heard(g) && self.place[g] == at
    }

    // Whether some heard fragment is placed at `at`.
    fn starts(&self, at: usize) -> bool
        ensures { Says (Starts (Heard self.now) (start_of self.now) (size_of self.now) at) result }
    {
        (0..32).any(|g| self.begins(g, at))
    }

    // If f is heard, whether its part is inside, apart from the others, and the last or followed.
    fn tile_ok(&self, used: usize, f: usize) -> bool
        requires { f < 32 }
        ensures { Says (Heard self.now f → TileOk (Heard self.now) (start_of self.now) (size_of self.now) used f) result }
    {
        if !self.is_heard(f) {
            return true;
        }
        let a = self.place[f];
        let n = self.size[f];
        if used < n || used - n < a {
            return false;
        }
        self.apart_from(f) && (a + n == used || self.starts(a + n))
    }

    // Whether the heard fragments' parts lie below `used` with no gap and no overlap.
    fn all_tiles(&self, used: usize) -> bool
        ensures { Says (Tested (Heard self.now) (start_of self.now) (size_of self.now) used) result }
    {
        (0..32).all(|f| self.tile_ok(used, f)) && (used == 0 || self.starts(0))
    }

    // If f is heard, whether the bytes recorded for it are its reply, and nothing of `Unfit` applies to them.
    fn reply_ok(&self, store: &[u8], f: usize) -> bool
        requires parts { self.now.parts ≤ 32 }
        requires few { f < 32 }
        requires inside { Heard self.now f → start_of self.now f + size_of self.now f ≤ length store.now }
        ensures { Says (Heard self.now f → Own self.now (part_of self.now store.now f) f) result }
    {
        if !self.is_heard(f) {
            return true;
        }
        let at = self.place[f];
        let part = &store[at..at + self.size[f]];
        judge(*self, part).is_ok_and(|h| h.fragment as usize == f)
    }

    // Whether the bytes recorded for each heard fragment are its reply.
    fn replies_ok(&self, store: &[u8]) -> bool
        requires parts { self.now.parts ≤ 32 }
        requires inside { (f : _) → Heard self.now f → start_of self.now f + size_of self.now f ≤ length store.now }
        ensures { Says ((f : _) → Heard self.now f → Own self.now (part_of self.now store.now f) f) result }
    {
        (0..32).all(|f| self.reply_ok(store, f))
    }

    // Whether the used part of the store is exactly the heard fragments' replies.
    fn laid(&self, used: usize, store: &[u8]) -> bool
        requires { self.now.parts ≤ 32 }
        ensures { Says (Laid self.now used store.now) result }
    {
        if store.len() < used {
            return false;
        }
        self.all_tiles(used) && self.replies_ok(store)
    }

    // Whether layout and entry count keep their rules.
    fn rules(&self) -> bool
        ensures { Says (Rules self.now) result }
    {
        self.parts <= 32 && rules_ok(&self.layout[..self.parts], self.entries)
    }
}

// The reply's header, or the first of `Unfit` that applies to the bytes s.
pub fn judge(q: Question, s: &[u8]) -> Result<Head, Unfit>
    requires { q.parts ≤ 32 }
    ensures number { Judged q s.now (judge_number result) }
    ensures head { IfOk result (λ h. HeadIs s.now h) }
{
    reply_check(s)?;
    let head = header(s);
    if u64::from(head.number) != q.number {
        return Err(Unfit::OtherQuestion);
    }
    if !q.fits(&Received { bytes: s, head }) {
        return Err(Unfit::Misfit);
    }
    Ok(head)
}

pub fn whole(desk: Record, store: &[u8]) -> bool
    ensures { Says (Whole desk store.now) result }
{
    let q = desk.question;
    if q.is_open() {
        return q.rules() && q.laid(desk.used, store);
    }
    if desk.last != 0 || desk.used != 0 {
        return false;
    }
    !(0..32).any(|f| q.is_heard(f))
}
