// A fragment's rules (01, "The register and its fragments").
#![tactic(auto)]

ghost use Rattle.std.specs.Prelude.{◌≡◌, ◌+◌, ◌*◌, ◌≤◌, length, get_or};
ghost use Rattle.meaning.specs.Says.{Says};
ghost use Rattle.meaning.specs.Fragment.{RealRow, StandIn, RowRule, Sound};
ghost use Rattle.fragment.specs.inner.Kind.{Decodes, code_of};
ghost use Rattle.fragment.specs.Lent.{lent};
ghost use Rattle.fragment.specs.inner.Parts.{fragment_of, WordRule, ParentRule};

pub use kind::{RowKind, UnknownRowKind};

mod kind;

// A fragment as it is lent: its rows, six numbers each, beside a byte pool. The methods take a row's number, and each asks that
// the row lies inside: a struct for one row would be no plainer, since two of them look at other rows too, by number.
#[derive(Clone, Copy)]
pub struct Lent<'a> {
    pub rows: &'a [u32],
    pub pool: &'a [u8],
}

impl Lent<'_> {
    // The kind of row k.
    pub fn kind(self, k: usize) -> Result<RowKind, UnknownRowKind>
        requires { k * 6 + 6 ≤ length self.rows.now }
        ensures { Decodes (get_or self.entry.rows.now (k * 6 + 1) 0) result }
    {
        RowKind::try_from(self.rows[k * 6 + 1])
    }

    // Whether row k is of this kind.
    pub fn is(self, k: usize, kind: RowKind) -> bool
        requires { k * 6 + 6 ≤ length self.rows.now }
        ensures { Says (get_or self.entry.rows.now (k * 6 + 1) 0 ≡ code_of kind) result }
    {
        self.kind(k) == Ok(kind)
    }

    // Whether the word whose start and length stand at `at` has `least` to `most` bytes, all inside the pool.
    fn word_ok(self, at: usize, least: u32, most: u32) -> bool
        requires { at + 2 ≤ length self.rows.now }
        ensures { Says (WordRule (fragment_of self.entry) at least most) result }
    {
        let len = self.rows[at + 1];
        (least..=most).contains(&len) && self.rows[at] as usize + len as usize <= self.pool.len()
    }

    // Whether row k of kind real keeps the rule for a real row.
    fn real_ok(self, k: usize) -> bool
        requires { (k * 6 + 6 ≤ length self.rows.now) × (get_or self.rows.now (k * 6 + 1) 0 ≡ 0) }
        ensures { Says (RealRow (fragment_of self.entry) k) result }
    {
        self.word_ok(k * 6 + 2, 1, 64) && self.word_ok(k * 6 + 4, 0, 255)
    }

    // Whether row j is a stand-in for the fragment `goes`.
    fn stands_for(self, j: usize, goes: u32) -> bool
        requires { j * 6 + 6 ≤ length self.rows.now }
        ensures { Says ((get_or self.entry.rows.now (j * 6 + 1) 0 ≡ 1) × (get_or self.entry.rows.now (j * 6 + 2) 0 ≡ goes)) result }
    {
        self.is(j, RowKind::StandIn) && self.rows[j * 6 + 2] == goes
    }

    // Whether row k of kind stand-in keeps the rule for a stand-in in the fragment `number`.
    fn stand_in_ok(self, number: u32, k: usize) -> bool
        requires { (k * 6 + 6 ≤ length self.rows.now) × (get_or self.rows.now (k * 6 + 1) 0 ≡ 1) }
        ensures { Says (StandIn number (fragment_of self.entry) k) result }
    {
        let goes = self.rows[k * 6 + 2];
        number < goes
            && goes <= 31
            && self.rows[k * 6 + 3..k * 6 + 6] == [0, 0, 0]
            && !(0..k).any(|j| self.stands_for(j, goes))
    }

    // Whether the parent of row k is a real row before it; row 0 has none.
    fn parent_ok(self, k: usize) -> bool
        requires { k * 6 + 6 ≤ length self.rows.now }
        ensures { Says (ParentRule (fragment_of self.entry) k) result }
    {
        let parent = self.rows[k * 6];
        if k == 0 {
            parent == u32::MAX
        } else {
            (parent as usize) < k && self.is(parent as usize, RowKind::Real)
        }
    }

    // Whether row k keeps its rule, given the rows before it; row 0 is no stand-in.
    fn row_ok(self, number: u32, k: usize) -> bool
        requires { k * 6 + 6 ≤ length self.rows.now }
        ensures { Says (RowRule number (fragment_of self.entry) k) result }
    {
        match self.kind(k) {
            Ok(RowKind::Real) => self.parent_ok(k) && self.real_ok(k),
            Ok(RowKind::StandIn) => k != 0 && self.parent_ok(k) && self.stand_in_ok(number, k),
            Err(_) => false,
        }
    }

    // Whether the fragment keeps the rules, under this number.
    pub fn ok(self, number: u32) -> bool
        ensures { Says (Sound number (lent self.entry.rows.now self.entry.pool.now)) result }
    {
        let count = self.rows.len() / 6;
        number <= 31
            && self.rows.len() == count * 6
            && (1..=512).contains(&count)
            && (0..count).all(|k| self.row_ok(number, k))
    }
}
