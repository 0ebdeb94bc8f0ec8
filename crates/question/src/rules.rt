// The list's rules (01, "The list of sub-questions").
ghost use Rattle.std.specs.Prelude.{◌≡◌, ◌+◌, ◌<◌, ◌≤◌, get_or};
ghost use Rattle.meaning.specs.Says.{Says};
ghost use Rattle.question.specs.Listed.{EntryRule, Keeps};
ghost use Rattle.question.specs.inner.Kind.{code};

use crate::{Entry, Kind, List};

impl Entry {
    // Whether it keeps the rule for entry i over the text: a word lies inside it and has no more than 64 bytes, and what is
    // pointed at lies before i.
    fn ok(self, text: &[u8], i: usize) -> bool
        requires small { (self.a < 256) × (self.b < 256) }
        ensures { Says (EntryRule text.now i (code self.kind) self.a self.b) result }
    {
        let Entry { kind, a, b } = self;
        match kind {
            Kind::Itself => true,
            Kind::Label | Kind::Text => b <= 64 && a + b <= text.len(),
            Kind::Child | Kind::Below | Kind::Not => a < i,
            Kind::At | Kind::Or | Kind::And => a < i && b < i,
        }
    }
}

// Whether entry i of the list keeps its rule over the text.
fn entry_ok(list: &List, text: &[u8], i: usize) -> bool
    requires { i < 32 }
    ensures { Says (EntryRule text.now i (get_or list.now.kinds i 0) (get_or list.now.left i 0) (get_or list.now.right i 0)) result }
{
    let Ok(entry) = list.entry(i) else {
        return false;
    };
    entry.ok(text, i)
}

// Whether the list keeps the rules over the text.
pub fn list_ok(list: List, text: &[u8]) -> bool
    ensures { Says (Keeps list text.now) result }
{
    (1..=32).contains(&list.count) && (0..list.count).all(|i| entry_ok(&list, text, i))
}
