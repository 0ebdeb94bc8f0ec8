// One entry of a list.
ghost use Rattle.std.specs.Prelude.{◌<◌};
ghost use Rattle.question.specs.inner.Kind.{GivesEntry};

use crate::kind::UnknownKind;
use crate::{Kind, List};

// A kind and two operands; a word's are its start and its length.
#[derive(Clone, Copy, Debug, PartialEq, Eq)]
pub struct Entry {
    pub kind: Kind,
    pub a: usize,
    pub b: usize,
}

impl List {
    // What stands at place i, or its byte, where no kind has that.
    pub fn entry(&self, i: usize) -> Result<Entry, UnknownKind>
        requires { i < 32 }
        ensures { GivesEntry self.now i result }
    {
        Ok(Entry {
            kind: Kind::try_from(self.kinds[i])?,
            a: usize::from(self.left[i]),
            b: usize::from(self.right[i]),
        })
    }
}
