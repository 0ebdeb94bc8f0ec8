// The reader of written questions.
#![tactic(auto)]

ghost use Rattle.std.specs.Prelude.{◌≡◌};
ghost use Rattle.reader.specs.Read.{Read, answer_of};

mod grammar;
mod state;
mod word;

use grammar::question;
use question::List;
use state::State;

// Why no list is read from a text, by the number of its refusal.
#[derive(Clone, Copy, Debug, PartialEq, Eq)]
pub enum Refusal {
    TextLength = 1,
    NotAQuestion = 2,
    TooNested = 3,
    TooManyEntries = 4,
}

// What was read of a text, for C: 0 and its list, or the number of the refusal and the empty list.
#[repr(C)]
#[derive(Clone, Copy)]
pub struct Answer {
    pub refusal: usize,
    pub list: List,
}

impl From<Result<List, Refusal>> for Answer {
    ghost from_gives = { λ r a. a ≡ answer_of r };

    fn from(read: Result<List, Refusal>) -> Answer {
        match read {
            Ok(list) => Answer { refusal: 0, list },
            Err(refusal) => Answer {
                refusal: refusal as usize,
                list: NOTHING,
            },
        }
    }
}

// A constant, since both an answer and a state begin with it; no plainer by `Default`.
const NOTHING: List = List {
    count: 0,
    kinds: [0; 32],
    left: [0; 32],
    right: [0; 32],
};

// The list of the question that the text is, or why there is none.
pub fn question_read(text: &[u8]) -> Result<List, Refusal>
    ensures { Read text.now (answer_of result) }
{
    if text.is_empty() || 255 < text.len() {
        return Err(Refusal::TextLength);
    }
    let mut s = State {
        text,
        at: 0,
        depth: 0,
        deepest: 0,
        list: NOTHING,
    };
    if question(&mut s).is_none() || s.at != text.len() {
        return Err(Refusal::NotAQuestion);
    }
    if 12 < s.deepest {
        return Err(Refusal::TooNested);
    }
    if 32 < s.list.count {
        return Err(Refusal::TooManyEntries);
    }
    Ok(s.list)
}
