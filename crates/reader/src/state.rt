// How far reading has come, and the list of what was read.
ghost use Rattle.std.specs.Prelude.{◌≡◌, ◌≢◌, ◌<◌, ◌≤◌, ◌+◌, length, MatchOption, drop, MatchBool, cond};
ghost use Rattle.meaning.specs.Question.{is_letter};
ghost use Rattle.std.specs.List.{prefix_len};
ghost use Rattle.question.specs.inner.Kind.{code};
ghost use Rattle.reader.specs.inner.Reading.{added, deepened, moved, closed, byte_at, fronts, passes};

use crate::word::Word;
use question::{Kind, List};

// Where reading stands: the text, the place in it, how many brackets are open, the deepest that they ever were, and the entries,
// of which the first 32 are kept.
#[derive(Drop)]
pub(crate) struct State<'a> {
    pub text: &'a [u8],
    pub at: usize,
    pub depth: usize,
    pub deepest: usize,
    pub list: List,
}

impl State<'_> {
    // Whether the byte b stands here.
    pub(crate) fn here(&self, b: u8) -> bool
        requires { 0 < b }
        ensures { MatchBool result (byte_at self.now.text.now self.now.at ≡ b) (byte_at self.now.text.now self.now.at ≢ b) }
    {
        self.text.get(self.at).is_some_and(|x| *x == b)
    }

    // Whether the bytes `b` stand here; if so, past them.
    pub(crate) fn eat(&mut self, b: &[u8]) -> bool
        requires { self.old.at ≤ length self.old.text.now }
        ensures stood { result ≡ fronts b.now (drop self.old.at self.old.text.now) }
        ensures past { self.new ≡ cond result (moved self.old (self.old.at + length b.now)) self.old }
    {
        if !self.text[self.at..].starts_with(b) {
            return false;
        }
        self.at += b.len();
        true
    }

    // Whether a letter stands here.
    pub(crate) fn letter_here(&self) -> bool
        ensures { result ≡ is_letter (byte_at self.now.text.now self.now.at) }
    {
        self.text
            .get(self.at)
            .is_some_and(|b| b.is_ascii_alphabetic())
    }

    // How many bytes of a word stand from here on.
    pub(crate) fn word_len(&self, word: Word) -> usize
        requires { self.now.at ≤ length self.now.text.now }
        ensures { result ≡ prefix_len (passes word) (drop self.now.at self.now.text.now) }
    {
        self.text[self.at..]
            .iter()
            .take_while(|b| word.has(**b))
            .count()
    }

    // One entry more, and its number: it is counted, and kept where there is room; what is kept has operands below 256.
    pub(crate) fn add(&mut self, kind: Kind, left: usize, right: usize) -> usize
        requires { self.old.list.count < 2000 }
        ensures grown { self.new ≡ added self.old (code kind) left right }
        ensures number { result ≡ self.old.list.count }
    {
        let n = self.list.count;
        self.list.count += 1;
        if n < 32 {
            self.list.kinds[n] = kind as u8;
            self.list.left[n] = (left % 256) as u8;
            self.list.right[n] = (right % 256) as u8;
        }
        n
    }

    // Past an opening bracket.
    pub(crate) fn open(&mut self)
        requires at_bound { self.old.at ≤ 255 }
        requires depth_bound { self.old.depth ≤ 255 }
        ensures { self.new ≡ deepened self.old (self.old.at + 1) }
    {
        self.at += 1;
        self.depth += 1;
        self.deepest = self.deepest.max(self.depth);
    }

    // Past the byte b, if it stands here.
    pub(crate) fn take(&mut self, b: u8) -> Option<()>
        requires at_bound { self.old.at < 2000 }
        requires b_nonzero { 0 < b }
        ensures { MatchOption result (byte_at self.old.text.now self.old.at ≢ b)
            (λ u. (byte_at self.old.text.now self.old.at ≡ b) × (self.new ≡ moved self.old (self.old.at + 1))) }
    {
        if !self.here(b) {
            return None;
        }
        self.at += 1;
        Some(())
    }

    // Past a closing bracket, if it stands here.
    pub(crate) fn shut(&mut self, b: u8) -> Option<()>
        requires at_bound { self.old.at < 2000 }
        requires some_open { 0 < self.old.depth }
        requires b_nonzero { 0 < b }
        ensures { MatchOption result (byte_at self.old.text.now self.old.at ≢ b)
            (λ u. (byte_at self.old.text.now self.old.at ≡ b) × (self.new ≡ closed self.old)) }
    {
        self.take(b)?;
        self.depth -= 1;
        Some(())
    }
}
