// The forms of the grammar: their readers call each other, and the bytes left to read fall. Each gives the number of the entry
// that it added last, or nothing where its form does not stand. `Ready` is no invariant of the state: what follows a step may add
// an entry and take no byte.
ghost use Rattle.std.specs.Prelude.{◌≡◌, true, ◌<◌, ◌≤◌, length};
ghost use Rattle.meaning.specs.Question.{is_letter};
ghost use Rattle.question.specs.inner.Kind.{code};
ghost use Rattle.reader.specs.inner.Reading.{byte_at, Form, whole_chain, chain_part, sign, kind_of, Ready, Reads, Quotes};

use crate::state::State;
use crate::word::Word;
use question::Kind;

// A quoted word, from its quote on, with its entry.
fn quoted(s: &mut State, kind: Kind) -> Option<usize>
    requires text_len_bound { length s.old.text.now ≤ 255 }
    requires at_in_bounds { s.old.at ≤ length s.old.text.now }
    requires count_bound { s.old.list.count < 2000 }
    ensures { Quotes s.old s.new (code kind) result }
{
    s.take(b'"')?;
    let start = s.at;
    let length = s.word_len(Word::Quoted);
    if 64 < length {
        return None;
    }
    s.at += length;
    s.take(b'"')?;
    Some(s.add(kind, start, length))
}

// Chains of alternatives, with `|`, and of conjunctions, with `&`.
#[derive(Clone, Copy)]
enum Chain {
    Ors,
    Ands,
}

impl Chain {
    fn sign(self) -> u8
        ensures { result ≡ sign self }
    {
        match self {
            Chain::Ors => b'|',
            Chain::Ands => b'&',
        }
    }

    // The kind of the entries that join.
    fn kind(self) -> Kind
        ensures { result ≡ kind_of self }
    {
        match self {
            Chain::Ors => Kind::Or,
            Chain::Ands => Kind::And,
        }
    }
}

// question := conj ('|' conj)*
#[cycle(reading)]
pub(crate) fn question(s: &mut State) -> Option<usize>
    requires { Ready s.old }
    ensures { Reads Form.question s.old s.new result }
{
    whole_chain(s, Chain::Ors)
}

// A whole chain: a question, or conj := unit ('&' unit)*.
#[cycle(reading)]
fn whole_chain(s: &mut State, c: Chain) -> Option<usize>
    requires { Ready s.old }
    ensures { Reads (whole_chain c) s.old s.new result }
{
    let mut top = chain_part(s, c)?;
    while s.here(c.sign()) {
        s.at += 1;
        let right = chain_part(s, c)?;
        top = s.add(c.kind(), top, right);
    }
    Some(top)
}

// A part of a chain: a conjunction or a unit. The grammar's readers call each other, so which comes next is a match.
#[cycle(reading)]
fn chain_part(s: &mut State, c: Chain) -> Option<usize>
    requires { Ready s.old }
    ensures { Reads (chain_part c) s.old s.new result }
{
    match c {
        Chain::Ors => whole_chain(s, Chain::Ands),
        Chain::Ands => unit(s),
    }
}

// unit := '!' unit | '(' question ')' | label()= quoted | text()= quoted | path
#[cycle(reading)]
fn unit(s: &mut State) -> Option<usize>
    requires { Ready s.old }
    ensures { Reads Form.unit s.old s.new result }
{
    if s.here(b'!') {
        s.at += 1;
        let u = unit(s)?;
        return Some(s.add(Kind::Not, u, 0));
    }
    if s.here(b'(') {
        s.open();
        let q = question(s)?;
        s.shut(b')')?;
        return Some(q);
    }
    if s.eat(b"label()=") {
        return quoted(s, Kind::Label);
    }
    if s.eat(b"text()=") {
        return quoted(s, Kind::Text);
    }
    path(s)
}

// path := '//' steps | steps
#[cycle(reading)]
fn path(s: &mut State) -> Option<usize>
    requires { Ready s.old }
    ensures { Reads Form.path s.old s.new result }
{
    if s.eat(b"//") {
        let r = steps(s)?;
        return Some(s.add(Kind::Below, r, 0));
    }
    steps(s)
}

// steps := ('.' | '*' | name) rest
#[cycle(reading)]
fn steps(s: &mut State) -> Option<usize>
    requires { Ready s.old }
    ensures { Reads Form.steps s.old s.new result }
{
    if s.here(b'.') {
        s.at += 1;
        return rest(s);
    }
    if s.here(b'*') {
        s.at += 1;
        let r = rest(s)?;
        return Some(s.add(Kind::Child, r, 0));
    }
    if s.letter_here() {
        return named(s);
    }
    None
}

#[cycle(reading)]
fn named(s: &mut State) -> Option<usize>
    requires ready { Ready s.old }
    requires at_value { is_letter (byte_at s.old.text.now s.old.at) ≡ true }
    ensures { Reads Form.steps s.old s.new result }
{
    let start = s.at;
    let size = s.word_len(Word::Name);
    if 64 < size {
        return None;
    }
    s.at += size;
    let l = s.add(Kind::Label, start, size);
    let r = rest(s)?;
    let w = s.add(Kind::At, l, r);
    Some(s.add(Kind::Child, w, 0))
}

// rest := '[' question ']' rest | '/text()=' quoted | '//' steps | '/' steps | nothing
#[cycle(reading)]
fn rest(s: &mut State) -> Option<usize>
    requires { Ready s.old }
    ensures { Reads Form.rest s.old s.new result }
{
    if s.here(b'[') {
        s.open();
        let q = question(s)?;
        s.shut(b']')?;
        let r = rest(s)?;
        return Some(s.add(Kind::At, q, r));
    }
    if !s.here(b'/') {
        return Some(s.add(Kind::Itself, 0, 0));
    }
    if s.eat(b"/text()=") {
        return quoted(s, Kind::Text);
    }
    if s.eat(b"//") {
        let r = steps(s)?;
        return Some(s.add(Kind::Below, r, 0));
    }
    s.at += 1;
    steps(s)
}
