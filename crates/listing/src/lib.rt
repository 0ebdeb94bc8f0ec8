// The listing of a list that a person reads: a line for the count, then a line for each entry.
#![tactic(auto)]

ghost use Rattle.std.specs.Prelude.{◌≡◌, ℕ, ◌+◌, ◌<◌, ◌≤◌, [], ◌++◌, length};
ghost use Rattle.question.specs.inner.Kind.{code};
ghost use Rattle.question.specs.Listed.{EntryRule, Keeps};
ghost use Rattle.listing.specs.declared.TheConstants.{MOST_LISTING};
ghost use Rattle.listing.specs.Listing.{line, listing_of, Lists};
ghost use Rattle.listing.specs.inner.Parts.{word_of, operands, entry_in};

mod page;

use page::Page;
use question::rules::list_ok;
use question::{Entry, Kind, List};

// No listing is longer.
pub const MOST_LISTING: usize = 2369;

// Puts a kind's word, with the blank after it where something follows: each in an arm of its own, for a copy of a known length.
// The line feed at least comes after it.
fn put_kind(page: &mut Page, kind: Kind)
    requires { length page.old + length (word_of kind) < MOST_LISTING }
    ensures { page.new ≡ page.old ++ word_of kind }
{
    match kind {
        Kind::Itself => page.put(b"self"),
        Kind::Label => page.put(b"label "),
        Kind::Text => page.put(b"text "),
        Kind::Child => page.put(b"child "),
        Kind::At => page.put(b"at "),
        Kind::Below => page.put(b"below "),
        Kind::Or => page.put(b"or "),
        Kind::And => page.put(b"and "),
        Kind::Not => page.put(b"not "),
    }
}

// Puts what follows a kind's word: a word of the text, an entry's number or two.
fn put_operands(page: &mut Page, text: &[u8], entry: Entry)
    requires by_index { (i : ℕ) × (i < 32) × EntryRule text.now i (code entry.kind) entry.a entry.b }
    requires room { length page.old + length (operands text.now entry.kind entry.a entry.b) ≤ MOST_LISTING }
    ensures { page.new ≡ page.old ++ operands text.now entry.kind entry.a entry.b }
{
    let Entry { kind, a, b } = entry;
    match kind {
        Kind::Itself => {}
        Kind::Label | Kind::Text => page.put(&text[a..a + b]),
        Kind::Child | Kind::Below | Kind::Not => page.put_number(a),
        Kind::At | Kind::Or | Kind::And => page.put_two(a, b),
    }
}

// Puts the line of entry i.
fn put_line(page: &mut Page, list: &List, text: &[u8], i: usize)
    requires keeps { Keeps list.now text.now }
    requires bound { i < list.now.count }
    requires room { length page.old + length (line i (entry_in list.now text.now i)) ≤ MOST_LISTING }
    ensures { page.new ≡ page.old ++ line i (entry_in list.now text.now i) }
{
    let entry = list.entry(i).unwrap();
    page.put_number(i);
    page.put(b" ");
    put_kind(page, entry.kind);
    put_operands(page, text, entry);
    page.put(b"\n");
}

fn put_listing(page: &mut Page, list: &List, text: &[u8])
    requires empty { page.old ≡ [] }
    requires keeps { Keeps list.now text.now }
    ensures { page.new ≡ listing_of list.now text.now }
{
    page.put(b"entries ");
    page.put_number(list.count);
    page.put(b"\n");
    for i in 0..list.count {
        put_line(page, list, text, i);
    }
}

// What a list says, written into `out` where it fits whole; gives its length.
pub fn question_listing(list: List, text: &[u8], out: &mut [u8]) -> usize
    ensures { Lists list text.now out.old result out.new }
{
    // `Lists` says 0 for no listing, as C reads it: a listing has some byte
    if !list_ok(list, text) {
        return 0;
    }
    let mut bytes = [0; MOST_LISTING];
    let mut page = Page::on(&mut bytes);
    put_listing(&mut page, &list, text);
    let written = page.written();
    let size = written.len();
    if size <= out.len() {
        out[..size].copy_from_slice(written);
    }
    size
}
