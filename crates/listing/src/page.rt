// The page that a listing is written on: lent memory, and how much of it is filled. By its contract `write!` may fail on any
// page, and a listing may not (`Lists`): so numbers are put digit by digit.
ghost use Rattle.std.specs.Prelude.{◌≡◌, ℕ, ◌+◌, ◌<◌, ◌≤◌, List, [], ◌++◌, length, take};
ghost use Rattle.meaning.specs.Bytes.{ascii};
ghost use Rattle.listing.specs.Listing.{decimal};
ghost use Rattle.listing.specs.declared.TheConstants.{MOST_LISTING};

use crate::MOST_LISTING;
use std::marker::Model;

#[derive(Drop)]
pub(crate) struct Page<'a> {
    bytes: &'a mut [u8],
    filled: usize,
}

// Clauses see the bytes that were put.
impl<'a> Model for Page<'a> {
    ghost Value = { List ℕ };

    ghost view = { λ p. take p.filled p.bytes.now };

    ghost invariant = { λ p. (p.filled ≤ MOST_LISTING) × (length p.bytes.now ≡ MOST_LISTING) };
}

impl<'a> Page<'a> {
    // An empty page on lent memory: so how much is filled stays apart from the bytes, and in a register.
    pub(crate) fn on(bytes: &'a mut [u8]) -> Page<'a>
        requires { length bytes.old ≡ MOST_LISTING }
        ensures { result ≡ [] }
    {
        Page { bytes, filled: 0 }
    }

    pub(crate) fn written(&self) -> &[u8]
        ensures { result.now ≡ self.now }
    {
        let bytes = &*self.bytes;
        &bytes[..self.filled]
    }

    pub(crate) fn put(&mut self, w: &[u8])
        requires { length self.old + length w.now ≤ MOST_LISTING }
        ensures { self.new ≡ self.old ++ w.now }
    {
        let end = self.filled + w.len();
        let bytes = &mut *self.bytes;
        bytes[self.filled..end].copy_from_slice(w);
        self.filled = end;
    }

    pub(crate) fn put_number(&mut self, n: usize)
        requires small { n < 100 }
        requires room { length self.old + length (decimal n) ≤ MOST_LISTING }
        ensures { self.new ≡ self.old ++ decimal n }
    {
        if n >= 10 {
            self.put(&[b'0' + (n / 10) as u8]);
        }
        self.put(&[b'0' + (n % 10) as u8]);
    }

    // Two numbers with a blank between.
    pub(crate) fn put_two(&mut self, a: usize, b: usize)
        requires small { (a < 100) × (b < 100) }
        requires room { length self.old + length (decimal a ++ (ascii " " ++ decimal b)) ≤ MOST_LISTING }
        ensures { self.new ≡ self.old ++ (decimal a ++ (ascii " " ++ decimal b)) }
    {
        self.put_number(a);
        self.put(b" ");
        self.put_number(b);
    }
}
