// The words of a question, by their bytes.
ghost use Rattle.std.specs.Prelude.{◌≡◌};
ghost use Rattle.reader.specs.inner.Reading.{passes};

// The words of a question: names, and what stands between quotes.
#[derive(Clone, Copy)]
pub(crate) enum Word {
    Name,
    Quoted,
}

impl Word {
    pub(crate) fn has(self, b: u8) -> bool
        ensures { result ≡ passes self b }
    {
        match self {
            Word::Name => b.is_ascii_alphanumeric() || b == b'-' || b == b'_',
            Word::Quoted => b != b'"' && (b' '..=b'~').contains(&b),
        }
    }
}
