// The nine kinds of entries (01, "The list of sub-questions"), in its order.
ghost use Rattle.question.specs.inner.Kind.{Decodes};

#[derive(Clone, Copy, Debug, PartialEq, Eq)]
pub enum Kind {
    Itself = 0,
    Label = 1,
    Text = 2,
    Child = 3,
    At = 4,
    Below = 5,
    Or = 6,
    And = 7,
    Not = 8,
}

// A byte that no kind has. Fragment and reply have the like for a number: they share no crate with code, and one for three lines would
// be no plainer.
#[derive(Clone, Copy, Debug, PartialEq, Eq)]
pub struct UnknownKind(pub u8);

impl TryFrom<u8> for Kind {
    type Error = UnknownKind;

    ghost try_from_gives = { Decodes };

    fn try_from(code: u8) -> Result<Self, UnknownKind> {
        match code {
            0 => Ok(Kind::Itself),
            1 => Ok(Kind::Label),
            2 => Ok(Kind::Text),
            3 => Ok(Kind::Child),
            4 => Ok(Kind::At),
            5 => Ok(Kind::Below),
            6 => Ok(Kind::Or),
            7 => Ok(Kind::And),
            8 => Ok(Kind::Not),
            _ => Err(UnknownKind(code)),
        }
    }
}
