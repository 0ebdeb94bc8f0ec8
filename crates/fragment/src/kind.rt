ghost use Rattle.fragment.specs.inner.Kind.{Decodes};

// What a row is: its second number.
#[derive(Clone, Copy, Debug, PartialEq, Eq)]
pub enum RowKind {
    Real = 0,
    StandIn = 1,
}

// A number that names no kind of row. Question has the like for a byte: the two share no crate with code, and one for two lines would be no plainer.
#[derive(Clone, Copy, Debug, PartialEq, Eq)]
pub struct UnknownRowKind(pub u32);

impl TryFrom<u32> for RowKind {
    type Error = UnknownRowKind;

    ghost try_from_gives = { Decodes };

    fn try_from(code: u32) -> Result<Self, UnknownRowKind> {
        match code {
            0 => Ok(RowKind::Real),
            1 => Ok(RowKind::StandIn),
            _ => Err(UnknownRowKind(code)),
        }
    }
}
