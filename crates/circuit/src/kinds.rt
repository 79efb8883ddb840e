// The kinds of components.
ghost use Rattle.circuit.specs.Kinds.{Names};

// What a component is. Its number is its byte in a netlist.
#[derive(Clone, Copy, Debug, PartialEq, Eq)]
pub enum Kind {
    Input = 0,
    Inner = 1,
    Output = 2,
}

// A byte that names no kind.
#[derive(Clone, Copy, Debug, PartialEq, Eq)]
pub struct UnknownKind(pub u8);

impl TryFrom<u8> for Kind {
    type Error = UnknownKind;

    ghost try_from_gives = { Names };

    fn try_from(byte: u8) -> Result<Self, UnknownKind> {
        match byte {
            0 => Ok(Kind::Input),
            1 => Ok(Kind::Inner),
            2 => Ok(Kind::Output),
            _ => Err(UnknownKind(byte)),
        }
    }
}
