// The kinds of nodes, and their numbers, as a document's rows have them.
ghost use Rattle.std.specs.Prelude.{◌≡◌};
ghost use Rattle.common.specs.represent.Numbers.{kind_number, ReadsKind};

#[derive(Clone, Copy, Debug, PartialEq, Eq)]
pub enum NodeKind {
    Root,
    Element,
    Text,
    Comment,
    Instruction,
    Attribute,
}

impl From<NodeKind> for u16 {
    ghost from_gives = { λ kind number. number ≡ kind_number kind };

    fn from(kind: NodeKind) -> u16 {
        kind as u16
    }
}

// The error is the number, which no kind has.
impl TryFrom<u16> for NodeKind {
    type Error = u16;

    ghost try_from_gives = { ReadsKind };

    fn try_from(number: u16) -> Result<NodeKind, u16> {
        match number {
            ROOT => Ok(NodeKind::Root),
            ELEMENT => Ok(NodeKind::Element),
            TEXT => Ok(NodeKind::Text),
            COMMENT => Ok(NodeKind::Comment),
            INSTRUCTION => Ok(NodeKind::Instruction),
            ATTRIBUTE => Ok(NodeKind::Attribute),
            _ => Err(number),
        }
    }
}

// The enum's numbers by name.
pub const ROOT: u16 = NodeKind::Root as u16;

pub const ELEMENT: u16 = NodeKind::Element as u16;

pub const TEXT: u16 = NodeKind::Text as u16;

pub const COMMENT: u16 = NodeKind::Comment as u16;

pub const INSTRUCTION: u16 = NodeKind::Instruction as u16;

pub const ATTRIBUTE: u16 = NodeKind::Attribute as u16;
