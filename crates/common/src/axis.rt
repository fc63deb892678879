// The axes, and their numbers, as field a of a step's row has them.
ghost use Rattle.std.specs.Prelude.{◌≡◌};
ghost use Rattle.common.specs.represent.Numbers.{axis_number, ReadsAxis};

#[derive(Clone, Copy, Debug, PartialEq, Eq)]
pub enum Axis {
    Itself,
    Child,
    Parent,
    Descendant,
    Ancestor,
    DescendantOrSelf,
    AncestorOrSelf,
    FollowingSibling,
    PrecedingSibling,
    Following,
    Preceding,
    Attribute,
}

impl From<Axis> for u16 {
    ghost from_gives = { λ axis number. number ≡ axis_number axis };

    fn from(axis: Axis) -> u16 {
        axis as u16
    }
}

// The error is the number, which no axis has.
impl TryFrom<u16> for Axis {
    type Error = u16;

    ghost try_from_gives = { ReadsAxis };

    fn try_from(number: u16) -> Result<Axis, u16> {
        match number {
            SELF => Ok(Axis::Itself),
            CHILD => Ok(Axis::Child),
            PARENT => Ok(Axis::Parent),
            DESCENDANT => Ok(Axis::Descendant),
            ANCESTOR => Ok(Axis::Ancestor),
            DESCENDANT_OR_SELF => Ok(Axis::DescendantOrSelf),
            ANCESTOR_OR_SELF => Ok(Axis::AncestorOrSelf),
            FOLLOWING_SIBLING => Ok(Axis::FollowingSibling),
            PRECEDING_SIBLING => Ok(Axis::PrecedingSibling),
            FOLLOWING => Ok(Axis::Following),
            PRECEDING => Ok(Axis::Preceding),
            ATTRIBUTE => Ok(Axis::Attribute),
            _ => Err(number),
        }
    }
}

// The enum's numbers by name.
pub const SELF: u16 = Axis::Itself as u16;

pub const CHILD: u16 = Axis::Child as u16;

pub const PARENT: u16 = Axis::Parent as u16;

pub const DESCENDANT: u16 = Axis::Descendant as u16;

pub const ANCESTOR: u16 = Axis::Ancestor as u16;

pub const DESCENDANT_OR_SELF: u16 = Axis::DescendantOrSelf as u16;

pub const ANCESTOR_OR_SELF: u16 = Axis::AncestorOrSelf as u16;

pub const FOLLOWING_SIBLING: u16 = Axis::FollowingSibling as u16;

pub const PRECEDING_SIBLING: u16 = Axis::PrecedingSibling as u16;

pub const FOLLOWING: u16 = Axis::Following as u16;

pub const PRECEDING: u16 = Axis::Preceding as u16;

pub const ATTRIBUTE: u16 = Axis::Attribute as u16;
