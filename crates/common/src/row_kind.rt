// The kinds of rows of terms, and their numbers: six of paths, then six of qualifiers.
ghost use Rattle.std.specs.Prelude.{◌≡◌, leb};
ghost use Rattle.common.specs.RowKinds.{filter_row};
ghost use Rattle.common.specs.represent.Numbers.{row_number, ReadsRow};

#[derive(Clone, Copy, Debug, PartialEq, Eq)]
pub enum RowKind {
    Void,
    Root,
    Step,
    Union,
    Composition,
    Filter,
    True,
    False,
    Not,
    And,
    Or,
    Inclusion,
}

impl RowKind {
    /// Whether it is a kind of paths; the others are kinds of qualifiers.
    pub fn is_path(self) -> bool
        ensures { result ≡ leb (row_number self) filter_row }
    {
        matches!(
            self,
            RowKind::Void
                | RowKind::Root
                | RowKind::Step
                | RowKind::Union
                | RowKind::Composition
                | RowKind::Filter
        )
    }
}

impl From<RowKind> for u16 {
    ghost from_gives = { λ kind number. number ≡ row_number kind };

    fn from(kind: RowKind) -> u16 {
        kind as u16
    }
}

// The error is the number, which no kind has.
impl TryFrom<u16> for RowKind {
    type Error = u16;

    ghost try_from_gives = { ReadsRow };

    fn try_from(number: u16) -> Result<RowKind, u16> {
        match number {
            VOID => Ok(RowKind::Void),
            ROOT => Ok(RowKind::Root),
            STEP => Ok(RowKind::Step),
            UNION => Ok(RowKind::Union),
            COMPOSITION => Ok(RowKind::Composition),
            FILTER => Ok(RowKind::Filter),
            TRUE => Ok(RowKind::True),
            FALSE => Ok(RowKind::False),
            NOT => Ok(RowKind::Not),
            AND => Ok(RowKind::And),
            OR => Ok(RowKind::Or),
            INCLUSION => Ok(RowKind::Inclusion),
            _ => Err(number),
        }
    }
}

// The enum's numbers by name.
pub const VOID: u16 = RowKind::Void as u16;

pub const ROOT: u16 = RowKind::Root as u16;

pub const STEP: u16 = RowKind::Step as u16;

pub const UNION: u16 = RowKind::Union as u16;

pub const COMPOSITION: u16 = RowKind::Composition as u16;

pub const FILTER: u16 = RowKind::Filter as u16;

pub const TRUE: u16 = RowKind::True as u16;

pub const FALSE: u16 = RowKind::False as u16;

pub const NOT: u16 = RowKind::Not as u16;

pub const AND: u16 = RowKind::And as u16;

pub const OR: u16 = RowKind::Or as u16;

pub const INCLUSION: u16 = RowKind::Inclusion as u16;
