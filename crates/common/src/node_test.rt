// The node tests: a name, `*`, node(), text(), comment(), processing-instruction(),
// processing-instruction('target'). Their numbers, as field b of a step's row has them.
ghost use Rattle.std.specs.Prelude.{◌≡◌};
ghost use Rattle.common.specs.represent.Numbers.{test_number, ReadsTest};

#[derive(Clone, Copy, Debug, PartialEq, Eq)]
pub enum NodeTest {
    Name,
    Star,
    Node,
    Text,
    Comment,
    Instruction,
    Target,
}

impl From<NodeTest> for u16 {
    ghost from_gives = { λ test number. number ≡ test_number test };

    fn from(test: NodeTest) -> u16 {
        test as u16
    }
}

// The error is the number, which no test has.
impl TryFrom<u16> for NodeTest {
    type Error = u16;

    ghost try_from_gives = { ReadsTest };

    fn try_from(number: u16) -> Result<NodeTest, u16> {
        match number {
            NAME => Ok(NodeTest::Name),
            STAR => Ok(NodeTest::Star),
            NODE => Ok(NodeTest::Node),
            TEXT => Ok(NodeTest::Text),
            COMMENT => Ok(NodeTest::Comment),
            INSTRUCTION => Ok(NodeTest::Instruction),
            TARGET => Ok(NodeTest::Target),
            _ => Err(number),
        }
    }
}

// The enum's numbers by name.
pub const NAME: u16 = NodeTest::Name as u16;

pub const STAR: u16 = NodeTest::Star as u16;

pub const NODE: u16 = NodeTest::Node as u16;

pub const TEXT: u16 = NodeTest::Text as u16;

pub const COMMENT: u16 = NodeTest::Comment as u16;

pub const INSTRUCTION: u16 = NodeTest::Instruction as u16;

pub const TARGET: u16 = NodeTest::Target as u16;
