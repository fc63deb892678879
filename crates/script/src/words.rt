// The words of a script's lines.
ghost use Rattle.std.specs.Prelude.{◌≡◌};
ghost use Rattle.script.specs.private.Entries.{text_of};

/// The numbers of the longest document, three a node: one node more than a select takes.
pub const MAX_NUMBERS: usize = xpath::NODE_WIDTH * (xpath::MAX_NODES + 1);

/// The most numbers of a line of old rows, of new rows, or of steps: more than a replace takes.
pub const MAX_LISTED: usize = 100;

#[derive(Clone, Copy)]
pub enum Word {
    Term,
    Step,
    Select,
    Document,
    Fresh,
    Old,
    New,
    Replace,
    Write,
    Point,
    Return,
    Other,
    Order,
    BundleOrder,
    Names,
    Text,
    Record,
    Current,
    Release,
    Records,
    Released,
    CrewCurrent,
    WayBack,
}

/// The words, in the order in which they are tried.
pub const WORDS: [Word; 23] = [
    Word::Term,
    Word::Step,
    Word::Select,
    Word::Document,
    Word::Fresh,
    Word::Old,
    Word::New,
    Word::Replace,
    Word::Write,
    Word::Point,
    Word::Return,
    Word::Other,
    Word::Order,
    Word::BundleOrder,
    Word::Names,
    Word::Text,
    Word::Record,
    Word::Current,
    Word::Release,
    Word::Records,
    Word::Released,
    Word::CrewCurrent,
    Word::WayBack,
];

impl Word {
    /// The bytes of the word.
    #[tactic(auto, unfolding(crate::specs::private::Entries::text_of, lines::specs::Ascii::ascii))]
    pub fn text(self) -> &'static [u8]
        ensures { result.now ≡ text_of self }
    {
        match self {
            Word::Term => b"term",
            Word::Step => b"step",
            Word::Select => b"select",
            Word::Document => b"document",
            Word::Fresh => b"fresh",
            Word::Old => b"old",
            Word::New => b"new",
            Word::Replace => b"replace",
            Word::Write => b"write",
            Word::Point => b"point",
            Word::Return => b"return",
            Word::Other => b"other",
            Word::Order => b"order",
            Word::BundleOrder => b"bundle-order",
            Word::Names => b"names",
            Word::Text => b"text",
            Word::Record => b"record",
            Word::Current => b"current",
            Word::Release => b"release",
            Word::Records => b"records",
            Word::Released => b"released",
            Word::CrewCurrent => b"crew-current",
            Word::WayBack => b"way-back",
        }
    }
}
