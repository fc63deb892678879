// What was found for the rows that a table uses more than once, so that each is evaluated once from one set: the
// table's size counts then, and not its tree's.

/// The marks that a row was evaluated from, and those that came of them.
#[derive(Drop)]
pub struct Found {
    pub from: Vec<bool>,
    pub to: Vec<bool>,
}

/// A row that is used once, a shared one that nothing was found for, and a shared one with what was found last.
#[derive(Drop)]
pub enum Slot {
    Single,
    Shared,
    Last(Found),
}

/// A slot for each row, up to a selector's own.
#[derive(Drop)]
pub struct Memory {
    pub slots: Vec<Slot>,
}

/// A memory for paths from sets, one for paths back from sets, and one for qualifiers, which are evaluated from no set.
#[derive(Drop)]
pub struct Memories {
    pub forward: Memory,
    pub back: Memory,
    pub holding: Memory,
}
