// A checked document.
ghost use Rattle.documents.specs.Columns.{Sound};

/// A well-formed document of any size: of each node its kind, its parent and its name, in document order, and the row
/// where its subtree ends. A node takes 11 bytes. `Document::check` makes it, once for all selections on it.
#[derive(Drop)]
pub struct Document {
    pub kinds: Vec<u8>,
    pub parents: Vec<u32>,
    pub names: Vec<u16>,
    pub ends: Vec<u32>,
    pub ghost sound: { Sound kinds.items parents.items names.items ends.items },
}
