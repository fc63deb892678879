// The columns of a checked document, lent.
ghost use Rattle.documents.specs.Columns.{Sound};

/// The kind, the parent and the name of each node, in document order, and where its subtree ends.
#[derive(Clone, Copy)]
pub struct Columns<'a> {
    pub kinds: &'a [u8],
    pub parents: &'a [u32],
    pub names: &'a [u16],
    pub ends: &'a [u32],
    pub ghost sound: { Sound kinds.now parents.now names.now ends.now },
}
