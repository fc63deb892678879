// Rows of a document that are not checked.
ghost use Rattle.documents.specs.Columns.{Even};

/// The rows of a document as they come, in document order: of each its kind, its parent and its name, by their numbers.
/// `Document::check` takes them.
#[derive(Drop)]
pub struct Rows {
    pub kinds: Vec<u8>,
    pub parents: Vec<u32>,
    pub names: Vec<u16>,
    pub ghost even: { Even kinds.items parents.items names.items },
}
