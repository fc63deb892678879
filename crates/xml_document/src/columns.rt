// Columns that were not checked.
ghost use Rattle.documents.specs.Columns.{Even};

/// The kinds, the parents and the names of the rows.
#[derive(Clone, Copy, Debug)]
pub struct Columns<'a> {
    pub kinds: &'a [u8],
    pub parents: &'a [u32],
    pub names: &'a [u32],
    pub ghost even: { Even kinds.now parents.now names.now },
}
