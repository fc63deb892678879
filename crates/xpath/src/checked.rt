// A document that was checked.
ghost use Rattle.xpath.specs.Document.{document_of};
ghost use Rattle.xpath.specs.represent.Ends.{Prepared};

/// Its lent numbers, and where the subtree of each of its rows ends.
#[derive(Clone, Copy)]
pub struct Checked<'a> {
    pub numbers: &'a [u16],
    pub ends: &'a [u16],
    ghost prepared: { Prepared (document_of numbers.now) ends.now },
}
