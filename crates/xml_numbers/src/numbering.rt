// How names get numbers.

/// Which names are sought in the list.
#[derive(Clone, Copy, Debug, PartialEq, Eq)]
pub enum Lookup {
    /// Those in no namespace: what a name in a selector, which has no prefix, finds
    NoNamespace,
    /// All, by their local parts
    LocalPart,
}

/// What becomes of a name that the list has no number for.
#[derive(Clone, Copy, Debug, PartialEq, Eq)]
pub enum Unlisted {
    /// It is an error
    Refused,
    /// All such names get the number after the list's last one, so that no name of the list finds them
    Spare,
}

/// A list, a name in each line, and how names get numbers by it.
#[derive(Clone, Copy)]
pub struct Numbering<'a> {
    pub list: &'a [u8],
    pub lookup: Lookup,
    pub unlisted: Unlisted,
}
