// A lent list of names with its index, and a word that is sought in it.
ghost use Rattle.std.specs.Prelude.{◌≡◌, true};
ghost use Rattle.selector_grammar.specs.Bytes.{is_word};
ghost use Rattle.selector_words.specs.private.Index.{Indexed};

use crate::index::IndexedLine;

/// The list's bytes, a name in each line; the index of its first lines; and where the other lines begin.
#[derive(Clone, Copy)]
pub struct Names<'a> {
    pub list: &'a [u8],
    pub index: &'a [IndexedLine],
    pub others: usize,
    ghost indexed: { Indexed list.now index.now others },
}

/// A name.
#[derive(Clone, Copy)]
pub struct Word<'a> {
    pub bytes: &'a [u8],
    ghost is_word: { is_word bytes.now ≡ true },
}
