// The names that a selector can have.
ghost use Rattle.std.specs.Prelude.{◌≡◌};
ghost use Rattle.common.specs.Lists.{all_of};
ghost use Rattle.selector_grammar.specs.Bytes.{is_name, is_word};

use selector_words::bytes::{is_name, is_start};

// Whether all bytes are those of names.
fn are_name_bytes(bytes: &[u8]) -> bool
    ensures { result ≡ all_of is_name bytes.now }
{
    for i in 0..bytes.len() {
        let is_in_name = is_name(bytes[i]);
        if !is_in_name {
            return false;
        }
    }
    true
}

/// Whether a selector can have the name.
#[tactic(auto, using(crate::proofs::Laws::word_from), unfolding(selector_grammar::specs::Bytes::is_word))]
pub fn is_word(name: &[u8]) -> bool
    ensures { result ≡ is_word name.now }
{
    match name.split_first() {
        Some((first, rest)) => is_start(*first) && are_name_bytes(rest),
        None => false,
    }
}
