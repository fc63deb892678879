// Bytes of a text: whitespace, and names.
ghost use Rattle.std.specs.Prelude.{◌≡◌, ◌≤◌, ℕ, Bool, length};
ghost use Rattle.selector_grammar.specs.Bytes.{is_space, is_start, is_name};
ghost use Rattle.selector_words.specs.private.Scan.{byte_at, PassedOver, Passed};

/// The byte at a place, 0 past the end: no reader takes a 0, so none has to ask for the end.
pub fn byte_at(s: &[u8], at: usize) -> u8
    ensures { result ≡ byte_at s.now at }
{
    s.get(at).copied().unwrap_or(0)
}

#[tactic(auto, unfolding(selector_grammar::specs::Bytes::is_space))]
pub fn is_space(b: u8) -> bool
    ensures { result ≡ is_space b }
{
    matches!(b, b' ' | b'\t' | b'\n' | b'\r')
}

/// A letter or `_`: what a name begins with.
#[tactic(auto, unfolding(selector_grammar::specs::Bytes::is_start))]
pub fn is_start(b: u8) -> bool
    ensures { result ≡ is_start b }
{
    matches!(b, b'a'..=b'z' | b'A'..=b'Z' | b'_')
}

/// A byte of a name.
#[tactic(auto, unfolding(selector_grammar::specs::Bytes::is_name))]
pub fn is_name(b: u8) -> bool
    ensures { result ≡ is_name b }
{
    is_start(b) || matches!(b, b'0'..=b'9' | b'-' | b'.')
}

// The first place from `at` whose byte fails the test, or the text's end.
pub(crate) fn pass<F: Fn(u8) -> bool>(s: &[u8], at: usize, test: F) -> usize
    requires at_in_bounds { at ≤ length s.now }
    requires can { F.IsAlwaysCallable test }
    ensures { (p : ℕ → Bool) → ((b : ℕ) (r : Bool) → F.post test b r → r ≡ p b) → PassedOver p s.now at result }
{
    let rest = lines::rest(s, at);
    at + rest.iter().position(|b| !test(*b)).unwrap_or(rest.len())
}

/// The first place from `at` that has no whitespace.
#[tactic(auto, unfolding(selector_grammar::specs::Bytes::is_space), using(crate::proofs::Scanned::passed))]
pub fn skip(s: &[u8], at: usize) -> usize
    requires { at ≤ length s.now }
    ensures { Passed is_space s.now at result }
{
    pass(s, at, is_space)
}

/// The first place from `at` that has no byte of a name.
pub fn name_end(s: &[u8], at: usize) -> usize
    requires { at ≤ length s.now }
    ensures { Passed is_name s.now at result }
{
    pass(s, at, is_name)
}
