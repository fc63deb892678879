// The index of a lent list of names: of its first lines, where each begins and the signature of its bytes.
ghost use Rattle.std.specs.Prelude.{◌≡◌, ◌<◌, ◌≤◌, length, take, drop};
ghost use Rattle.selector_words.specs.private.Index.{max_length, signed_by, signature_of, ended, LineMet, Indexed};

/// How many lines an index has at most.
pub const MAX_LINES: usize = 10240;

// The largest prime below 2^32.
const MODULUS: usize = 4294967291;

#[derive(Clone, Copy)]
pub struct IndexedLine {
    pub start: u32,
    pub signature: u32,
}

// The signature of some bytes and one more.
#[tactic(auto, unfolding(crate::specs::private::Index::signed_by))]
fn signed_by(signature: u32, byte: u8) -> u32
    ensures { result ≡ signed_by signature byte }
{
    ((signature as usize * 257 + usize::from(byte)) % MODULUS) as u32
}

pub fn signature(word: &[u8]) -> u32
    ensures { result ≡ signature_of 0 word.now }
{
    word.iter().fold(0, |signed, byte| signed_by(signed, *byte))
}

// Whether a line ends at a place: by a newline, or with the list.
pub(crate) fn ends_at(list: &[u8], at: usize) -> bool
    ensures { result ≡ ended (drop at list.now) }
{
    list.get(at).is_none_or(|byte| *byte == lines::NEWLINE)
}

// Passes the line that begins at `at`: where the next line begins, or the end of the list; and the line's signature.
#[tactic(auto, using(crate::proofs::Indexed::goes_on))]
fn pass_line(list: &[u8], at: usize) -> (usize, u32)
    requires { at < length list.now }
    ensures { LineMet list.now at result.0 result.1 }
{
    let mut signed = 0;
    let mut i = at;
    // By index, 10,000 names of 5 bytes take 96 us; with `for` 108, with `enumerate` 103, with `take_while` and `fold`
    // 100, with `split_inclusive`, which reads each line twice, 126.
    while !ends_at(list, i) {
        signed = signed_by(signed, list[i]);
        i += 1;
    }
    (list.len().min(i + 1), signed)
}

/// Fixed memory without a heap: no call can fail for want of it.
pub fn blank_index() -> [IndexedLine; MAX_LINES] {
    [IndexedLine {
        start: 0,
        signature: 0,
    }; MAX_LINES]
}

/// Makes the index of the first lines of the list, as many as there is room for: how many these are, and where the
/// other lines begin. An index has places of 32 bits, so the list's length is asked.
pub fn index_lines(list: &[u8], index: &mut [IndexedLine]) -> (usize, usize)
    requires { length list.now ≤ max_length }
    ensures { (result.0 ≤ length index.new) × Indexed list.now (take result.0 index.new) result.1 }
{
    let mut at = 0;
    for (count, line) in index.iter_mut().enumerate() {
        if list.len() <= at {
            return (count, at);
        }
        let (next, signature) = pass_line(list, at);
        *line = IndexedLine {
            start: at as u32,
            signature,
        };
        at = next;
    }
    (index.len(), at)
}
