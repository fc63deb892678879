// The archive for a host in C: each call is that of crate host_calls, with its name, its clauses and its parameters.
// They stand twice, since no crate can depend on a static library, and theorems speaks of the calls.
#![tactic(auto)]

ghost use Rattle.std.specs.Prelude.{◌≡◌};
ghost use Rattle.calls.specs.Book.{answer};
ghost use Rattle.session.specs.Reading.{reading};
ghost use Rattle.host_calls.specs.ClaimCall.{claimed, claim_answer};
ghost use Rattle.host_calls.specs.TextSelect.{TextSelectMade};
ghost use Rattle.script_bundle.specs.Filing.{FileMet};

/// The number of the answer to a bundle's bytes.
#[unsafe(no_mangle)]
pub extern "C" fn spinebriar_read(bytes: &[u8]) -> u16
    ensures { result ≡ (reading bytes.now).answer.number }
{
    host_calls::spinebriar_read(bytes)
}

/// The same, with the answer's value: the number of steps held, or the refused line.
#[unsafe(no_mangle)]
pub extern "C" fn spinebriar_read_line(bytes: &[u8], value: &mut usize) -> u16
    ensures { answer result value.new ≡ (reading bytes.now).answer }
{
    host_calls::spinebriar_read_line(bytes, value)
}

/// Whether an accepted bundle has a step that says that the old selector is contained in the new one: the number of the
/// answer, its value, and what it is about. Its parameters are those of the host's call.
#[unsafe(no_mangle)]
pub extern "C" fn spinebriar_claim(
    bundle: &[u8],
    names: &[u8],
    old: &[u8],
    new: &[u8],
    value: &mut usize,
    part: &mut usize,
) -> u16
    ensures { claimed part.new (answer result value.new)
        ≡ claim_answer bundle.now names.now old.now new.now }
{
    host_calls::spinebriar_claim(bundle, names, old, new, value, part)
}

/// The number of the answer and its value; the nodes that a selector as text selects on a lent document are marked. As
/// many parameters as the C call has.
#[unsafe(no_mangle)]
pub extern "C" fn spinebriar_select(
    names: &[u8],
    selector: &[u8],
    document: &[u16],
    context: u16,
    limit: u32,
    marks: &mut [u8],
    value: &mut usize,
) -> u16
    ensures { TextSelectMade names.now selector.now document.now context limit
        marks.old (answer result value.new) marks.new }
{
    host_calls::spinebriar_select(names, selector, document, context, limit, marks, value)
}

/// The number of the answer and its value: the bundle's length, which is written to the buffer's start, or the refused
/// line, or the length needed.
#[unsafe(no_mangle)]
pub extern "C" fn spinebriar_file(calls: &[u8], out: &mut [u8], value: &mut usize) -> u16
    ensures { FileMet calls.now out.old (answer result value.new)
        out.new }
{
    host_calls::spinebriar_file(calls, out, value)
}
