// Select, write, orders and the reading of a selector as text, for a benchmark in C, on what the caller lends, each
// thing a parameter, as C has them.
#![tactic(auto)]

ghost use Rattle.std.specs.Prelude.{◌≡◌, [], length};
ghost use Rattle.terms.specs.Row.{table_of};
ghost use Rattle.calls.specs.SelectCall.{select_answer, select_buffer};
ghost use Rattle.calls.specs.Book.{book};
ghost use Rattle.calls.specs.represent.Tables.{steps_of};
ghost use Rattle.term_order.specs.OrderCall.{order_answer, bundle_order_answer};
ghost use Rattle.calls.specs.TextCall.{text_reply};
ghost use Rattle.bundles.specs.private.TablesPut.{first_tables_text, TextWritten};

use calls::{Answer, Held};

/// The number of the answer; the marks are written as `Session::select` writes them.
#[unsafe(no_mangle)]
pub extern "C" fn bench_select(
    rows: &[u16],
    row: u16,
    document: &[u16],
    context: u16,
    limit: u32,
    marks: &mut [u8],
) -> u16
    ensures value { result ≡ (select_answer (table_of rows.now) row document.now context limit
        (length marks.old)).number }
    ensures marks_after { marks.new ≡ select_buffer (table_of rows.now) row document.now
        context limit marks.old }
{
    let answer = call_answers::select::select_on(rows, row, document, context, limit, marks);
    answer.number()
}

/// The length of the bundle of the numbers of the first n rows and m steps, an incomplete last one's too; its bytes
/// are written from byte 0 on, where there is room for all of them.
#[unsafe(no_mangle)]
pub extern "C" fn bench_write<'a>(
    out: &mut [u8],
    rows: &'a [u16],
    n: usize,
    steps: &'a [u16],
    m: usize,
) -> usize
    ensures { TextWritten out.old 0 (first_tables_text n rows.now m steps.now) result
        out.new }
{
    bundles::write_tables(out, 0, Held::first(rows, n, steps, m))
}

/// The value of the answer for row i of the left rows and row j of the right ones, compared as `Session::order`
/// compares them.
#[unsafe(no_mangle)]
pub extern "C" fn bench_order<'a>(left: &'a [u16], i: u16, right: &'a [u16], j: u16) -> u32
    ensures { result ≡ (order_answer (table_of left.now) i (table_of right.now) j).value }
{
    let answer = term_order::order_on(left, i, right, j);
    answer.value() as u32
}

/// The value of the answer for two bundles, which are compared as `Session::bundle_order` compares them.
#[unsafe(no_mangle)]
pub extern "C" fn bench_bundle_order<'a>(
    left: &'a [u16],
    left_steps: &'a [u16],
    right: &'a [u16],
    right_steps: &'a [u16],
) -> u32
    ensures { result ≡ (bundle_order_answer
        (book (table_of left.now) (steps_of left_steps.now))
        (book (table_of right.now) (steps_of right_steps.now))).value }
{
    let left = Held {
        rows: left,
        steps: left_steps,
    };
    let right = Held {
        rows: right,
        steps: right_steps,
    };
    let answer = term_order::bundle_order_on(left, right);
    answer.value() as u32
}

/// The number of the answer to a selector as text, with a lent list of names, where no row is held.
#[unsafe(no_mangle)]
pub extern "C" fn bench_text(names: &[u8], selector: &[u8]) -> u16
    ensures { result ≡ (text_reply names.now selector.now []).number }
{
    let mut rows = terms::KeptRows::new();
    let read = selector_reader::read_text(selector, names, &mut rows, 0);
    read.map(|held| held.row).number()
}
