// Each limit of a session, met and then passed by one. Prints the limits that a session names, on a line, and then
// what the calls answer, `NUMBER VALUE` a line, in pairs: the last call within the limit, and the one beyond it.
#![tactic(auto)]

ghost use Rattle.common.specs.Limits.{max_number};
ghost use Rattle.std.specs.Prelude.{◌≡◌, ◌≤◌, ◌<◌, length};
ghost use Rattle.script.specs.Words.{max_numbers};

use calls::answer_line::AnswerLine;
use calls::{Answer, Step};
use common::axis::Axis;
use common::node_kind::NodeKind;
use common::node_test::NodeTest;
use common::row_kind::RowKind;
use session::Session;
use terms::Row;

const ROWS: u16 = Session::ROWS as u16;

const STEPS: u16 = Session::STEPS as u16;

const POINTS: u16 = Session::POINTS as u16;

// p <= p
const REFLEXIVE: u16 = 2;

const ROOT: Row = Row {
    kind: RowKind::Root as u16,
    a: 0,
    b: 0,
    c: 0,
};

// What can't be printed is left out, here and below: the calls are made all the same.
fn print<A: Answer + Copy>(rt: &impl Print, answer: A) {
    let _ = println!(rt; "{}", AnswerLine::from(answer));
}

// Rows, steps, nesting, nodes, points.
fn print_limits(rt: &impl Print) {
    let _ = println!(rt;
        "{} {} {} {} {}",
        Session::ROWS,
        Session::STEPS,
        Session::NESTING,
        Session::NODES,
        Session::POINTS
    );
}

// A call for each number from 1 up to the limit, and for one more.
fn pass_limit<A: Answer + Copy, F: Fn(&mut Session, u16) -> A>(
    rt: &impl Print,
    s: &mut Session,
    limit: u16,
    call: F,
)
    requires { (limit < max_number) × F.IsAlwaysCallable call }
{
    for i in 1..limit {
        let _ = call(s, i);
    }
    print(rt, call(s, limit));
    print(rt, call(s, limit + 1));
}

// The deepest nesting: true, and each row `not` of the one before, so that row i + 1 nests i + 2 deep.
fn nesting(rt: &impl Print) {
    let mut s = Session::new();
    let _ = s.term(Row::from([RowKind::True.into(), 0, 0, 0]));
    let _ = s.term(Row::from([RowKind::Not.into(), 0, 0, 0]));
    pass_limit(
        rt,
        &mut s,
        Session::NESTING - 2,
        |s, i| s.term(Row::from([RowKind::Not.into(), i, 0, 0])),
    )
}

// All rows: steps child::NAME.
fn rows(rt: &impl Print) {
    pass_limit(
        rt,
        &mut Session::new(),
        ROWS,
        |s, i| s.term(Row::from([
            RowKind::Step.into(),
            Axis::Child.into(),
            NodeTest::Name.into(),
            i,
        ])),
    )
}

// All steps, of the same rule on the same row.
fn steps(rt: &impl Print) {
    let mut s = Session::new();
    let _ = s.term(ROOT);
    pass_limit(
        rt,
        &mut s,
        STEPS,
        |s, _| s.step(Step::from([REFLEXIVE, 0, 0, 0, 0])),
    )
}

// The numbers of the largest document, and of one with a node more.
const LARGEST: usize = xpath::NODE_WIDTH * Session::NODES;

const TOO_LARGE: usize = script::words::MAX_NUMBERS;

// The document of N numbers: the root, and texts under it.
fn texts<const N: usize>() -> [u16; N] {
    let mut d = [0u16; N];
    for node in d.chunks_exact_mut(xpath::NODE_WIDTH).skip(1) {
        node[0] = NodeKind::Text.into();
    }
    d
}

// Selects from the document's root.
fn print_select(rt: &impl Print, s: &Session, row: u16, document: &[u16], limit: u32) {
    let mut marks = [7u8; Session::NODES];
    print(rt, s.select(row, document, 0, limit, &mut marks));
}

// All nodes and one more.
fn nodes(rt: &impl Print) {
    let mut s = Session::new();
    let _ = s.term(ROOT);
    print_select(rt, &s, 0, &texts::<LARGEST>(), 1);
    print_select(rt, &s, 0, &texts::<TOO_LARGE>(), 1);
}

// The visits of descendant::node()/descendant::node() from the root of a document of texts, with as many nodes as there
// may be: one for the path, one for its left step, and one for its right step from each text.
const VISITS: u32 = Session::NODES as u32 + 1;

// The limit met, and one too few.
fn visits(rt: &impl Print) {
    let mut s = Session::new();
    let _ = s.term(Row::from([
        RowKind::Step.into(),
        Axis::Descendant.into(),
        NodeTest::Node.into(),
        0,
    ]));
    let _ = s.term(Row::from([RowKind::Composition.into(), 0, 0, 0]));
    let document = texts::<LARGEST>();
    print_select(rt, &s, 1, &document, VISITS);
    print_select(rt, &s, 1, &document, VISITS - 1);
}

// All points.
fn points(rt: &impl Print) {
    pass_limit(rt, &mut Session::new(), POINTS, |s, i| s.point(i))
}

fn main(rt: HostRuntime) {
    print_limits(&rt);
    nesting(&rt);
    rows(&rt);
    steps(&rt);
    nodes(&rt);
    visits(&rt);
    points(&rt);
}
