// Between the rows of a table and the terms of a search.
use crate::unknown::Unknown;
use common::axis::Axis;
use common::node_test::NodeTest;
use common::row_kind::RowKind;
use search_terms::{ProofStep, Store, Term, TermId, VOID};
use std::alloc::AllocError;
use terms::{KeptRows, Row};

fn id_at(ids: &Vec<TermId>, n: u16) -> TermId {
    ids.get(usize::from(n)).copied().unwrap_or(VOID)
}

// The term of a step's row; the void path of numbers that no axis or no test has.
fn step_of(row: Row) -> Term {
    match (Axis::try_from(row.a), NodeTest::try_from(row.b)) {
        (Ok(axis), Ok(test)) => Term::Step(axis, test, row.c),
        _ => Term::Void,
    }
}

// The term of a row, `ids` being those of the rows before it.
fn term_of(ids: &Vec<TermId>, row: Row) -> Term {
    let a = id_at(ids, row.a);
    let b = id_at(ids, row.b);
    match row.read_kind() {
        Some(RowKind::Root) => Term::Root,
        Some(RowKind::Step) => step_of(row),
        Some(RowKind::Union) => Term::Union(a, b),
        Some(RowKind::Composition) => Term::Composition(a, b),
        Some(RowKind::Filter) => Term::Filter(a, b),
        Some(RowKind::True) => Term::True,
        Some(RowKind::False) => Term::False,
        Some(RowKind::Not) => Term::Not(a),
        Some(RowKind::And) => Term::And(a, b),
        Some(RowKind::Or) => Term::Or(a, b),
        Some(RowKind::Inclusion) => Term::Inclusion(a, b),
        Some(RowKind::Void) | None => Term::Void,
    }
}

// The terms of the first rows of a table.
fn terms_of(store: &Store, rows: &[u16], count: usize) -> Result<Vec<TermId>, AllocError> {
    let mut ids = Vec::new(store.alloc());
    for i in 0..count {
        if let Some(row) = terms::get_row(rows, i) {
            ids.push(store.make(term_of(&ids, row)))?;
        }
    }
    Ok(ids)
}

// The terms of two selectors, put into the store.
pub(crate) fn selectors(
    store: &Store,
    names: &[u8],
    old: &[u8],
    new: &[u8],
) -> Result<(TermId, TermId), Unknown> {
    let mut rows = KeptRows::new();
    let first = selector_reader::read_text(old, names, &mut rows, 0).map_err(Unknown::Old)?;
    let second = selector_reader::read_text(new, names, &mut rows, first.count).map_err(
        Unknown::New,
    )?;
    let ids = terms_of(store, &rows.numbers, second.count).map_err(|_| Unknown::NoMemory)?;
    Ok((id_at(&ids, first.row), id_at(&ids, second.row)))
}

fn number_at(numbers: &Vec<u16>, id: TermId) -> u16 {
    numbers.get(id as usize).copied().unwrap_or(0)
}

fn new_row(kind: RowKind, a: u16, b: u16, c: u16) -> Row {
    Row {
        kind: kind.into(),
        a,
        b,
        c,
    }
}

// The row of a term whose operands have these numbers.
pub(crate) fn row_of(t: Term, numbers: &Vec<u16>) -> Row {
    let n = |id: TermId| number_at(numbers, id);
    match t {
        Term::Void => new_row(RowKind::Void, 0, 0, 0),
        Term::Root => new_row(RowKind::Root, 0, 0, 0),
        Term::Step(axis, test, name) => new_row(RowKind::Step, axis.into(), test.into(), name),
        Term::Union(p, q) => new_row(RowKind::Union, n(p), n(q), 0),
        Term::Composition(p, q) => new_row(RowKind::Composition, n(p), n(q), 0),
        Term::Filter(p, f) => new_row(RowKind::Filter, n(p), n(f), 0),
        Term::True => new_row(RowKind::True, 0, 0, 0),
        Term::False => new_row(RowKind::False, 0, 0, 0),
        Term::Not(f) => new_row(RowKind::Not, n(f), 0, 0),
        Term::And(f, g) => new_row(RowKind::And, n(f), n(g), 0),
        Term::Or(f, g) => new_row(RowKind::Or, n(f), n(g), 0),
        Term::Inclusion(p, q) => new_row(RowKind::Inclusion, n(p), n(q), 0),
    }
}

fn mark(needed: &mut Vec<bool>, id: TermId) {
    let i = id as usize;
    if i < needed.len() {
        needed[i] = true;
    }
}

fn mark_operands(needed: &mut Vec<bool>, t: Term) {
    match t {
        Term::Void | Term::Root | Term::Step(_, _, _) | Term::True | Term::False => {}
        Term::Not(f) => mark(needed, f),
        Term::Union(p, q)
        | Term::Composition(p, q)
        | Term::Filter(p, q)
        | Term::And(p, q)
        | Term::Or(p, q)
        | Term::Inclusion(p, q) => {
            mark(needed, p);
            mark(needed, q);
        }
    }
}

// Which terms the steps need. Operands come before what they are operands of.
pub(crate) fn needed_terms(store: &Store, steps: &Vec<ProofStep>) -> Result<Vec<bool>, AllocError> {
    let mut most = 0u32;
    for s in steps {
        most = most.max(s.left).max(s.right);
    }
    let count = most as usize + 1;
    let mut needed = vec![in store.alloc(); false; count]?;
    for s in steps {
        mark(&mut needed, s.left);
        mark(&mut needed, s.right);
    }
    for id in (0..most).rev() {
        let at = id.saturating_add(1);
        if needed.get(at as usize).copied().unwrap_or(false) {
            mark_operands(&mut needed, store.term(at));
        }
    }
    Ok(needed)
}
