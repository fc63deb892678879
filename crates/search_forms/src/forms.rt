// Normal forms.
use common::axis::Axis;
use common::node_test::NodeTest;
use search_terms::{DOT, Equality, FALSE, Proof, Store, TRUE, Term, TermId, VOID};
use std::cell::RefCell;
use std::collections::HashMap;

// How deep a normal form is looked for; what is deeper stays as it is.
const DEPTH: u32 = 200;

/// The normal forms of a store's terms, each found once.
#[derive(Drop)]
pub struct Forms<'a> {
    store: &'a Store,
    known: RefCell<HashMap<TermId, Equality>>,
}

impl<'a> Forms<'a> {
    pub fn new(store: &'a Store) -> Forms<'a> {
        Forms {
            store,
            known: RefCell::new(HashMap::new(store.alloc())),
        }
    }

    fn known_form(&self, x: TermId) -> Option<Equality> {
        match self.known.try_borrow() {
            Ok(known) => known.get(&x).copied(),
            Err(_) => None,
        }
    }

    fn keep(&self, x: TermId, form: Equality) {
        if let Ok(mut known) = self.known.try_borrow_mut() {
            if known.insert(x, form).is_err() {
                self.store.note_full();
            }
        }
    }

    // The proofs of both directions, or that x is x where one isn't found.
    fn both(&self, x: TermId, forth: Option<Proof>, back: Option<Proof>) -> Equality {
        match (forth, back) {
            (Some(forth), Some(back)) => Equality { forth, back },
            _ => self.store.same(x),
        }
    }

    // (f and g) = its normal form, f and g being normal.
    fn conjunction(&self, f: TermId, g: TermId) -> Equality {
        let store = self.store;
        let whole = store.and(f, g);
        let parts = store.conjuncts(whole);
        if parts.contains(&FALSE) {
            return self.both(
                whole,
                store.extract(whole, FALSE),
                Some(store.by_axiom(15, FALSE, whole)),
            );
        }
        let mut kept: Vec<TermId> = Vec::new(store.alloc());
        let mut all: Option<TermId> = None;
        for c in &parts {
            if *c == TRUE || kept.contains(c) {
                continue;
            }
            if kept.push(*c).is_err() {
                store.note_full();
            }
            all = Some(match all {
                None => *c,
                Some(x) => store.and(x, *c),
            });
        }
        let normal = all.unwrap_or(TRUE);
        if normal == whole {
            return store.same(normal);
        }
        self.both(
            whole,
            store.gather(whole, normal),
            store.gather(normal, whole),
        )
    }

    // The same of (f or g).
    fn disjunction(&self, f: TermId, g: TermId) -> Equality {
        let store = self.store;
        let whole = store.or(f, g);
        let parts = store.disjuncts(whole);
        if parts.contains(&TRUE) {
            return self.both(
                whole,
                Some(store.by_axiom(14, whole, TRUE)),
                store.inject(TRUE, whole),
            );
        }
        let mut kept: Vec<TermId> = Vec::new(store.alloc());
        let mut all: Option<TermId> = None;
        for c in &parts {
            if *c == FALSE || kept.contains(c) {
                continue;
            }
            if kept.push(*c).is_err() {
                store.note_full();
            }
            all = Some(match all {
                None => *c,
                Some(x) => store.or(x, *c),
            });
        }
        let normal = all.unwrap_or(FALSE);
        if normal == whole {
            return store.same(normal);
        }
        self.both(
            whole,
            store.scatter(whole, normal),
            store.scatter(normal, whole),
        )
    }

    /// x = its normal form.
    pub fn normal_form(&self, x: TermId) -> Equality {
        self.form_within(x, DEPTH)
    }

    // The same; what is deeper than `depth` stays as it is.
    #[cycle(forms)]
    fn form_within(&self, x: TermId, depth: u32) -> Equality {
        let store = self.store;
        if let Some(form) = self.known_form(x) {
            return form;
        }
        let Some(shallower) = depth.checked_sub(1) else {
            return store.same(x);
        };
        let form = match store.term(x) {
            Term::Union(a, b) => {
                let p = self.form_within(a, shallower);
                let q = self.form_within(b, shallower);
                store.equal_union(p, q)
            }
            Term::Composition(a, b) => {
                let p = self.form_within(a, shallower);
                let q = self.form_within(b, shallower);
                let joined = self.joined(p.right(), q.right(), shallower);
                store.equal_then(store.equal_composition(p, q), joined)
            }
            Term::Filter(a, f) => {
                let p = self.form_within(a, shallower);
                let q = self.form_within(f, shallower);
                store.equal_then(
                    store.equal_filter(p, q),
                    self.filtered(p.right(), q.right(), DEPTH),
                )
            }
            Term::And(f, g) => {
                let p = self.form_within(f, shallower);
                let q = self.form_within(g, shallower);
                store.equal_then(
                    store.equal_and(p, q),
                    self.conjunction(p.right(), q.right()),
                )
            }
            Term::Or(f, g) => {
                let p = self.form_within(f, shallower);
                let q = self.form_within(g, shallower);
                store.equal_then(store.equal_or(p, q), self.disjunction(p.right(), q.right()))
            }
            Term::Not(f) => {
                let p = self.form_within(f, shallower);
                store.equal_then(store.equal_not(p), self.negated(p.right(), DEPTH))
            }
            Term::Inclusion(p, VOID) => {
                let q = self.form_within(p, shallower);
                store.equal_then(store.equal_empty(q), self.emptied(q.right(), DEPTH))
            }
            _ => store.same(x),
        };
        self.keep(x, form);
        if self.known_form(form.right()).is_none() {
            self.keep(form.right(), store.same(form.right()));
        }
        form
    }

    // not f = its normal form, f being normal.
    fn negated(&self, f: TermId, depth: u32) -> Equality {
        let store = self.store;
        let whole = store.not(f);
        let Some(shallower) = depth.checked_sub(1) else {
            return store.same(whole);
        };
        match store.term(f) {
            Term::True => store.equal_by(44, whole, FALSE),
            Term::False => store.equal_by(45, whole, TRUE),
            Term::Not(g) => store.equal_by(43, whole, g),
            Term::And(a, b) => {
                let so_far = store.equal_by(39, whole, store.or(store.not(a), store.not(b)));
                let x = self.negated(a, shallower);
                let y = self.negated(b, shallower);
                store.equal_then(
                    store.equal_then(so_far, store.equal_or(x, y)),
                    self.disjunction(x.right(), y.right()),
                )
            }
            Term::Or(a, b) => {
                let so_far = store.equal_by(40, whole, store.and(store.not(a), store.not(b)));
                let x = self.negated(a, shallower);
                let y = self.negated(b, shallower);
                store.equal_then(
                    store.equal_then(so_far, store.equal_and(x, y)),
                    self.conjunction(x.right(), y.right()),
                )
            }
            _ => store.same(whole),
        }
    }

    // (p in V) = its normal form, p being normal.
    fn emptied(&self, p: TermId, depth: u32) -> Equality {
        let store = self.store;
        let whole = store.empty(p);
        let Some(shallower) = depth.checked_sub(1) else {
            return store.same(whole);
        };
        match store.term(p) {
            Term::Union(a, b) => {
                let so_far = store.equal_by(46, whole, store.and(store.empty(a), store.empty(b)));
                let x = self.emptied(a, shallower);
                let y = self.emptied(b, shallower);
                store.equal_then(
                    store.equal_then(so_far, store.equal_and(x, y)),
                    self.conjunction(x.right(), y.right()),
                )
            }
            Term::Filter(DOT, f) => match store.some_of(f) {
                Some(q) => {
                    let inner = store.composition(DOT, q);
                    let so_far = store.equal_by(38, store.empty(inner), whole).flipped();
                    store.equal_then(
                        so_far,
                        store.equal_empty(store.equal_by(28, q, inner).flipped()),
                    )
                }
                None => store.same(whole),
            },
            _ => store.same(whole),
        }
    }

    // last/bare = merged, where they merge: an axis and its name, or a step down and the parent.
    fn merged(&self, last: TermId, bare: TermId) -> Option<Equality> {
        let store = self.store;
        if let (Term::Step(a, NodeTest::Node, _), Term::Step(Axis::Itself, n, c)) = (
            store.term(last),
            store.term(bare),
        ) {
            if a != Axis::Attribute {
                return Some(store.equal_by(58, store.composition(last, bare), store.step(a, n, c)));
            }
        }
        let (step, g) = store.unfilter(last);
        let (Term::Step(a, n, c), Term::Step(Axis::Parent, m, d)) = (
            store.term(step),
            store.term(bare),
        ) else {
            return None;
        };
        let (rule, to) = match a {
            Axis::Child => (48, Axis::Itself),
            Axis::Descendant => (49, Axis::DescendantOrSelf),
            _ => return None,
        };
        let child = store.step(Axis::Child, n, c);
        let to = store.step(to, m, d);
        let g_or_true = g.unwrap_or(TRUE);
        let made = store.filter(to, store.some(store.filter(child, g_or_true)));
        let before = store.composition(store.filter(step, g_or_true), bare);
        if g.is_some() {
            return Some(store.equal_by(rule, before, made));
        }
        let so_far = store.equal_composition(
            store.equal_by(27, step, store.filter(step, TRUE)),
            store.same(bare),
        );
        let so_far = store.equal_then(so_far, store.equal_by(rule, before, made));
        let plain = store
            .equal_by(27, child, store.filter(child, TRUE))
            .flipped();
        let plain = store.equal_not(store.equal_empty(plain));
        Some(store.equal_then(so_far, store.equal_filter(store.same(to), plain)))
    }

    // p/q = its normal form, p and q being normal.
    #[cycle(forms)]
    fn joined(&self, p: TermId, q: TermId, depth: u32) -> Equality {
        let store = self.store;
        let whole = store.composition(p, q);
        let Some(shallower) = depth.checked_sub(1) else {
            return store.same(whole);
        };
        if let Term::Union(a, b) = store.term(p) {
            let so_far = store.equal_by(
                33,
                whole,
                store.union(store.composition(a, q), store.composition(b, q)),
            );
            let x = self.joined(a, q, shallower);
            let y = self.joined(b, q, shallower);
            return store.equal_then(so_far, store.equal_union(x, y));
        }
        match store.term(q) {
            Term::Union(a, b) => {
                let so_far = store.equal_by(
                    34,
                    whole,
                    store.union(store.composition(p, a), store.composition(p, b)),
                );
                let x = self.joined(p, a, shallower);
                let y = self.joined(p, b, shallower);
                return store.equal_then(so_far, store.equal_union(x, y));
            }
            Term::Composition(a, b) => {
                let so_far = store
                    .equal_by(36, store.composition(store.composition(p, a), b), whole)
                    .flipped();
                let first = self.joined(p, a, shallower);
                let so_far = store.equal_then(
                    so_far,
                    store.equal_composition(first, store.same(b)),
                );
                let second = self.joined(first.right(), b, shallower);
                return store.equal_then(so_far, second);
            }
            _ => {}
        }
        if p == DOT {
            return store.equal_by(28, q, whole).flipped();
        }
        if q == DOT {
            return store.equal_by(29, p, whole).flipped();
        }
        let (bare, f) = store.unfilter(q);
        if let (DOT, Some(f)) = (bare, f) {
            // p/.[f] = (p/.)[f] = p[f]
            let so_far = store
                .equal_by(37, store.filter(store.composition(p, bare), f), whole)
                .flipped();
            let so_far = store.equal_then(
                so_far,
                store.equal_filter(
                    store.equal_by(29, p, store.composition(p, bare)).flipped(),
                    store.same(f),
                ),
            );
            return store.equal_then(so_far, self.filtered(p, f, DEPTH));
        }
        let (before, last) = store.split(p);
        let Some(merged) = self.merged(last, bare) else {
            return store.same(whole);
        };
        // last/bare = merged; now before/last/bare[f]
        let so_far = match f {
            Some(f) => {
                let so_far = store
                    .equal_by(
                        37,
                        store.filter(store.composition(last, bare), f),
                        store.composition(last, q),
                    )
                    .flipped();
                store.equal_then(so_far, store.equal_filter(merged, store.same(f)))
            }
            None => merged,
        };
        let simple = self.form_within(so_far.right(), shallower);
        let so_far = store.equal_then(so_far, simple);
        match before {
            None => so_far,
            Some(b) => {
                let regroup = store.equal_by(
                    36,
                    whole,
                    store.composition(b, store.composition(last, q)),
                );
                let so_far = store.equal_then(
                    regroup,
                    store.equal_composition(store.same(b), so_far),
                );
                let rest = self.joined(b, simple.right(), shallower);
                store.equal_then(so_far, rest)
            }
        }
    }

    // p[f] = its normal form, p and f being normal.
    fn filtered(&self, p: TermId, f: TermId, depth: u32) -> Equality {
        let store = self.store;
        let whole = store.filter(p, f);
        if f == TRUE {
            return store.equal_by(27, p, whole).flipped();
        }
        if f == FALSE {
            return store.equal_by(30, whole, VOID);
        }
        let Some(shallower) = depth.checked_sub(1) else {
            return store.same(whole);
        };
        match store.term(p) {
            Term::Union(a, b) => {
                let so_far = store.equal_by(
                    35,
                    whole,
                    store.union(store.filter(a, f), store.filter(b, f)),
                );
                let x = self.filtered(a, f, shallower);
                let y = self.filtered(b, f, shallower);
                store.equal_then(so_far, store.equal_union(x, y))
            }
            Term::Composition(a, b) => {
                let so_far = store.equal_by(37, whole, store.composition(a, store.filter(b, f)));
                let x = self.filtered(b, f, shallower);
                store.equal_then(so_far, store.equal_composition(store.same(a), x))
            }
            Term::Filter(s, g) => {
                let so_far = store.equal_by(31, whole, store.filter(s, store.and(g, f)));
                let both = self.conjunction(g, f);
                let so_far = store.equal_then(so_far, store.equal_filter(store.same(s), both));
                if both.right() == FALSE {
                    store.equal_then(
                        so_far,
                        store.equal_by(30, store.filter(s, both.right()), VOID),
                    )
                } else {
                    so_far
                }
            }
            _ => store.same(whole),
        }
    }

    /// A chain p whose steps from the n-th on (from 0, n > 0) are grouped: p = before/rest.
    pub fn regroup(&self, p: TermId, n: usize) -> Option<Equality> {
        let store = self.store;
        let steps = store.chain_steps(p);
        if n == 0 || n >= steps.len() {
            return None;
        }
        let mut before = steps[0];
        for s in &steps[1..n] {
            before = store.composition(before, *s);
        }
        // before/rest = (before/r1)/.. : from before/r1, one step more a turn
        let mut rest = steps[n];
        let mut so_far = store.same(store.composition(before, rest));
        for s in &steps[n + 1..] {
            let longer = store.composition(rest, *s);
            let split = store.equal_by(
                36,
                store.composition(store.composition(before, rest), *s),
                store.composition(before, longer),
            );
            so_far = store.equal_then(store.equal_composition(so_far, store.same(*s)), split);
            rest = longer;
        }
        Some(so_far)
    }
}
