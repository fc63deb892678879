// Goals on chains, from their last steps.
use crate::goals::{Found, Stop, less, tried, wanted};
use crate::search::Search;
use common::axis::Axis;
use common::node_test::NodeTest;
use search_terms::{DOT, Equality, Proof, ROOT, TRUE, Term, TermId, axis_below, test_below};

// A chain p/s[f], taken apart: the whole, p, the step s[f], s bare, and f.
#[derive(Clone, Copy)]
pub(crate) struct End {
    pub whole: TermId,
    pub before: Option<TermId>,
    pub step: TermId,
    pub bare: TermId,
    pub filter: Option<TermId>,
}

// Whether rule 10 is for the axis: a step along it and again is one along it.
fn is_closed(axis: Axis) -> bool {
    !matches!(
        axis,
        Axis::Itself | Axis::Child | Axis::Parent | Axis::Attribute
    )
}

impl<'a> Search<'a> {
    pub(crate) fn end(&self, whole: TermId) -> End {
        let store = self.store;
        let (before, step) = store.split(whole);
        let (bare, filter) = store.unfilter(step);
        End {
            whole,
            before,
            step,
            bare,
            filter,
        }
    }

    // p, and p/s, with `.` for p where there is none.
    fn long(&self, end: End) -> (TermId, Equality) {
        let store = self.store;
        match end.before {
            Some(p) => (p, store.same(store.composition(p, end.step))),
            None => (
                DOT,
                store.equal_by(28, end.step, store.composition(DOT, end.step)),
            ),
        }
    }

    // One chain below another.
    pub(crate) fn chain_containment(&self, a: TermId, b: TermId, fuel: u32) -> Found {
        let store = self.store;
        let (left, right) = (self.end(a), self.end(b));
        if let Some(p) = tried(self.by_steps(left, right, fuel))? {
            return Ok(p);
        }
        if let Some(g) = right.filter {
            return self.filter_right(left, right, g, fuel);
        }
        if let Some(p) = tried(self.has_child(a, b))? {
            return Ok(p);
        }
        if let Some(p) = tried(self.by_way_of_child(left, b, fuel))? {
            return Ok(p);
        }
        if let Some(f) = left.filter {
            if let Some(p) = tried(self.filter_left(left, f, b, fuel))? {
                return Ok(p);
            }
        }
        if let (Term::Composition(p, q), ROOT) = (store.term(a), left.bare) {
            let to = store.by_axiom(56, store.composition(p, q), ROOT);
            let rest = self.containment(ROOT, b, fuel)?;
            return Ok(store.then(to, rest));
        }
        let Term::Step(x, n, c) = store.term(left.bare) else {
            return self.widen_right(left, right, fuel);
        };
        let Term::Step(y, m, d) = store.term(right.bare) else {
            return Err(Stop::NotFound);
        };
        if left.filter.is_none() && test_below((n, c), (m, d)) {
            if let Some(p) = self.below_root(left, right, (x, n), (y, m, d)) {
                return Ok(p);
            }
            if is_closed(y) && axis_below(x, y) {
                if let Some(p) = tried(self.closed(left, right, y, fuel))? {
                    return Ok(p);
                }
            }
        }
        if let Some(p) = tried(self.widen_right(left, right, fuel))? {
            return Ok(p);
        }
        self.widen_left(left, b, fuel)
    }

    // Step by step: rules 7 and 11.
    fn by_steps(&self, left: End, right: End, fuel: u32) -> Found {
        let store = self.store;
        let q = self.step_containment(left.step, right.step, fuel)?;
        if left.before.is_none() && right.before.is_none() {
            return Ok(q);
        }
        let (left_path, from_left) = self.long(left);
        let (right_path, to_right) = self.long(right);
        if let Some(p) = tried(self.containment(left_path, right_path, fuel))? {
            return Ok(store.in_turn(from_left.forth, store.in_composition(p, q), to_right.back));
        }
        let from_root = store.chain_steps(right_path).first().copied() == Some(ROOT)
            && store.chain_steps(left_path).first().copied() != Some(ROOT);
        let by_filter = right.before.is_some()
            && left.before.is_some()
            && store.has_filter(right_path);
        if fuel == 0 || !(by_filter || from_root) {
            return Err(Stop::NotFound);
        }
        let told = self.normal_form(store.filter(left_path, store.some(left.step)));
        let p = self.containment(told.right(), right_path, less(fuel))?;
        let p = store.then(told.forth, p);
        Ok(store.in_turn(
            from_left.forth,
            store.by_two(11, from_left.forth.right, to_right.forth.right, p, q),
            to_right.back,
        ))
    }

    // A filter on the right.
    fn filter_right(&self, left: End, right: End, g: TermId, fuel: u32) -> Found {
        let store = self.store;
        let (a, b) = (left.whole, right.whole);
        let wide = self.plain(right.before, right.bare);
        let to_right = if right.before.is_some() {
            store.by_axiom(37, store.filter(wide, g), b)
        } else {
            store.reflexive(b)
        };
        if let Some(f) = left.filter {
            let thin = self.plain(left.before, left.bare);
            if let Some(p) = tried(self.containment(thin, wide, fuel))? {
                if let Some(q) = tried(self.implication(f, g, fuel))? {
                    let from_left = if left.before.is_some() {
                        store.by_axiom(37, a, store.filter(thin, f))
                    } else {
                        store.reflexive(a)
                    };
                    return Ok(store.in_turn(from_left, store.in_filter(p, q), to_right));
                }
            }
        }
        if fuel == 0 {
            return Err(Stop::NotFound);
        }
        if let Some(p) = tried(self.run_above(left, b, less(fuel)))? {
            return Ok(p);
        }
        let p = self.containment(a, wide, fuel)?;
        let q = self.with_facts(a, p, g, less(fuel))?;
        Ok(store.then(q, to_right))
    }

    // A filter on the left is dropped.
    fn filter_left(&self, left: End, f: TermId, b: TermId, fuel: u32) -> Found {
        let store = self.store;
        let thin = self.plain(left.before, left.bare);
        let p = self.containment(thin, b, fuel)?;
        let drop = store.then(
            store.in_filter(store.reflexive(left.bare), store.by_axiom(14, f, TRUE)),
            store.by_axiom(27, store.filter(left.bare, TRUE), left.bare),
        );
        let drop = match left.before {
            Some(p) => store.in_composition(store.reflexive(p), drop),
            None => drop,
        };
        Ok(store.then(drop, p))
    }

    // Rule 26, and what is wider than a descendant of the root.
    fn below_root(
        &self,
        left: End,
        right: End,
        (x, n): (Axis, NodeTest),
        (y, m, d): (Axis, NodeTest, u16),
    ) -> Option<Proof> {
        let store = self.store;
        if right.before != Some(ROOT) || x == Axis::Attribute || n == NodeTest::Node {
            return None;
        }
        if y == Axis::DescendantOrSelf {
            let (_, from_left) = self.long(left);
            let step = store.step(Axis::Descendant, m, d);
            let low = store.composition(ROOT, step);
            let up = store.in_composition(
                store.reflexive(ROOT),
                store.by_axiom(8, step, right.bare),
            );
            return Some(store.in_turn(
                from_left.forth,
                store.by_axiom(26, from_left.forth.right, low),
                up,
            ));
        }
        if y == Axis::Descendant && left.before.is_none() {
            let (_, from_left) = self.long(left);
            return Some(store.then(
                from_left.forth,
                store.by_axiom(26, from_left.forth.right, right.whole),
            ));
        }
        None
    }

    // Rule 10.
    fn closed(&self, left: End, right: End, y: Axis, fuel: u32) -> Found {
        let store = self.store;
        let (left_path, from_left) = self.long(left);
        let (right_path, to_right) = self.long(right);
        let closed = store.composition(right_path, store.node(y));
        let goal = if right.before.is_some() {
            closed
        } else {
            store.node(y)
        };
        let p = self.containment(left_path, goal, fuel)?;
        let p = if goal == closed {
            p
        } else {
            store.then(p, store.by_axiom(28, goal, closed))
        };
        let q = if left.bare == right.bare {
            store.reflexive(left.bare)
        } else {
            store.by_axiom(8, left.bare, right.bare)
        };
        Ok(store.in_turn(
            from_left.forth,
            store.by_two(10, from_left.forth.right, to_right.forth.right, q, p),
            to_right.back,
        ))
    }

    // One step, with its filter, below another.
    fn step_containment(&self, s: TermId, t: TermId, fuel: u32) -> Found {
        let store = self.store;
        if s == t {
            return Ok(store.reflexive(s));
        }
        let (bare_s, f) = store.unfilter(s);
        let (bare_t, g) = store.unfilter(t);
        let bare = if bare_s == bare_t {
            store.reflexive(bare_s)
        } else {
            match store.axiom(bare_s, bare_t) {
                Some(8) => store.by_axiom(8, bare_s, bare_t),
                Some(57) => store.by_axiom(57, bare_s, bare_t),
                _ => return Err(Stop::NotFound),
            }
        };
        match (f, g) {
            (None, None) => Ok(bare),
            (Some(f), None) => Ok(store.then(
                store.in_filter(bare, store.by_axiom(14, f, TRUE)),
                store.by_axiom(27, store.filter(bare_t, TRUE), bare_t),
            )),
            (Some(f), Some(g)) => {
                let q = self.implication(f, g, fuel)?;
                Ok(store.in_filter(bare, q))
            }
            (None, Some(g)) => {
                let p = self.implication(TRUE, g, fuel)?;
                Ok(store.then(
                    store.by_axiom(27, bare_s, store.filter(bare_s, TRUE)),
                    store.in_filter(bare, p),
                ))
            }
        }
    }

    // Rule 51: descendant::N[f]/child::M is below descendant::M[some parent::N[f]].
    fn run_above(&self, left: End, b: TermId, fuel: u32) -> Found {
        let store = self.store;
        let p = wanted(left.before)?;
        let (p0, s0) = store.split(p);
        let (run, g) = store.unfilter(s0);
        let (child, f) = (left.bare, left.filter);
        let (Term::Step(Axis::Child, m, c), Term::Step(Axis::Descendant, n, d)) = (
            store.term(child),
            store.term(run),
        ) else {
            return Err(Stop::NotFound);
        };
        let told = g.unwrap_or(TRUE);
        let open = if g.is_none() {
            store.by_axiom(27, run, store.filter(run, told))
        } else {
            store.reflexive(s0)
        };
        let open = store.in_composition(open, store.reflexive(child));
        let to = store.filter(
            store.step(Axis::Descendant, m, c),
            store.some(store.filter(store.step(Axis::Parent, n, d), told)),
        );
        let so_far = store.then(open, store.by_axiom(51, open.right, to));
        let so_far = match f {
            Some(f) => {
                let up = store.by_axiom(
                    37,
                    store.composition(s0, left.step),
                    store.filter(store.composition(s0, child), f),
                );
                store.then(up, store.in_filter(so_far, store.reflexive(f)))
            }
            None => so_far,
        };
        let so_far = match p0 {
            Some(p) => {
                let up = store.by_axiom(
                    36,
                    left.whole,
                    store.composition(p, store.composition(s0, left.step)),
                );
                store.then(up, store.in_composition(store.reflexive(p), so_far))
            }
            None => so_far,
        };
        let so_far = store.then(so_far, self.normal_form(so_far.right).forth);
        let q = self.containment(so_far.right, b, fuel)?;
        Ok(store.then(so_far, q))
    }
}
