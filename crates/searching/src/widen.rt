// Steps that one side has and the other need not have.
use crate::chains::End;
use crate::goals::{Found, Stop, tried, wanted};
use crate::search::Search;
use common::axis::Axis;
use common::node_test::NodeTest;
use search_terms::{DOT, Proof, ROOT, TRUE, Term, TermId, test_below};

// Whether a node is its own along this axis.
fn may_stay(axis: Axis) -> bool {
    axis == Axis::DescendantOrSelf || axis == Axis::AncestorOrSelf
}

impl<'a> Search<'a> {
    // left <= right where they may be one.
    fn widened(&self, left: TermId, right: TermId) -> Proof {
        let store = self.store;
        if left == right {
            store.reflexive(left)
        } else {
            store.by_axiom(8, left, right)
        }
    }

    // step.right <= b, where b has no step before, by rule 28.
    fn closing(&self, step: Proof, right: End) -> Proof {
        let store = self.store;
        if right.before.is_some() {
            store.reflexive(right.whole)
        } else {
            store.by_axiom(28, step.right, right.whole)
        }
    }

    // Steps of b that a need not have.
    pub(crate) fn widen_right(&self, left: End, right: End, fuel: u32) -> Found {
        let store = self.store;
        let Term::Step(y, m, d) = store.term(right.step) else {
            return Err(Stop::NotFound);
        };
        if may_stay(y) && m == NodeTest::Node {
            if let Some(p) = tried(self.staying(left, right, fuel))? {
                return Ok(p);
            }
        }
        if (may_stay(y) || y == Axis::Itself) && m != NodeTest::Node {
            if let Some(p) = tried(self.name_kept(left, right, (m, d), fuel))? {
                return Ok(p);
            }
        }
        if let Some(p) = tried(self.name_left(left, right, fuel))? {
            return Ok(p);
        }
        if y == Axis::Following {
            return self.by_siblings(left.whole, right, (54, Axis::FollowingSibling), fuel);
        }
        if y == Axis::Preceding {
            return self.by_siblings(left.whole, right, (55, Axis::PrecedingSibling), fuel);
        }
        Err(Stop::NotFound)
    }

    // The last step of b is left out.
    fn staying(&self, left: End, right: End, fuel: u32) -> Found {
        let store = self.store;
        let a = left.whole;
        let p = self.containment(a, right.before.unwrap_or(DOT), fuel)?;
        let stay = store.by_axiom(29, a, store.composition(a, DOT));
        let step = store.in_composition(p, store.by_axiom(8, DOT, right.step));
        Ok(store.in_turn(stay, step, self.closing(step, right)))
    }

    // pa/x::N[f] <= (pa/x::node()[f])/self::N, where the right side ends in self::M or wider
    fn name_kept(&self, left: End, right: End, test: (NodeTest, u16), fuel: u32) -> Found {
        let store = self.store;
        let Term::Step(x, n, c) = store.term(left.bare) else {
            return Err(Stop::NotFound);
        };
        if x == Axis::Attribute
            || x == Axis::Itself
            || n == NodeTest::Node
            || !test_below((n, c), test)
        {
            return Err(Stop::NotFound);
        }
        let so_far = match left.filter {
            Some(_) => wanted(self.filter_first(left.step))?,
            None => store.by_axiom(
                58,
                left.bare,
                store.composition(store.node(x), store.step(Axis::Itself, n, c)),
            ),
        };
        let Term::Composition(any, here) = store.term(so_far.right) else {
            return Err(Stop::NotFound);
        };
        let left_path = self.plain(left.before, any);
        let p = self.containment(left_path, right.before.unwrap_or(DOT), fuel)?;
        let so_far = match left.before {
            Some(pa) => {
                let so_far = store.in_composition(store.reflexive(pa), so_far);
                store.then(
                    so_far,
                    store.by_axiom(36, so_far.right, store.composition(left_path, here)),
                )
            }
            None => so_far,
        };
        let step = store.in_composition(p, self.widened(here, right.step));
        Ok(store.in_turn(so_far, step, self.closing(step, right)))
    }

    // y::M = y::node()/self::M on the right, where the left side ends in self::N
    fn name_left(&self, left: End, right: End, fuel: u32) -> Found {
        let store = self.store;
        let left_path = wanted(left.before)?;
        let (Term::Step(Axis::Itself, n, c), Term::Step(y, m, d)) = (
            store.term(left.bare),
            store.term(right.step),
        ) else {
            return Err(Stop::NotFound);
        };
        if y == Axis::Itself
            || y == Axis::Attribute
            || m == NodeTest::Node
            || left.filter.is_some()
            || !test_below((n, c), (m, d))
        {
            return Err(Stop::NotFound);
        }
        let any = store.node(y);
        let here = store.step(Axis::Itself, m, d);
        let right_path = self.plain(right.before, any);
        let p = self.containment(left_path, right_path, fuel)?;
        let step = store.in_composition(p, self.widened(left.bare, here));
        let so_far = store.by_axiom(58, store.composition(any, here), right.step);
        let so_far = match right.before {
            Some(pb) => {
                let group = store.by_axiom(
                    36,
                    store.composition(right_path, here),
                    store.composition(pb, store.composition(any, here)),
                );
                store.then(group, store.in_composition(store.reflexive(pb), so_far))
            }
            None => so_far,
        };
        Ok(store.then(step, so_far))
    }

    // following and preceding on the right by the siblings of ancestors (rules 54 and 55).
    fn by_siblings(&self, a: TermId, right: End, (rule, sibling): (u16, Axis), fuel: u32) -> Found {
        let store = self.store;
        let Term::Step(_, m, d) = store.term(right.step) else {
            return Err(Stop::NotFound);
        };
        let made = store.composition(
            store.composition(store.node(Axis::AncestorOrSelf), store.node(sibling)),
            store.step(Axis::DescendantOrSelf, m, d),
        );
        let so_far = store.by_axiom(rule, made, right.step);
        let so_far = match right.before {
            Some(p) => store.in_composition(store.reflexive(p), so_far),
            None => so_far,
        };
        let n = self.normal_form(so_far.left);
        let p = self.containment(a, n.right(), fuel)?;
        Ok(store.in_turn(p, n.back, so_far))
    }

    // A wider form of a, without its last step or with another one.
    pub(crate) fn widen_left(&self, left: End, b: TermId, fuel: u32) -> Found {
        let store = self.store;
        if let (Some(p), Term::Step(Axis::Itself, _, _)) = (left.before, store.term(left.step)) {
            let stay = store.in_composition(store.reflexive(p), store.by_axiom(8, left.step, DOT));
            let stay = store.then(stay, store.by_axiom(29, stay.right, p));
            if let Some(q) = tried(self.containment(p, b, fuel))? {
                return Ok(store.then(stay, q));
            }
        }
        let Term::Step(Axis::Preceding, n, c) = store.term(left.step) else {
            return Err(Stop::NotFound);
        };
        let made = store.composition(
            store.composition(
                store.node(Axis::AncestorOrSelf),
                store.node(Axis::PrecedingSibling),
            ),
            store.step(Axis::DescendantOrSelf, n, c),
        );
        let so_far = store.by_axiom(55, left.step, made);
        let so_far = match left.before {
            Some(p) => store.in_composition(store.reflexive(p), so_far),
            None => so_far,
        };
        let so_far = store.then(so_far, self.normal_form(so_far.right).forth);
        let q = self.containment(so_far.right, b, fuel)?;
        Ok(store.then(so_far, q))
    }

    // The child that a qualifier "some child::N .." speaks of.
    fn child_of(&self, g: TermId) -> Option<(TermId, TermId, TermId)> {
        let store = self.store;
        let q = store.some_of(g)?;
        let first = store.unfilter(store.chain_steps(q).first().copied()?).0;
        match store.term(first) {
            Term::Step(Axis::Child, n, c) if n != NodeTest::Node => Some((
                g,
                store.step(Axis::Child, n, c),
                store.step(Axis::Descendant, n, c),
            )),
            Term::Step(Axis::Descendant, NodeTest::Name | NodeTest::Star, _) => {
                Some((
                    g,
                    store.step(Axis::Child, NodeTest::Star, 0),
                    store.step(Axis::Descendant, NodeTest::Star, 0),
                ))
            }
            _ => None,
        }
    }

    // p[some child::N ..] <= R/descendant-or-self::node(), N not being node(): what has a child is where that child's
    // parent is, and the child is a descendant of the root (rules 48, 26, 49).
    pub(crate) fn has_child(&self, a: TermId, b: TermId) -> Found {
        let store = self.store;
        if store.term(b) != Term::Composition(ROOT, store.node(Axis::DescendantOrSelf)) {
            return Err(Stop::NotFound);
        }
        let left = self.end(a);
        let f = wanted(left.filter)?;
        for g in &store.conjuncts(f) {
            if let Some(child) = self.child_of(*g) {
                if let Some(p) = tried(self.by_child(left, f, child, b))? {
                    return Ok(p);
                }
            }
        }
        Err(Stop::NotFound)
    }

    // The same for one conjunct g, "some child".
    fn by_child(
        &self,
        left: End,
        f: TermId,
        (g, child, far): (TermId, TermId, TermId),
        b: TermId,
    ) -> Found {
        let store = self.store;
        let plain = self.plain(left.before, left.bare);
        // the filter implies "some child", without more
        let has = self.implication(g, store.some(child), 2)?;
        let has = store.then(wanted(store.extract(f, g))?, has);
        let so_far = if left.before.is_some() {
            store.by_axiom(37, left.whole, store.filter(plain, f))
        } else {
            store.reflexive(left.whole)
        };
        let so_far = store.then(so_far, store.in_filter(store.reflexive(plain), has));
        // plain[some child] <= (plain/child::N)/parent::node()
        let up = self.normal_form(store.composition(
            store.composition(plain, child),
            store.node(Axis::Parent),
        ));
        let here = self.normal_form(so_far.right);
        if up.right() != here.right() {
            return Err(Stop::NotFound);
        }
        let so_far = store.in_turn(so_far, here.forth, up.back);
        let low = store.in_composition(
            store.by_axiom(
                26,
                store.composition(plain, child),
                store.composition(ROOT, far),
            ),
            store.reflexive(store.node(Axis::Parent)),
        );
        let end = self.normal_form(low.right);
        let p = self.containment(end.right(), b, 1)?;
        Ok(store.then(store.in_turn(so_far, low, end.forth), p))
    }

    // p/x::M[some child::N ..] as p/x::node()/child::N../parent::M (rule 48), where the right side ends upwards.
    pub(crate) fn by_way_of_child(&self, left: End, b: TermId, fuel: u32) -> Found {
        let store = self.store;
        match store.term(store.split(b).1) {
            Term::Step(Axis::Parent | Axis::Ancestor | Axis::AncestorOrSelf, _, _) => {}
            _ => return Err(Stop::NotFound),
        }
        let f = wanted(left.filter)?;
        for g in &store.conjuncts(f) {
            if let Some(whole) = self.turned(left, f, *g) {
                if let Some(p) = tried(self.containment(whole.right, b, fuel))? {
                    return Ok(store.then(whole, p));
                }
            }
        }
        Err(Stop::NotFound)
    }

    // The same for one conjunct g.
    fn turned(&self, left: End, f: TermId, g: TermId) -> Option<Proof> {
        let store = self.store;
        let Term::Step(x, m, c) = store.term(left.bare) else {
            return None;
        };
        if x == Axis::Attribute {
            return None;
        }
        let q = store.some_of(g)?;
        // some q = some s, one step with the rest of q in its filter
        let so_far = match self.one_step(q) {
            Some(so_far) => so_far,
            None => store.same(store.empty(q)),
        };
        let s = store.empty_of(so_far.right())?;
        let (child, h) = store.unfilter(s);
        let Term::Step(Axis::Child, _, _) = store.term(child) else {
            return None;
        };
        let with_truth = store.filter(child, h.unwrap_or(TRUE));
        let to_truth = if h.is_none() {
            store.equal_by(27, s, with_truth)
        } else {
            store.same(s)
        };
        let has = store.then(store.extract(f, g)?, store.equal_not(so_far).forth);
        let has = store.then(has, store.equal_not(store.equal_empty(to_truth)).forth);
        // x::M[f] <= (x::node()/self::M)[some s] = x::node()/(s/parent::M)
        let here = store.step(Axis::Itself, m, c);
        let parent = store.step(Axis::Parent, m, c);
        let told = store.filter(here, has.right);
        let up = store.composition(with_truth, parent);
        let turn = store.then(
            store.by_axiom(48, told, up),
            store.in_composition(to_truth.back, store.reflexive(parent)),
        );
        let step = if x == Axis::Itself {
            store.then(store.in_filter(store.reflexive(left.bare), has), turn)
        } else {
            let any = store.node(x);
            let so_far = store.in_filter(
                store.by_axiom(58, left.bare, store.composition(any, here)),
                has,
            );
            let so_far = store.then(
                so_far,
                store.by_axiom(37, so_far.right, store.composition(any, told)),
            );
            let so_far = store.then(so_far, store.in_composition(store.reflexive(any), turn));
            store.then(
                so_far,
                store.by_axiom(
                    36,
                    so_far.right,
                    store.composition(store.composition(any, s), parent),
                ),
            )
        };
        let Term::Composition(there, end) = store.term(step.right) else {
            return None;
        };
        Some(match left.before {
            Some(p) => {
                let so_far = store.in_composition(store.reflexive(p), step);
                let so_far = store.then(
                    so_far,
                    store.by_axiom(
                        36,
                        so_far.right,
                        store.composition(store.composition(p, there), end),
                    ),
                );
                store.then(
                    so_far,
                    store.in_composition(
                        self.normal_form(store.composition(p, there)).forth,
                        store.reflexive(end),
                    ),
                )
            }
            None => step,
        })
    }
}
