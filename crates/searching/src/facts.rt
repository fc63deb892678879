// What is known of a chain's nodes: its last filter, and the ways back.
use crate::goals::{Found, Stop, tried, wanted};
use crate::search::Search;
use common::axis::Axis;
use common::node_test::NodeTest;
use search_terms::{DOT, Proof, TRUE, Term, TermId};

// How deep terms are looked into.
const DEPTH: u32 = 64;

impl<'a> Search<'a> {
    // a <= a[g], where g follows from f, and f is a's last filter.
    pub(crate) fn own_filter(&self, a: TermId, follows: Proof) -> Option<Proof> {
        let store = self.store;
        let (before, last) = store.split(a);
        let (bare, f) = store.unfilter(last);
        let f = f?;
        let g = follows.right;
        let plain = self.plain(before, bare);
        let to = store.filter(plain, f);
        let so_far = if before.is_some() {
            store.equal_by(37, to, a)
        } else {
            store.same(a)
        };
        let both = store.and(f, g);
        let twice = store.by_two(18, f, both, store.reflexive(f), follows);
        let split = store.by_axiom(31, store.filter(plain, both), store.filter(to, g));
        let start = store.then(so_far.back, store.in_filter(store.reflexive(plain), twice));
        Some(store.in_turn(
            start,
            split,
            store.in_filter(so_far.forth, store.reflexive(g)),
        ))
    }

    // From a <= b, a <= b[g] by what is known of a's nodes: a's last filter, and the ways back of its chains.
    pub(crate) fn with_facts(&self, a: TermId, p: Proof, g: TermId, fuel: u32) -> Found {
        let store = self.store;
        let f = store.unfilter(store.split(a).1).1;
        if let Some(f) = f {
            if let Some(q) = tried(self.implication(f, g, fuel))? {
                let own = wanted(self.own_filter(a, q))?;
                return Ok(store.then(own, store.in_filter(p, store.reflexive(g))));
            }
        }
        if let Some(q) = tried(self.implication(TRUE, g, fuel))? {
            return Ok(store.then(
                store.by_axiom(27, a, store.filter(a, q.left)),
                store.in_filter(p, q),
            ));
        }
        if let Some(q) = tried(self.by_way_back(a, p, g, fuel))? {
            return Ok(q);
        }
        if let Some(q) = tried(self.by_longer_way(a, p, g, false, fuel))? {
            return Ok(q);
        }
        self.by_longer_way(a, p, g, true, fuel)
    }

    // The same by the way back of a's longer form.
    fn by_longer_way(&self, a: TermId, p: Proof, g: TermId, turn: bool, fuel: u32) -> Found {
        let store = self.store;
        let to = wanted(self.expanded(a, turn))?;
        let n = self.normal_form(to.right).forth;
        let wide = self.containment(n.right, p.right, fuel)?;
        let q = self.by_way_back(to.right, store.then(n, wide), g, fuel)?;
        Ok(store.then(to, q))
    }

    // The same by a's own way back.
    pub(crate) fn by_way_back(&self, a: TermId, p: Proof, g: TermId, fuel: u32) -> Found {
        let store = self.store;
        let all = wanted(self.facts_of(a))?;
        let Term::Filter(_, facts) = store.term(all.right) else {
            return Err(Stop::NotFound);
        };
        let n = self.normal_form(facts);
        let q = self.implication(n.right(), g, fuel)?;
        Ok(store.then(all, store.in_filter(p, store.then(n.forth, q))))
    }

    // a <= a[f and some w], f being a's last filter and w its way back
    fn facts_of(&self, a: TermId) -> Option<Proof> {
        let store = self.store;
        let back = self.back(a)?;
        let Term::Filter(_, w) = store.term(back.right) else {
            return None;
        };
        let Some(f) = store.unfilter(store.split(a).1).1 else {
            return Some(back);
        };
        let own = self.own_filter(a, store.reflexive(f))?;
        let so_far = store.then(back, store.in_filter(own, store.reflexive(w)));
        Some(store.then(
            so_far,
            store.by_axiom(31, so_far.right, store.filter(a, store.and(f, w))),
        ))
    }

    // a <= a[some w], w being the way back of the longest end of a that has one.
    fn back(&self, a: TermId) -> Option<Proof> {
        let store = self.store;
        let steps = store.chain_steps(a);
        let from = match steps.iter().rposition(|s| store.way_back(*s).is_none()) {
            Some(i) => i + 1,
            None => 0,
        };
        if from >= steps.len() {
            return None;
        }
        let end = self.prefix(&steps[from..]);
        let w = store.some(store.way_back(end)?);
        let so_far = store.by_axiom(59, end, store.filter(end, w));
        if from == 0 {
            return Some(so_far);
        }
        let before = self.prefix(&steps[..from]);
        let group = self.regroup(a, from)?;
        let inner = store.in_composition(store.reflexive(before), so_far);
        let out = store.by_axiom(37, inner.right, store.filter(group.right(), w));
        let start = store.then(group.forth, inner);
        Some(store.in_turn(start, out, store.in_filter(group.back, store.reflexive(w))))
    }

    // A step that has no way back, or what follows it, in more steps; the same if there is nothing to do.
    fn longer_step(&self, s: TermId, is_stop: bool, turn: bool) -> Proof {
        let store = self.store;
        if turn {
            if let Some(q) = self.turned_filter(s) {
                return q;
            }
        }
        let (bare, f) = store.unfilter(s);
        let Term::Step(x, n, c) = store.term(bare) else {
            return store.reflexive(s);
        };
        if !is_stop || x == Axis::Attribute || n == NodeTest::Node {
            return store.reflexive(s);
        }
        let here = store.step(Axis::Itself, n, c);
        let q = store.by_axiom(58, bare, store.composition(store.node(x), here));
        match f {
            Some(f) => {
                let so_far = store.in_filter(q, store.reflexive(f));
                store.then(
                    so_far,
                    store.by_axiom(
                        37,
                        so_far.right,
                        store.composition(store.node(x), store.filter(here, f)),
                    ),
                )
            }
            None => q,
        }
    }

    // (x::node()[f])/self::N, and that is (x::node()/.[f])/self::N
    fn turned_filter(&self, s: TermId) -> Option<Proof> {
        let store = self.store;
        let so_far = self.filter_first(s)?;
        let Term::Composition(far, here) = store.term(so_far.right) else {
            return None;
        };
        let axis = store.unfilter(far).0;
        let f = store.unfilter(s).1?;
        let stay = store.in_filter(
            store.by_axiom(29, axis, store.composition(axis, DOT)),
            store.reflexive(f),
        );
        let stay = store.then(
            stay,
            store.by_axiom(
                37,
                stay.right,
                store.composition(axis, store.filter(DOT, f)),
            ),
        );
        Some(store.then(so_far, store.in_composition(stay, store.reflexive(here))))
    }

    // a with its way back made longer: the last step that has none, x::N, as x::node()/self::N; with `turn`, the
    // filters of steps (the last one's apart) before their names, so that the way back has the name first.
    fn expanded(&self, a: TermId, turn: bool) -> Option<Proof> {
        let store = self.store;
        let steps = store.chain_steps(a);
        let stop = steps.iter().rposition(|s| store.way_back(*s).is_none());
        let last = steps.len().saturating_sub(1);
        let mut whole: Option<Proof> = None;
        let mut any = false;
        for (i, s) in steps.iter().enumerate() {
            let q = if i < last && i >= stop.unwrap_or(0) {
                self.longer_step(*s, stop == Some(i), turn)
            } else {
                store.reflexive(*s)
            };
            any = any || q.left != q.right;
            whole = Some(match whole {
                None => q,
                Some(p) => self.grouped(store.in_composition(p, q), DEPTH),
            });
        }
        if any { whole } else { None }
    }

    // To p/(q/r ..), the same grouped from the left.
    fn grouped(&self, to: Proof, depth: u32) -> Proof {
        let store = self.store;
        let Some(shallower) = depth.checked_sub(1) else {
            return to;
        };
        let Term::Composition(p, q) = store.term(to.right) else {
            return to;
        };
        let Term::Composition(q, r) = store.term(q) else {
            return to;
        };
        let so_far = store.by_axiom(36, to.right, store.composition(store.composition(p, q), r));
        let inner = self.grouped(store.reflexive(store.composition(p, q)), shallower);
        store.in_turn(to, so_far, store.in_composition(inner, store.reflexive(r)))
    }

    // a::N[f] <= (a::node()[f])/self::N, if "some self::N[f]" implies f.
    pub(crate) fn filter_first(&self, s: TermId) -> Option<Proof> {
        let store = self.store;
        let (bare, f) = store.unfilter(s);
        let f = f?;
        let Term::Step(a, n, c) = store.term(bare) else {
            return None;
        };
        if n == NodeTest::Node || a == Axis::Attribute || a == Axis::Itself {
            return None;
        }
        let here = store.step(Axis::Itself, n, c);
        let held = store.filter(here, f);
        let dot_f = store.filter(DOT, f);
        // some self::N[f] => f
        let seen = self.seen(held, f, DEPTH)?;
        let told = store.in_filter(store.reflexive(DOT), seen);
        let drop = store.then(
            store.in_filter(store.reflexive(here), store.by_axiom(14, f, TRUE)),
            store.by_axiom(27, store.filter(here, TRUE), here),
        );
        let in_front = store.then(
            store.by_axiom(28, held, store.composition(DOT, held)),
            store.by_two(
                11,
                store.composition(DOT, held),
                store.composition(dot_f, here),
                told,
                drop,
            ),
        );
        let any = store.node(a);
        let so_far = store.in_filter(
            store.by_axiom(58, bare, store.composition(any, here)),
            store.reflexive(f),
        );
        let so_far = store.then(
            so_far,
            store.by_axiom(37, so_far.right, store.composition(any, held)),
        );
        let so_far = store.then(so_far, store.in_composition(store.reflexive(any), in_front));
        let so_far = store.then(
            so_far,
            store.by_axiom(
                36,
                so_far.right,
                store.composition(store.composition(any, dot_f), here),
            ),
        );
        let join = store.by_axiom(
            37,
            store.composition(any, dot_f),
            store.filter(store.composition(any, DOT), f),
        );
        let join = store.then(
            join,
            store.in_filter(
                store.by_axiom(29, store.composition(any, DOT), any),
                store.reflexive(f),
            ),
        );
        Some(store.then(so_far, store.in_composition(join, store.reflexive(here))))
    }

    // some self::N[f] => f, for f of conjunctions of "some q".
    fn seen(&self, held: TermId, f: TermId, depth: u32) -> Option<Proof> {
        let store = self.store;
        let shallower = depth.checked_sub(1)?;
        let Term::Filter(here, whole) = store.term(held) else {
            return None;
        };
        if let Term::And(x, y) = store.term(f) {
            let p = self.seen(held, x, shallower)?;
            let q = self.seen(held, y, shallower)?;
            return Some(store.by_two(18, store.some(held), f, p, q));
        }
        let q = store.some_of(f)?;
        // self::N[whole] <= .[some q]
        let stay = if here == DOT {
            store.reflexive(here)
        } else {
            store.by_axiom(8, here, DOT)
        };
        let p = store.in_filter(stay, store.extract(whole, f)?);
        // (q in V) => (.[some q] in V) => (self::N[whole] in V)
        let so_far = store.in_empty(store.by_axiom(28, store.composition(DOT, q), q));
        let so_far = store.then(
            so_far,
            store.by_axiom(
                38,
                store.empty(store.composition(DOT, q)),
                store.empty(store.filter(DOT, f)),
            ),
        );
        Some(store.in_not(store.then(so_far, store.in_empty(p))))
    }
}
