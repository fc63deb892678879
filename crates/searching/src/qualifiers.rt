// Goals on qualifiers.
use crate::goals::{Found, Stop, less, tried, wanted};
use crate::search::Search;
use common::axis::Axis;
use common::node_test::NodeTest;
use search_terms::{Equality, FALSE, Proof, TRUE, Term, TermId};

// How deep terms are looked into.
const DEPTH: u32 = 64;

// The most places of a pattern that are looked at.
const PLACES: usize = 60;

impl<'a> Search<'a> {
    // One qualifier from another: by their cases and parts, else by one literal from another.
    pub(crate) fn qualifier_implication(&self, f: TermId, g: TermId, fuel: u32) -> Found {
        let store = self.store;
        if let Term::Or(x, y) = store.term(f) {
            let p = self.implication(x, g, fuel)?;
            let q = self.implication(y, g, fuel)?;
            return Ok(store.by_two(21, f, g, p, q));
        }
        if let Term::And(x, y) = store.term(g) {
            let p = self.implication(f, x, fuel)?;
            let q = self.implication(f, y, fuel)?;
            return Ok(store.by_two(18, f, g, p, q));
        }
        if let Some(p) = store.extract(f, g) {
            return Ok(p);
        }
        if let Some(p) = tried(self.contradiction(f, fuel, DEPTH))? {
            return Ok(store.then(p, store.by_axiom(15, FALSE, g)));
        }
        let parts = store.conjuncts(f);
        if let Some(p) = tried(self.by_parts(f, &parts, g, fuel))? {
            return Ok(p);
        }
        if let Some(o) = parts
            .iter()
            .copied()
            .find(|c| matches!(store.term(*c), Term::Or(_, _)))
        {
            return self.by_own_cases(f, &parts, o, g, fuel);
        }
        self.by_literal_cases(f, &parts, g, fuel)
    }

    // The goal's cases, else f's parts.
    fn by_parts(&self, f: TermId, parts: &Vec<TermId>, g: TermId, fuel: u32) -> Found {
        let store = self.store;
        if let Term::Or(x, y) = store.term(g) {
            if let Some(p) = tried(self.implication(f, x, fuel))? {
                return Ok(store.by_one(19, f, g, p));
            }
            let p = self.implication(f, y, fuel)?;
            return Ok(store.by_one(20, f, g, p));
        }
        for c in parts {
            if *c != f {
                if let Some(p) = tried(self.implication(*c, g, fuel))? {
                    let part = wanted(store.extract(f, *c))?;
                    return Ok(store.then(part, p));
                }
            }
        }
        if parts.len() == 1 {
            return self.between_literals(f, g, fuel);
        }
        Err(Stop::NotFound)
    }

    // f's own cases: c and (x or y)
    fn by_own_cases(
        &self,
        f: TermId,
        parts: &Vec<TermId>,
        o: TermId,
        g: TermId,
        fuel: u32,
    ) -> Found {
        let store = self.store;
        let Term::Or(x, y) = store.term(o) else {
            return Err(Stop::NotFound);
        };
        let mut rest: Option<TermId> = None;
        for c in parts {
            if *c != o {
                rest = Some(match rest {
                    None => *c,
                    Some(r) => store.and(r, *c),
                });
            }
        }
        let rest = wanted(rest)?;
        let so_far = wanted(store.gather(f, store.and(rest, o)))?;
        let so_far = store.then(
            so_far,
            store.by_axiom(
                41,
                so_far.right,
                store.or(store.and(rest, x), store.and(rest, y)),
            ),
        );
        let n = self.normal_form(so_far.right);
        let p = self.implication(n.right(), g, fuel)?;
        Ok(store.in_turn(so_far, n.forth, p))
    }

    // A case of the goal that is or isn't: f => (f and not literal) or (f and literal)
    fn by_literal_cases(&self, f: TermId, parts: &Vec<TermId>, g: TermId, fuel: u32) -> Found {
        let store = self.store;
        if fuel == 0 || !matches!(store.term(g), Term::Or(_, _)) {
            return Err(Stop::NotFound);
        }
        for d in &store.disjuncts(g) {
            for literal in &store.conjuncts(*d) {
                if let Some(p) = tried(self.by_literal(f, parts, *literal, g, fuel))? {
                    return Ok(p);
                }
            }
        }
        Err(Stop::NotFound)
    }

    // The same for one literal.
    fn by_literal(
        &self,
        f: TermId,
        parts: &Vec<TermId>,
        part: TermId,
        g: TermId,
        fuel: u32,
    ) -> Found {
        let store = self.store;
        let (literal, not_literal) = match store.term(part) {
            Term::Not(x) => (x, part),
            _ => (part, store.not(part)),
        };
        if !matches!(store.term(literal), Term::Inclusion(_, _))
            || parts.contains(&literal)
            || parts.contains(&not_literal)
        {
            return Err(Stop::NotFound);
        }
        // true = not false = not (literal and not literal) = not literal or not not literal
        let both = store.and(literal, not_literal);
        let case = store.or(not_literal, store.not(not_literal));
        let so_far = store.by_axiom(45, TRUE, store.not(FALSE));
        let so_far = store.then(so_far, store.in_not(store.by_axiom(47, both, FALSE)));
        let so_far = store.then(so_far, store.by_axiom(39, so_far.right, case));
        let so_far = store.then(store.by_axiom(14, f, TRUE), so_far);
        let so_far = store.by_two(18, f, store.and(f, case), store.reflexive(f), so_far);
        let split = store.or(
            store.and(f, not_literal),
            store.and(f, store.not(not_literal)),
        );
        let so_far = store.then(so_far, store.by_axiom(41, so_far.right, split));
        let n = self.normal_form(so_far.right);
        let p = self.implication(n.right(), g, less(fuel))?;
        Ok(store.in_turn(so_far, n.forth, p))
    }

    // One "p in V" or "not (p in V)" from another.
    fn between_literals(&self, f: TermId, g: TermId, fuel: u32) -> Found {
        let store = self.store;
        if fuel == 0 {
            return Err(Stop::NotFound);
        }
        match (store.term(f), store.term(g)) {
            (Term::Not(x), Term::Not(y)) => {
                let p = self.implication(y, x, fuel)?;
                Ok(store.in_not(p))
            }
            (Term::Inclusion(_, _), Term::Inclusion(_, _)) => {
                let p = wanted(store.empty_of(g))?;
                let q = wanted(store.empty_of(f))?;
                self.found(p, q, fuel)
            }
            _ => Err(Stop::NotFound),
        }
    }

    // (q in V) => (p in V): some p has some q.
    fn found(&self, p: TermId, q: TermId, fuel: u32) -> Found {
        let store = self.store;
        if let Some(so_far) = tried(self.containment(p, q, less(fuel)))? {
            return Ok(store.in_empty(so_far));
        }
        // rules 22 and 23: one further away, one near
        if let Some((rule, far)) = self.further(q) {
            if let Some(so_far) = tried(self.found_near(p, far, fuel))? {
                return Ok(store.then(
                    store.by_axiom(rule, store.empty(q), store.empty(far)),
                    so_far,
                ));
            }
        }
        self.found_in_places(p, q, fuel)
    }

    // The same without rules 22 and 23.
    fn found_near(&self, p: TermId, q: TermId, fuel: u32) -> Found {
        let store = self.store;
        if let Some(so_far) = tried(self.containment(p, q, less(fuel)))? {
            return Ok(store.in_empty(so_far));
        }
        self.found_in_places(p, q, fuel)
    }

    // The path to one further away, and the rule that says that there is one near then.
    fn further(&self, q: TermId) -> Option<(u16, TermId)> {
        let store = self.store;
        match store.term(q) {
            Term::Step(Axis::Child, n, _) if n == NodeTest::Node || n == NodeTest::Star => Some((
                22,
                store.step(Axis::Descendant, n, 0),
            )),
            Term::Step(Axis::Parent, n, _) if n == NodeTest::Node || n == NodeTest::Star => Some((
                23,
                store.step(Axis::Ancestor, n, 0),
            )),
            _ => None,
        }
    }

    // (q in V) = (s in V), s being q's first step with the rest as its filter.
    pub(crate) fn one_step(&self, q: TermId) -> Option<Equality> {
        let store = self.store;
        let so_far = self.regroup(q, 1)?;
        let Term::Composition(first, rest) = store.term(so_far.right()) else {
            return None;
        };
        let at = store.filter(first, store.some(rest));
        let so_far = store.equal_then(
            store.equal_empty(so_far),
            store.equal_by(38, store.empty(so_far.right()), store.empty(at)),
        );
        Some(store.equal_then(so_far, store.equal_empty(self.normal_form(at))))
    }

    // The same by a place of q's pattern in p.
    fn found_in_places(&self, p: TermId, q: TermId, fuel: u32) -> Found {
        let store = self.store;
        if matches!(store.term(p), Term::Union(_, _))
            || matches!(store.term(q), Term::Union(_, _))
        {
            return Err(Stop::NotFound);
        }
        let mut starts = Vec::new(store.alloc());
        self.places(store.reflexive(store.empty(p)), 2, &mut starts)?;
        // q's first step with the rest as its filter, and without
        let one = self.one_step(q);
        for start in &starts {
            let (c, to_p) = *start;
            if let Some(so_far) = tried(self.containment(c, q, less(fuel)))? {
                return Ok(store.then(store.in_empty(so_far), to_p));
            }
            if let Some(one) = one {
                if let Some(goal) = store.empty_of(one.right()) {
                    if let Some(so_far) = tried(self.containment(c, goal, less(fuel)))? {
                        return Ok(store.in_turn(one.forth, store.in_empty(so_far), to_p));
                    }
                }
            }
        }
        Err(Stop::NotFound)
    }

    // Chains c to the places of q's pattern, with what follows as a filter: (c in V) => (p in V), where `known` says
    // that (q in V) => (p in V).
    #[cycle(places)]
    fn places(&self, known: Proof, depth: u32, out: &mut Vec<(TermId, Proof)>) -> Result<(), Stop> {
        let store = self.store;
        let Some(p) = store.empty_of(known.left) else {
            return Ok(());
        };
        self.places_from(p, known, depth, out)?;
        let n = store.chain_steps(p).len();
        for at in 1..n {
            if let Some((c, to)) = self.place_at(p, at, known) {
                self.places_from(c, to, depth, out)?;
            }
        }
        Ok(())
    }

    // The place after `at` steps of p.
    fn place_at(&self, p: TermId, at: usize, known: Proof) -> Option<(TermId, Proof)> {
        let store = self.store;
        let so_far = self.regroup(p, at)?;
        let Term::Composition(before, rest) = store.term(so_far.right()) else {
            return None;
        };
        let told = store.filter(before, store.some(rest));
        let to = store.in_turn(
            store.by_axiom(38, store.empty(told), store.empty(so_far.right())),
            store.in_empty(so_far.forth),
            known,
        );
        let n = self.normal_form(told);
        Some((n.right(), store.then(store.in_empty(n.forth), to)))
    }

    // The chain c, and those to the places of its last filter.
    #[cycle(places)]
    fn places_from(
        &self,
        c: TermId,
        to: Proof,
        depth: u32,
        out: &mut Vec<(TermId, Proof)>,
    ) -> Result<(), Stop> {
        let store = self.store;
        if out.push((c, to)).is_err() {
            store.note_full();
        }
        let Some(shallower) = depth.checked_sub(1) else {
            return Ok(());
        };
        if out.len() > PLACES {
            return Ok(());
        }
        if let Some(so_far) = tried(self.near_child(c))? {
            self.places(store.then(so_far, to), shallower, out)?;
        }
        let Some(f) = store.unfilter(store.split(c).1).1 else {
            return Ok(());
        };
        for g in &store.conjuncts(f) {
            if let Some(so_far) = self.place_in(c, f, *g) {
                self.places(store.then(so_far, to), shallower, out)?;
            }
        }
        Ok(())
    }

    // For c = P/descendant::N[f]: (P/descendant-or-self::node()/child::N[f] in V) => (c in V). What is below has a
    // parent (rules 59, 23), and that is or is below the node it is below (rule 49).
    fn near_child(&self, c: TermId) -> Found {
        let store = self.store;
        let (before, s) = store.split(c);
        let (bare, _) = store.unfilter(s);
        let Term::Step(Axis::Descendant, _, _) = store.term(bare) else {
            return Err(Stop::NotFound);
        };
        let p = self.by_way_back(
            s,
            store.reflexive(s),
            store.some(store.node(Axis::Parent)),
            2,
        )?;
        wanted(self.near_child_by(c, before, p))
    }

    // The same, where p says that s <= s[some parent::node()], s being c's last step.
    fn near_child_by(&self, c: TermId, before: Option<TermId>, p: Proof) -> Option<Proof> {
        let store = self.store;
        let up = store.node(Axis::Parent);
        let p = match before {
            Some(q) => {
                let p = store.in_composition(store.reflexive(q), p);
                store.then(
                    p,
                    store.by_axiom(37, p.right, store.filter(c, store.some(up))),
                )
            }
            None => p,
        };
        // (c/parent::node() in V) => (c[some parent::node()] in V) => (c in V)
        let far = store.composition(c, up);
        let so_far = store.then(
            store.by_axiom(38, store.empty(far), store.empty(p.right)),
            store.in_empty(p),
        );
        let n = self.normal_form(far);
        let so_far = store.then(store.in_empty(n.forth), so_far);
        // the normal form: P/descendant-or-self::node()[some child::N[f]]
        let (p, last) = store.split(n.right());
        let (any, f) = store.unfilter(last);
        let f = f?;
        let child = store.some_of(f)?;
        let plain = self.plain(p, any);
        let near = store.composition(plain, child);
        let told = store.filter(plain, f);
        let open = if p.is_some() {
            store.by_axiom(37, n.right(), told)
        } else {
            store.reflexive(told)
        };
        let so_far = store.in_turn(
            store.by_axiom(38, store.empty(near), store.empty(told)),
            store.in_empty(open),
            so_far,
        );
        let n = self.normal_form(near);
        Some(store.then(store.in_empty(n.forth), so_far))
    }

    // (c/q in V) => (c in V), for a conjunct "some q" of c's last filter
    fn place_in(&self, c: TermId, f: TermId, g: TermId) -> Option<Proof> {
        let store = self.store;
        let q = store.some_of(g)?;
        if matches!(store.term(q), Term::Union(_, _)) {
            return None;
        }
        // c <= c[some q], and that is c/q
        let own = self.own_filter(c, store.extract(f, g)?)?;
        let far = store.composition(c, q);
        let so_far = store.then(
            store.by_axiom(38, store.empty(far), store.empty(own.right)),
            store.in_empty(own),
        );
        let n = self.normal_form(far);
        Some(store.then(store.in_empty(n.forth), so_far))
    }
}
