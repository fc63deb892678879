// Goals on paths, by their members.
use crate::goals::{Found, Stop, less, tried, wanted};
use crate::search::Search;
use common::axis::Axis;
use search_terms::{FALSE, Proof, ROOT, TRUE, Term, TermId, VOID};

// How deep terms are looked into.
const DEPTH: u32 = 64;

impl<'a> Search<'a> {
    // old <= new, for paths of any form, by their normal forms.
    pub(crate) fn any_containment(&self, old: TermId, new: TermId, fuel: u32) -> Found {
        let store = self.store;
        let o = self.normal_form(old);
        let n = self.normal_form(new);
        let p = self.each(o.right(), n.right(), fuel, DEPTH)?;
        Ok(store.in_turn(o.forth, p, n.back))
    }

    // Each member of a, with what follows its steps as filters where it needs that.
    fn each(&self, a: TermId, b: TermId, fuel: u32, depth: u32) -> Found {
        let store = self.store;
        if let Some(p) = tried(self.containment(a, b, fuel))? {
            return Ok(p);
        }
        if let Term::Union(x, y) = store.term(a) {
            let Some(shallower) = depth.checked_sub(1) else {
                return Err(Stop::NotFound);
            };
            let p = self.each(x, b, fuel, shallower)?;
            let q = self.each(y, b, fuel, shallower)?;
            return Ok(store.by_two(6, a, b, p, q));
        }
        if fuel < 3 || !store.members(b).iter().any(|m| store.has_filter(*m)) {
            return Err(Stop::NotFound);
        }
        let told = self.saturated(a, DEPTH);
        let p = self.containment(told.right, b, fuel)?;
        Ok(store.then(told, p))
    }

    // A chain with what follows each step as a filter of it too: p/s <= p[some s]/s, by rule 11.
    fn saturated(&self, a: TermId, depth: u32) -> Proof {
        let store = self.store;
        let Term::Composition(p, s) = store.term(a) else {
            return store.reflexive(a);
        };
        let Some(shallower) = depth.checked_sub(1) else {
            return store.reflexive(a);
        };
        if p == ROOT {
            return store.reflexive(a);
        }
        let told = self.normal_form(store.filter(p, store.some(s))).forth;
        let more = self.saturated(told.right, shallower);
        let told = store.then(told, more);
        store.by_two(
            11,
            a,
            store.composition(told.right, s),
            told,
            store.reflexive(s),
        )
    }

    // One path below another, both in normal form.
    pub(crate) fn path_containment(&self, a: TermId, b: TermId, fuel: u32) -> Found {
        let store = self.store;
        if let Term::Union(x, y) = store.term(a) {
            let p = self.containment(x, b, fuel)?;
            let q = self.containment(y, b, fuel)?;
            return Ok(store.by_two(6, a, b, p, q));
        }
        if let Some(p) = tried(self.void(a, fuel))? {
            return Ok(store.then(p, store.by_axiom(1, VOID, b)));
        }
        if b == VOID {
            return Err(Stop::NotFound);
        }
        if let Term::Union(x, y) = store.term(b) {
            if let Some(p) = tried(self.containment(a, x, fuel))? {
                return Ok(store.by_one(4, a, b, p));
            }
            if let Some(p) = tried(self.containment(a, y, fuel))? {
                return Ok(store.by_one(5, a, b, p));
            }
            if let Some(p) = tried(self.by_cases(a, b, fuel))? {
                return Ok(p);
            }
        } else if let Some(p) = tried(self.chain_containment(a, b, fuel))? {
            return Ok(p);
        }
        let parts = wanted(self.split_left(a))?;
        let p = self.containment(parts.right, b, fuel)?;
        Ok(store.then(parts, p))
    }

    // A member of a union without the filter of its last step, and that filter.
    fn stripped(&self, m: TermId) -> (TermId, TermId) {
        let store = self.store;
        let (before, last) = store.split(m);
        let (bare, f) = store.unfilter(last);
        (self.plain(before, bare), f.unwrap_or(TRUE))
    }

    // Some members of the union b are r[g1], r[g2] ..: they are r[g1 or g2 ..] by rule 32.
    fn by_cases(&self, a: TermId, b: TermId, fuel: u32) -> Found {
        let store = self.store;
        let members = store.members(b);
        let mut done: Vec<TermId> = Vec::new(store.alloc());
        for m in &members {
            let plain = self.stripped(*m).0;
            if done.contains(&plain) {
                continue;
            }
            if done.push(plain).is_err() {
                store.note_full();
            }
            if let Some(whole) = self.cases_of(&members, plain, b)? {
                let n = self.normal_form(whole.left);
                if let Some(p) = tried(self.containment(a, n.right(), fuel))? {
                    return Ok(store.in_turn(p, n.back, whole));
                }
            }
        }
        Err(Stop::NotFound)
    }

    // r[g1 or .. or gn] <= b, where at least two members are r with a filter.
    fn cases_of(
        &self,
        members: &Vec<TermId>,
        plain: TermId,
        b: TermId,
    ) -> Result<Option<Proof>, Stop> {
        let store = self.store;
        let mut whole: Option<Proof> = None;
        let mut count = 0u32;
        for m in members {
            let (stripped, g) = self.stripped(*m);
            if stripped != plain {
                continue;
            }
            count = count.saturating_add(1);
            let one = store.filter(plain, g);
            let form = self.normal_form(one).forth;
            if form.right != *m {
                return Err(Stop::NotFound);
            }
            let into = wanted(self.into_union(*m, b, DEPTH))?;
            let to = store.then(form, into);
            whole = Some(match whole {
                None => to,
                Some(w) => self.one_case_more(plain, w, g, to, b),
            });
        }
        Ok(if count < 2 { None } else { whole })
    }

    // r[f or g] <= b, from r[f] <= b and r[g] <= b
    fn one_case_more(&self, plain: TermId, w: Proof, g: TermId, to: Proof, b: TermId) -> Proof {
        let store = self.store;
        let Term::Filter(_, f) = store.term(w.left) else {
            return w
        };
        let both = store.union(w.left, to.left);
        let split = store.by_axiom(32, store.filter(plain, store.or(f, g)), both);
        store.then(split, store.by_two(6, both, b, w, to))
    }

    // m <= b, m being a member of b.
    fn into_union(&self, m: TermId, b: TermId, depth: u32) -> Option<Proof> {
        let store = self.store;
        if m == b {
            return Some(store.reflexive(b));
        }
        let shallower = depth.checked_sub(1)?;
        let Term::Union(x, y) = store.term(b) else {
            return None;
        };
        if let Some(p) = self.into_union(m, x, shallower) {
            return Some(store.by_one(4, m, b, p));
        }
        let p = self.into_union(m, y, shallower)?;
        Some(store.by_one(5, m, b, p))
    }

    // p/s, or s where there is no p.
    pub(crate) fn plain(&self, p: Option<TermId>, s: TermId) -> TermId {
        match p {
            Some(p) => self.store.composition(p, s),
            None => s,
        }
    }

    // a <= V, where a's last filter is a contradiction.
    fn void(&self, a: TermId, fuel: u32) -> Found {
        let store = self.store;
        let (before, last) = store.split(a);
        let (bare, f) = store.unfilter(last);
        let f = wanted(f)?;
        let lie = self.contradiction(f, fuel, DEPTH)?;
        let plain = self.plain(before, bare);
        let so_far = match before {
            Some(_) => store.by_axiom(37, a, store.filter(plain, f)),
            None => store.reflexive(a),
        };
        if let Term::And(x, y) = store.term(f) {
            // rule 25 at once: x => not y
            let n = self.normal_form(store.not(y));
            if let Some(p) = tried(self.implication(x, n.right(), fuel))? {
                let p = store.then(p, n.back);
                return Ok(store.then(so_far, store.by_one(25, store.filter(plain, f), VOID, p)));
            }
        }
        let never = store.filter(plain, FALSE);
        Ok(store.in_turn(
            so_far,
            store.in_filter(store.reflexive(plain), lie),
            store.by_axiom(30, never, VOID),
        ))
    }

    // f => false
    pub(crate) fn contradiction(&self, f: TermId, fuel: u32, depth: u32) -> Found {
        let store = self.store;
        if fuel == 0 {
            return Err(Stop::NotFound);
        }
        if f == FALSE {
            return Ok(store.reflexive(f));
        }
        if let Term::Or(x, y) = store.term(f) {
            let Some(shallower) = depth.checked_sub(1) else {
                return Err(Stop::NotFound);
            };
            let p = self.contradiction(x, fuel, shallower)?;
            let q = self.contradiction(y, fuel, shallower)?;
            return Ok(store.by_two(21, f, FALSE, p, q));
        }
        let parts = store.conjuncts(f);
        for x in &parts {
            if store.empty_of(*x).is_none() {
                continue;
            }
            for y in &parts {
                if store.some_of(*y).is_none() {
                    continue;
                }
                // y => not x
                if let Some(p) = tried(self.implication(*y, store.not(*x), less(fuel)))? {
                    return self.lie(f, *x, *y, p);
                }
            }
        }
        Err(Stop::NotFound)
    }

    // f => false, from y => not x, for conjuncts x and y of f
    fn lie(&self, f: TermId, x: TermId, y: TermId, p: Proof) -> Found {
        let store = self.store;
        let both = store.and(x, store.not(x));
        let q = store.then(wanted(store.extract(f, y))?, p);
        let first = wanted(store.extract(f, x))?;
        Ok(store.then(
            store.by_two(18, f, both, first, q),
            store.by_axiom(47, both, FALSE),
        ))
    }

    // A step by its two cases.
    fn cases(&self, s: TermId) -> Option<Proof> {
        let store = self.store;
        let (bare, f) = store.unfilter(s);
        if let Some(f) = f {
            if let Term::Or(x, y) = store.term(f) {
                let u = store.union(store.filter(bare, x), store.filter(bare, y));
                return Some(store.by_axiom(32, s, u));
            }
        }
        let cases = match store.term(bare) {
            Term::Step(Axis::DescendantOrSelf, n, c) => {
                store.by_axiom(
                    52,
                    bare,
                    store.union(
                        store.step(Axis::Descendant, n, c),
                        store.step(Axis::Itself, n, c),
                    ),
                )
            }
            Term::Step(Axis::AncestorOrSelf, n, c) => {
                store.by_axiom(
                    53,
                    bare,
                    store.union(
                        store.step(Axis::Ancestor, n, c),
                        store.step(Axis::Itself, n, c),
                    ),
                )
            }
            _ => return None,
        };
        Some(match f {
            Some(f) => store.in_filter(cases, store.reflexive(f)),
            None => cases,
        })
    }

    // A wider form of a, a union: a step descendant-or-self or ancestor-or-self, or a filter with `or`, by its two
    // cases.
    fn split_left(&self, a: TermId) -> Option<Proof> {
        let store = self.store;
        let steps = store.chain_steps(a);
        let at = steps.iter().rposition(|s| self.cases(*s).is_some())?;
        let mut whole: Option<Proof> = None;
        for (i, s) in steps.iter().enumerate() {
            let q = if i == at {
                self.cases(*s)?
            } else {
                store.reflexive(*s)
            };
            whole = Some(match whole {
                None => q,
                Some(p) => store.in_composition(p, q),
            });
        }
        let p = whole?;
        Some(store.then(p, self.normal_form(p.right).forth))
    }

    // The steps as one chain.
    pub(crate) fn prefix(&self, steps: &[TermId]) -> TermId {
        let mut all: Option<TermId> = None;
        for s in steps {
            all = Some(self.plain(all, *s));
        }
        all.unwrap_or(VOID)
    }
}
