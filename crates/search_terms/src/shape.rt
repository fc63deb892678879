// The parts of terms.
use crate::store::Store;
use crate::term::{Proof, TRUE, Term, TermId};
use common::row_kind::RowKind;

// The most parts of a term that are looked at, and how deep they are.
const PARTS: usize = 4096;

const DEPTH: u32 = 64;

// The operands of a term of that kind.
fn joined_by(kind: RowKind, t: Term) -> Option<(TermId, TermId)> {
    match (kind, t) {
        (RowKind::And, Term::And(a, b)) => Some((a, b)),
        (RowKind::Or, Term::Or(a, b)) => Some((a, b)),
        (RowKind::Union, Term::Union(a, b)) => Some((a, b)),
        _ => None,
    }
}

impl Store {
    /// A path without its last step, and that step.
    pub fn split(&self, p: TermId) -> (Option<TermId>, TermId) {
        match self.term(p) {
            Term::Composition(a, b) => (Some(a), b),
            _ => (None, p),
        }
    }

    /// A step without its filter, and the filter.
    pub fn unfilter(&self, s: TermId) -> (TermId, Option<TermId>) {
        match self.term(s) {
            Term::Filter(p, f) => (p, Some(f)),
            _ => (s, None),
        }
    }

    // Appends x, or notes that there is no room.
    fn put(&self, out: &mut Vec<TermId>, x: TermId) {
        if out.push(x).is_err() {
            self.note_full();
        }
    }

    // The parts of a term that are joined by that kind, in order.
    fn parts(&self, kind: RowKind, whole: TermId) -> Vec<TermId> {
        let mut out = Vec::new(self.alloc());
        let mut pending = Vec::new(self.alloc());
        self.put(&mut pending, whole);
        for _ in 0..PARTS {
            let Some(x) = pending.pop() else { break };
            match joined_by(kind, self.term(x)) {
                Some((a, b)) => {
                    self.put(&mut pending, b);
                    self.put(&mut pending, a);
                }
                None => self.put(&mut out, x),
            }
        }
        out
    }

    /// The parts joined by `and`.
    pub fn conjuncts(&self, f: TermId) -> Vec<TermId> {
        self.parts(RowKind::And, f)
    }

    /// The parts joined by `or`.
    pub fn disjuncts(&self, f: TermId) -> Vec<TermId> {
        self.parts(RowKind::Or, f)
    }

    /// The parts joined by `|`.
    pub fn members(&self, p: TermId) -> Vec<TermId> {
        self.parts(RowKind::Union, p)
    }

    /// The steps of a chain.
    pub fn chain_steps(&self, p: TermId) -> Vec<TermId> {
        let mut out = Vec::new(self.alloc());
        let mut at = p;
        for _ in 0..PARTS {
            let (before, last) = self.split(at);
            self.put(&mut out, last);
            let Some(a) = before else { break };
            at = a;
        }
        out.reverse();
        out
    }

    /// Whether a step of the chain has a filter.
    pub fn has_filter(&self, p: TermId) -> bool {
        self.chain_steps(p)
            .iter()
            .any(|s| self.unfilter(*s).1.is_some())
    }

    /// f => one of its conjuncts.
    pub fn extract(&self, f: TermId, part: TermId) -> Option<Proof> {
        self.extract_in(f, part, DEPTH)
    }

    fn extract_in(&self, f: TermId, part: TermId, depth: u32) -> Option<Proof> {
        if f == part {
            return Some(self.reflexive(f));
        }
        if part == TRUE {
            return Some(self.by_axiom(14, f, part));
        }
        let shallower = depth.checked_sub(1)?;
        let Term::And(a, b) = self.term(f) else {
            return None
        };
        if let Some(p) = self.extract_in(a, part, shallower) {
            return Some(self.by_one(17, f, part, p));
        }
        self.extract_in(b, part, shallower)
            .map(|p| self.by_one(16, f, part, p))
    }

    /// f => g, a conjunction of conjuncts of f.
    pub fn gather(&self, f: TermId, g: TermId) -> Option<Proof> {
        self.gather_in(f, g, DEPTH)
    }

    fn gather_in(&self, f: TermId, g: TermId, depth: u32) -> Option<Proof> {
        if f != g {
            if let Term::And(a, b) = self.term(g) {
                let shallower = depth.checked_sub(1)?;
                let p = self.gather_in(f, a, shallower)?;
                let q = self.gather_in(f, b, shallower)?;
                return Some(self.by_two(18, f, g, p, q));
            }
        }
        self.extract(f, g)
    }

    /// One of g's disjuncts => g.
    pub fn inject(&self, part: TermId, g: TermId) -> Option<Proof> {
        self.inject_in(part, g, DEPTH)
    }

    fn inject_in(&self, part: TermId, g: TermId, depth: u32) -> Option<Proof> {
        if part == g {
            return Some(self.reflexive(g));
        }
        let shallower = depth.checked_sub(1)?;
        let Term::Or(a, b) = self.term(g) else {
            return None
        };
        if let Some(p) = self.inject_in(part, a, shallower) {
            return Some(self.by_one(19, part, g, p));
        }
        self.inject_in(part, b, shallower)
            .map(|p| self.by_one(20, part, g, p))
    }

    /// f => g, where each of f's disjuncts is one of g's.
    pub fn scatter(&self, f: TermId, g: TermId) -> Option<Proof> {
        self.scatter_in(f, g, DEPTH)
    }

    fn scatter_in(&self, f: TermId, g: TermId, depth: u32) -> Option<Proof> {
        match self.term(f) {
            Term::Or(a, b) if f != g => {
                let shallower = depth.checked_sub(1)?;
                let p = self.scatter_in(a, g, shallower)?;
                let q = self.scatter_in(b, g, shallower)?;
                Some(self.by_two(21, f, g, p, q))
            }
            Term::False => Some(self.by_axiom(15, f, g)),
            _ => self.inject(f, g),
        }
    }
}
