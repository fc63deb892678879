// The store of terms and steps.
use crate::term::{Proof, ProofStep, Term, TermId, VOID};
use common::axis::Axis;
use common::node_test::NodeTest;
use std::alloc::{AllocError, Global};
use std::cell::RefCell;
use std::collections::HashMap;

// The most terms, and the most steps: with what finds them again each takes some 100 bytes.
const MOST: usize = 1 << 17;

#[derive(Drop)]
struct Tables {
    terms: Vec<Term>,
    ids: HashMap<(u32, u32, u32, u32), TermId>,
    steps: Vec<ProofStep>,
    // The first step that says of two terms that one is below the other.
    known: HashMap<(TermId, TermId), u32>,
    // Whether something had no room. What was asked for is then made up.
    is_full: bool,
}

impl Tables {
    fn put_term(&mut self, t: Term) -> TermId {
        if let Some(id) = self.ids.get(&t.key()) {
            return *id;
        }
        let n = self.terms.len();
        if n >= MOST || self.terms.push(t).is_err() {
            self.is_full = true;
            return VOID;
        }
        let id = n as TermId;
        if self.ids.insert(t.key(), id).is_err() {
            self.is_full = true;
        }
        id
    }

    fn put_step(&mut self, step: ProofStep) -> u32 {
        let ends = (step.left, step.right);
        if let Some(n) = self.known.get(&ends) {
            return *n;
        }
        let n = self.steps.len();
        if n >= MOST || self.steps.push(step).is_err() {
            self.is_full = true;
            return 0;
        }
        let number = n as u32 + 1;
        if self.known.insert(ends, number).is_err() {
            self.is_full = true;
        }
        number
    }
}

/// Terms and steps, each by its place.
#[derive(Drop)]
pub struct Store {
    alloc: Global,
    tables: RefCell<Tables>,
}

// Marks place n, where there is one.
fn mark(marks: &mut Vec<bool>, n: u32) {
    let n = n as usize;
    if n < marks.len() {
        marks[n] = true;
    }
}

fn number_at(numbers: &Vec<u32>, n: u32) -> u32 {
    numbers.get(n as usize).copied().unwrap_or(0)
}

impl Store {
    pub fn new(alloc: Global) -> Store {
        let store = Store {
            alloc,
            tables: RefCell::new(Tables {
                terms: Vec::new(alloc),
                ids: HashMap::new(alloc),
                steps: Vec::new(alloc),
                known: HashMap::new(alloc),
                is_full: false,
            }),
        };
        store.make(Term::Void);
        store.make(Term::Root);
        store.make(Term::True);
        store.make(Term::False);
        store.make(Term::Step(Axis::Itself, NodeTest::Node, 0));
        store
    }

    /// The allocator that all of a search takes memory from.
    pub fn alloc(&self) -> Global {
        self.alloc
    }

    /// Whether something found no room: then what was made since may say nothing.
    pub fn is_full(&self) -> bool {
        match self.tables.try_borrow() {
            Ok(tables) => tables.is_full,
            Err(_) => true,
        }
    }

    /// Notes that something found no room.
    pub fn note_full(&self) {
        if let Ok(mut tables) = self.tables.try_borrow_mut() {
            tables.is_full = true;
        }
    }

    /// The place of the term, which is put if the store has none like it.
    pub fn make(&self, t: Term) -> TermId {
        match self.tables.try_borrow_mut() {
            Ok(mut tables) => tables.put_term(t),
            Err(_) => VOID,
        }
    }

    /// The term at a place; the void path where there is none.
    pub fn term(&self, id: TermId) -> Term {
        match self.tables.try_borrow() {
            Ok(tables) => tables.terms.get(id as usize).copied().unwrap_or(Term::Void),
            Err(_) => Term::Void,
        }
    }

    /// Below, a term each of these operands.
    pub fn step(&self, axis: Axis, test: NodeTest, name: u16) -> TermId {
        self.make(Term::Step(axis, test, name))
    }

    /// The step along the axis to every node.
    pub fn node(&self, axis: Axis) -> TermId {
        self.step(axis, NodeTest::Node, 0)
    }

    pub fn union(&self, p: TermId, q: TermId) -> TermId {
        self.make(Term::Union(p, q))
    }

    pub fn composition(&self, p: TermId, q: TermId) -> TermId {
        self.make(Term::Composition(p, q))
    }

    pub fn filter(&self, p: TermId, f: TermId) -> TermId {
        self.make(Term::Filter(p, f))
    }

    pub fn not(&self, f: TermId) -> TermId {
        self.make(Term::Not(f))
    }

    pub fn and(&self, f: TermId, g: TermId) -> TermId {
        self.make(Term::And(f, g))
    }

    pub fn or(&self, f: TermId, g: TermId) -> TermId {
        self.make(Term::Or(f, g))
    }

    /// "p in V": p finds nothing.
    pub fn empty(&self, p: TermId) -> TermId {
        self.make(Term::Inclusion(p, VOID))
    }

    /// "some p": p finds a node, as `not (p in V)`.
    pub fn some(&self, p: TermId) -> TermId {
        self.not(self.empty(p))
    }

    /// p of "some p".
    pub fn some_of(&self, f: TermId) -> Option<TermId> {
        match self.term(f) {
            Term::Not(g) => self.empty_of(g),
            _ => None,
        }
    }

    /// p of "p in V".
    pub fn empty_of(&self, f: TermId) -> Option<TermId> {
        match self.term(f) {
            Term::Inclusion(p, VOID) => Some(p),
            _ => None,
        }
    }

    /// That x is below itself, which needs no step yet.
    pub fn reflexive(&self, x: TermId) -> Proof {
        Proof {
            left: x,
            right: x,
            step: 0,
        }
    }

    // A step; where its two terms have one already, that one is the proof.
    fn add(&self, rule: u16, left: TermId, right: TermId, first: u32, second: u32) -> Proof {
        let made = ProofStep {
            rule,
            left,
            right,
            first,
            second,
        };
        let step = match self.tables.try_borrow_mut() {
            Ok(mut tables) => tables.put_step(made),
            Err(_) => 0,
        };
        Proof { left, right, step }
    }

    /// The step's number; a step by rule 2 is made for a proof that has none yet.
    pub fn step_number(&self, p: Proof) -> u32 {
        if p.step == 0 {
            self.add(2, p.left, p.left, 0, 0).step
        } else {
            p.step
        }
    }

    /// The step that says so already, if there is one.
    pub fn proof_known(&self, left: TermId, right: TermId) -> Option<Proof> {
        match self.tables.try_borrow() {
            Ok(tables) => tables.known.get(&(left, right)).map(|step| Proof {
                left,
                right,
                step: *step,
            }),
            Err(_) => None,
        }
    }

    // Step n, counted from 1.
    fn step_at(&self, n: u32) -> Option<ProofStep> {
        let place = (n as usize).checked_sub(1)?;
        match self.tables.try_borrow() {
            Ok(tables) => tables.steps.get(place).copied(),
            Err(_) => None,
        }
    }

    /// The step that proves p, if it has one.
    pub fn step_of(&self, p: Proof) -> Option<ProofStep> {
        self.step_at(p.step)
    }

    /// What step n proves.
    pub fn proof_of(&self, n: u32) -> Proof {
        match self.step_at(n) {
            Some(s) if s.left != s.right => Proof {
                left: s.left,
                right: s.right,
                step: n,
            },
            Some(s) => self.reflexive(s.left),
            None => self.reflexive(VOID),
        }
    }

    /// Drops all steps, and keeps the terms.
    pub fn forget_steps(&self) {
        if let Ok(mut tables) = self.tables.try_borrow_mut() {
            tables.steps.clear();
            tables.known.clear();
        }
    }

    /// The steps that the proof needs, in order, the proof's own last, with premises numbered anew.
    pub fn needed(&self, proof: Proof) -> Result<Vec<ProofStep>, AllocError> {
        let last = self.step_number(proof);
        let mut out = Vec::new(self.alloc);
        let Ok(tables) = self.tables.try_borrow() else {
            return Ok(out);
        };
        let steps = tables.steps.as_slice();
        let mut needed = vec![in self.alloc; false; steps.len() + 1]?;
        mark(&mut needed, last);
        for (i, s) in steps.iter().enumerate().rev() {
            if needed.get(i + 1).copied().unwrap_or(false) {
                mark(&mut needed, s.first);
                mark(&mut needed, s.second);
            }
        }
        let mut numbers = vec![in self.alloc; 0u32; steps.len() + 1]?;
        let mut count = 0u32;
        for (i, s) in steps.iter().enumerate() {
            if needed.get(i + 1).copied().unwrap_or(false) {
                let first = number_at(&numbers, s.first);
                let second = number_at(&numbers, s.second);
                out.push(ProofStep {
                    first,
                    second,
                    ..*s
                })?;
                count = count.saturating_add(1);
                if i + 1 < numbers.len() {
                    numbers[i + 1] = count;
                }
            }
        }
        Ok(out)
    }

    /// A step by a rule without premises; below, with one and with two.
    pub fn by_axiom(&self, rule: u16, left: TermId, right: TermId) -> Proof {
        self.add(rule, left, right, 0, 0)
    }

    pub fn by_one(&self, rule: u16, left: TermId, right: TermId, p: Proof) -> Proof {
        self.add(rule, left, right, self.step_number(p), 0)
    }

    pub fn by_two(&self, rule: u16, left: TermId, right: TermId, p: Proof, q: Proof) -> Proof {
        self.add(rule, left, right, self.step_number(p), self.step_number(q))
    }

    /// p and then q, by rule 3 or by less.
    pub fn then(&self, p: Proof, q: Proof) -> Proof {
        if p.step == 0 {
            return q;
        }
        if q.step == 0 {
            return p;
        }
        if p.left == q.right {
            return self.reflexive(p.left);
        }
        if let Some(rule) = self.axiom(p.left, q.right) {
            return self.by_axiom(rule, p.left, q.right);
        }
        self.by_two(3, p.left, q.right, p, q)
    }

    /// p, then q, then r.
    pub fn in_turn(&self, p: Proof, q: Proof, r: Proof) -> Proof {
        self.then(self.then(p, q), r)
    }

    /// p on the left and q on the right of a composition, by rule 7; below, the same of the other terms with operands.
    pub fn in_composition(&self, p: Proof, q: Proof) -> Proof {
        let left = self.composition(p.left, q.left);
        let right = self.composition(p.right, q.right);
        if left == right {
            return self.reflexive(left);
        }
        self.by_two(7, left, right, p, q)
    }

    pub fn in_filter(&self, p: Proof, f: Proof) -> Proof {
        let left = self.filter(p.left, f.left);
        let right = self.filter(p.right, f.right);
        if left == right {
            return self.reflexive(left);
        }
        self.by_two(9, left, right, p, f)
    }

    pub fn in_union(&self, p: Proof, q: Proof) -> Proof {
        let left = self.union(p.left, q.left);
        let right = self.union(p.right, q.right);
        if left == right {
            return self.reflexive(left);
        }
        self.by_two(
            6,
            left,
            right,
            self.by_one(4, p.left, right, p),
            self.by_one(5, q.left, right, q),
        )
    }

    pub fn in_and(&self, f: Proof, g: Proof) -> Proof {
        let left = self.and(f.left, g.left);
        let right = self.and(f.right, g.right);
        if left == right {
            return self.reflexive(left);
        }
        self.by_two(
            18,
            left,
            right,
            self.by_one(17, left, f.right, f),
            self.by_one(16, left, g.right, g),
        )
    }

    pub fn in_or(&self, f: Proof, g: Proof) -> Proof {
        let left = self.or(f.left, g.left);
        let right = self.or(f.right, g.right);
        if left == right {
            return self.reflexive(left);
        }
        self.by_two(
            21,
            left,
            right,
            self.by_one(19, f.left, right, f),
            self.by_one(20, g.left, right, g),
        )
    }

    /// From f => g: not g => not f.
    pub fn in_not(&self, f: Proof) -> Proof {
        let left = self.not(f.right);
        let right = self.not(f.left);
        if left == right {
            return self.reflexive(left);
        }
        self.by_one(13, left, right, f)
    }

    /// From p <= q: (q in V) => (p in V).
    pub fn in_empty(&self, p: Proof) -> Proof {
        let left = self.empty(p.right);
        let right = self.empty(p.left);
        if left == right {
            return self.reflexive(left);
        }
        self.by_two(12, left, right, p, self.by_axiom(1, VOID, VOID))
    }
}
