// The goals that are open, and what was found.
use crate::goals::{Found, Goal, Kind, Outcome, Stop};
use search_forms::Forms;
use search_terms::{Equality, Proof, Store, TermId};
use std::alloc::AllocError;
use std::cell::RefCell;
use std::collections::{HashMap, HashSet};

// What was found, and what is being looked for.
#[derive(Drop)]
struct Memo {
    proved: HashMap<(TermId, TermId), Proof>,
    // What was not found with how much fuel.
    failed: HashMap<(TermId, TermId), u32>,
    open: HashSet<(TermId, TermId)>,
    // How many goals were opened, and how many may be.
    goals: u64,
    limit: u64,
}

impl Memo {
    // What is known of the goal without an attempt at it.
    fn known(&self, goal: Goal) -> Found {
        let ends = (goal.left, goal.right);
        if let Some(p) = self.proved.get(&ends) {
            return Ok(*p);
        }
        if self
            .failed
            .get(&ends)
            .is_some_and(|fuel| *fuel >= goal.fuel)
        {
            return Err(Stop::NotFound);
        }
        // A goal that is open already is given up.
        if self.goals > self.limit || self.open.contains(&ends) {
            return Err(Stop::NotFound);
        }
        Err(Stop::Asked(goal))
    }

    fn open(&mut self, goal: Goal) -> Result<(), AllocError> {
        self.open.insert((goal.left, goal.right))?;
        self.goals = self.goals.saturating_add(1);
        Ok(())
    }

    fn close(&mut self, goal: Goal, found: Option<Proof>) -> Result<(), AllocError> {
        let ends = (goal.left, goal.right);
        self.open.remove(&ends);
        match found {
            Some(p) => {
                self.proved.insert(ends, p)?;
            }
            None => {
                self.failed.insert(ends, goal.fuel)?;
            }
        }
        Ok(())
    }
}

/// A search among a store's terms.
#[derive(Drop)]
pub struct Search<'a> {
    pub(crate) store: &'a Store,
    forms: Forms<'a>,
    memo: RefCell<Memo>,
}

impl<'a> Search<'a> {
    /// A search that opens at most so many goals.
    pub fn new(store: &'a Store, limit: u64) -> Search<'a> {
        let alloc = store.alloc();
        Search {
            store,
            forms: Forms::new(store),
            memo: RefCell::new(Memo {
                proved: HashMap::new(alloc),
                failed: HashMap::new(alloc),
                open: HashSet::new(alloc),
                goals: 0,
                limit,
            }),
        }
    }

    pub(crate) fn normal_form(&self, x: TermId) -> Equality {
        self.forms.normal_form(x)
    }

    pub(crate) fn regroup(&self, p: TermId, n: usize) -> Option<Equality> {
        self.forms.regroup(p, n)
    }

    // What is known of the goal, by a rule without premises or by the memo.
    fn ask(&self, goal: Goal) -> Found {
        let store = self.store;
        if goal.left == goal.right {
            return Ok(store.reflexive(goal.left));
        }
        if let Some(rule) = store.axiom(goal.left, goal.right) {
            return Ok(store.by_axiom(rule, goal.left, goal.right));
        }
        match self.memo.try_borrow() {
            Ok(memo) => memo.known(goal),
            Err(_) => Err(Stop::NotFound),
        }
    }

    // left <= right, for paths in normal form.
    pub(crate) fn containment(&self, left: TermId, right: TermId, fuel: u32) -> Found {
        self.ask(Goal {
            kind: Kind::Path,
            left,
            right,
            fuel,
        })
    }

    // left => right.
    pub(crate) fn implication(&self, left: TermId, right: TermId, fuel: u32) -> Found {
        self.ask(Goal {
            kind: Kind::Qualifier,
            left,
            right,
            fuel,
        })
    }

    // One attempt at the goal.
    fn attempt(&self, goal: Goal) -> Found {
        match goal.kind {
            Kind::Contained => self.any_containment(goal.left, goal.right, goal.fuel),
            Kind::Path => self.path_containment(goal.left, goal.right, goal.fuel),
            Kind::Qualifier => self.qualifier_implication(goal.left, goal.right, goal.fuel),
        }
    }

    fn note_open(&self, goal: Goal) -> Result<(), AllocError> {
        match self.memo.try_borrow_mut() {
            Ok(mut memo) => memo.open(goal),
            Err(_) => Ok(()),
        }
    }

    fn note_closed(&self, goal: Goal, found: Option<Proof>) -> Result<(), AllocError> {
        match self.memo.try_borrow_mut() {
            Ok(mut memo) => memo.close(goal, found),
            Err(_) => Ok(()),
        }
    }

    // Whether more goals were asked for than may be.
    fn is_limited(&self) -> bool {
        match self.memo.try_borrow() {
            Ok(memo) => memo.goals > memo.limit,
            Err(_) => true,
        }
    }

    fn outcome(&self, found: Found) -> Outcome {
        match found {
            Ok(proof) => Outcome::Proved(proof),
            Err(_) if self.is_limited() => Outcome::Limited,
            Err(_) => Outcome::NotFound,
        }
    }

    /// The goal's proof, by at most so many attempts, at it and at those that it needs.
    pub fn solve(&self, goal: Goal, attempts: u64) -> Result<Outcome, AllocError> {
        let mut stack = Vec::new(self.store.alloc());
        stack.push(goal)?;
        for _ in 0..attempts {
            let Some(top) = stack.last().copied() else {
                return Ok(Outcome::NotFound);
            };
            match self.attempt(top) {
                Err(Stop::Asked(next)) => {
                    self.note_open(next)?;
                    stack.push(next)?;
                }
                found => {
                    stack.pop();
                    if stack.is_empty() {
                        return Ok(self.outcome(found));
                    }
                    self.note_closed(top, found.ok())?;
                }
            }
        }
        Ok(Outcome::Limited)
    }
}
