// Chains of containments.
use search_terms::{DOT, Proof, ProofStep, Store, TermId};
use std::alloc::AllocError;
use std::cell::RefCell;
use std::collections::HashMap;

// How deep congruences are joined, and how often one chain is cut.
const DEPTH: u32 = 60;

const CUTS: usize = 10_000;

// One pass over a derivation.
#[derive(Drop)]
struct Shortening<'a> {
    store: &'a Store,
    // Of a proof that is a chain, what it is made of.
    parts: RefCell<HashMap<(TermId, TermId), Vec<Proof>>>,
}

// What stands in place of the parts of a chain from place `from` to place `to`.
struct Cut {
    from: usize,
    to: usize,
    by: Vec<Proof>,
}

// The proof made of step n.
fn premise(made: &Vec<Proof>, n: u32) -> Option<Proof> {
    made.get((n as usize).checked_sub(1)?).copied()
}

// Whether it is that `.` is below itself.
fn is_dot(p: Proof) -> bool {
    p.left == DOT && p.right == DOT
}

impl<'a> Shortening<'a> {
    // The parts of p.
    fn flat(&self, p: Proof) -> Result<Vec<Proof>, AllocError> {
        if let Ok(parts) = self.parts.try_borrow() {
            if let Some(chain) = parts.get(&(p.left, p.right)) {
                return chain.clone();
            }
        }
        let mut out = Vec::new(self.store.alloc());
        if p.left != p.right {
            out.push(p)?;
        }
        Ok(out)
    }

    // Keeps what the chain is made of.
    fn keep(&self, whole: Proof, chain: &[Proof]) -> Result<(), AllocError> {
        let chain = Vec::from_slice(self.store.alloc(), chain)?;
        if let Ok(mut parts) = self.parts.try_borrow_mut() {
            parts.insert((whole.left, whole.right), chain)?;
        }
        Ok(())
    }

    // One step in place of the parts from left to right, if there is one.
    fn shortcut(&self, left: TermId, right: TermId) -> Result<Option<Vec<Proof>>, AllocError> {
        let store = self.store;
        let mut by = Vec::new(store.alloc());
        if left == right {
            return Ok(Some(by));
        }
        match store.axiom(left, right) {
            Some(rule) => {
                by.push(store.by_axiom(rule, left, right))?;
                Ok(Some(by))
            }
            None => Ok(None),
        }
    }

    // The first cut of the chain: a rule without premises over the longest way, or two neighbours as one step.
    #[cycle(shorten)]
    fn cut(&self, chain: &Vec<Proof>, depth: u32) -> Result<Option<Cut>, AllocError> {
        for (i, p) in chain.iter().enumerate() {
            for (j, q) in chain.iter().enumerate().rev() {
                if j <= i {
                    continue;
                }
                if let Some(by) = self.shortcut(p.left, q.right)? {
                    return Ok(Some(Cut { from: i, to: j, by }));
                }
                if j == i + 1 {
                    if let Some(whole) = self.fuse(*p, *q, depth)? {
                        let by = self.flat(whole)?;
                        return Ok(Some(Cut { from: i, to: j, by }));
                    }
                }
            }
        }
        Ok(None)
    }

    // p and then q, as a chain that is cut until nothing is left to cut.
    #[cycle(shorten)]
    fn then(&self, p: Proof, q: Proof, depth: u32) -> Result<Proof, AllocError> {
        let store = self.store;
        let Some(shallower) = depth.checked_sub(1) else {
            return Ok(store.then(p, q));
        };
        if p.left == q.right {
            return Ok(store.reflexive(p.left));
        }
        if let Some(rule) = store.axiom(p.left, q.right) {
            return Ok(store.by_axiom(rule, p.left, q.right));
        }
        if let Some(known) = store.proof_known(p.left, q.right) {
            return Ok(known);
        }
        let mut chain = self.flat(p)?;
        chain.extend_from_slice(&self.flat(q)?)?;
        for _ in 0..CUTS {
            let Some(Cut { from, to, by }) = self.cut(&chain, shallower)? else {
                break
            };
            chain = self.with_cut(&chain, from, to, &by)?;
        }
        self.whole(p.left, &chain)
    }

    // The chain after the cut.
    fn with_cut(
        &self,
        chain: &Vec<Proof>,
        from: usize,
        to: usize,
        by: &Vec<Proof>,
    ) -> Result<Vec<Proof>, AllocError> {
        let mut out = Vec::new(self.store.alloc());
        for (i, p) in chain.iter().enumerate() {
            if i == from {
                out.extend_from_slice(by)?;
            }
            if i < from || to < i {
                out.push(*p)?;
            }
        }
        Ok(out)
    }

    // The chain's proof, by rule 3.
    fn whole(&self, left: TermId, chain: &Vec<Proof>) -> Result<Proof, AllocError> {
        let store = self.store;
        let mut whole: Option<Proof> = None;
        for (i, next) in chain.iter().enumerate() {
            whole = Some(match whole {
                None => *next,
                Some(p) => {
                    let made = store.then(p, *next);
                    self.keep(made, &chain[..i + 1])?;
                    made
                }
            });
        }
        Ok(whole.unwrap_or(store.reflexive(left)))
    }

    // p and q as one step of the congruence that both are of, or in another order.
    #[cycle(shorten)]
    fn fuse(&self, p: Proof, q: Proof, depth: u32) -> Result<Option<Proof>, AllocError> {
        let store = self.store;
        let Some(shallower) = depth.checked_sub(1) else {
            return Ok(None);
        };
        let (Some(x), Some(y)) = (store.step_of(p), store.step_of(q)) else {
            return Ok(None);
        };
        let (x1, x2) = (store.proof_of(x.first), store.proof_of(x.second));
        let (y1, y2) = (store.proof_of(y.first), store.proof_of(y.second));
        let (left, right) = (p.left, q.right);
        Ok(match (x.rule, y.rule) {
            (7, 7) | (9, 9) => {
                let a = self.then(x1, y1, shallower)?;
                let b = self.then(x2, y2, shallower)?;
                Some(store.by_two(x.rule, left, right, a, b))
            }
            (12, 12) => {
                let a = self.then(y1, x1, shallower)?;
                let b = self.then(x2, y2, shallower)?;
                Some(store.by_two(12, left, right, a, b))
            }
            (13, 13) => {
                let a = self.then(y1, x1, shallower)?;
                Some(store.by_one(13, left, right, a))
            }
            // `.` in front is taken away first, and put there last
            (7, 28) if is_dot(x1) && right == x2.right => {
                let first = store.by_axiom(28, left, x2.left);
                Some(self.then(first, x2, shallower)?)
            }
            (28, 7) if is_dot(y1) && left == y2.left => {
                let last = store.by_axiom(28, y2.right, right);
                Some(self.then(y2, last, shallower)?)
            }
            (4, 6) | (19, 21) | (18, 17) => Some(self.then(x1, y1, shallower)?),
            (5, 6) | (20, 21) => Some(self.then(x1, y2, shallower)?),
            (18, 16) => Some(self.then(x2, y1, shallower)?),
            (6, 6) | (21, 21) => {
                let a = self.then(x1, q, shallower)?;
                let b = self.then(x2, q, shallower)?;
                Some(store.by_two(x.rule, left, right, a, b))
            }
            (18, 18) => {
                let a = self.then(p, y1, shallower)?;
                let b = self.then(p, y2, shallower)?;
                Some(store.by_two(18, left, right, a, b))
            }
            _ => None,
        })
    }
}

/// The same containment from new steps; `steps` are the old ones, premises by their numbers.
pub fn shortened(store: &Store, steps: &Vec<ProofStep>) -> Result<Option<Proof>, AllocError> {
    let shorten = Shortening {
        store,
        parts: RefCell::new(HashMap::new(store.alloc())),
    };
    let mut made: Vec<Proof> = Vec::new(store.alloc());
    for s in steps {
        let p = shorten.rebuilt(&made, *s)?;
        made.push(p)?;
    }
    Ok(made.last().copied())
}

impl<'a> Shortening<'a> {
    // A step made again, its premises being made.
    fn rebuilt(&self, made: &Vec<Proof>, s: ProofStep) -> Result<Proof, AllocError> {
        let store = self.store;
        if s.left == s.right {
            return Ok(store.reflexive(s.left));
        }
        let (first, second) = (premise(made, s.first), premise(made, s.second));
        if let (3, Some(p), Some(q)) = (s.rule, first, second) {
            return self.then(p, q, DEPTH);
        }
        if let Some(rule) = store.axiom(s.left, s.right) {
            return Ok(store.by_axiom(rule, s.left, s.right));
        }
        Ok(match (first, second) {
            (Some(p), Some(q)) => store.by_two(s.rule, s.left, s.right, p, q),
            (Some(p), None) => store.by_one(s.rule, s.left, s.right, p),
            _ => store.by_axiom(s.rule, s.left, s.right),
        })
    }
}
