// Proofs of both directions, made of others.
use crate::store::Store;
use crate::term::{Equality, TermId};

impl Store {
    /// That x is x.
    pub fn same(&self, x: TermId) -> Equality {
        Equality {
            forth: self.reflexive(x),
            back: self.reflexive(x),
        }
    }

    /// By a rule that holds both ways.
    pub fn equal_by(&self, rule: u16, left: TermId, right: TermId) -> Equality {
        Equality {
            forth: self.by_axiom(rule, left, right),
            back: self.by_axiom(rule, right, left),
        }
    }

    /// x and then y.
    pub fn equal_then(&self, x: Equality, y: Equality) -> Equality {
        Equality {
            forth: self.then(x.forth, y.forth),
            back: self.then(y.back, x.back),
        }
    }

    /// x on the left and y on the right of a composition; below, the same of the other terms with operands.
    pub fn equal_composition(&self, x: Equality, y: Equality) -> Equality {
        Equality {
            forth: self.in_composition(x.forth, y.forth),
            back: self.in_composition(x.back, y.back),
        }
    }

    pub fn equal_filter(&self, x: Equality, y: Equality) -> Equality {
        Equality {
            forth: self.in_filter(x.forth, y.forth),
            back: self.in_filter(x.back, y.back),
        }
    }

    pub fn equal_union(&self, x: Equality, y: Equality) -> Equality {
        Equality {
            forth: self.in_union(x.forth, y.forth),
            back: self.in_union(x.back, y.back),
        }
    }

    pub fn equal_and(&self, x: Equality, y: Equality) -> Equality {
        Equality {
            forth: self.in_and(x.forth, y.forth),
            back: self.in_and(x.back, y.back),
        }
    }

    pub fn equal_or(&self, x: Equality, y: Equality) -> Equality {
        Equality {
            forth: self.in_or(x.forth, y.forth),
            back: self.in_or(x.back, y.back),
        }
    }

    pub fn equal_not(&self, x: Equality) -> Equality {
        Equality {
            forth: self.in_not(x.back),
            back: self.in_not(x.forth),
        }
    }

    pub fn equal_empty(&self, x: Equality) -> Equality {
        Equality {
            forth: self.in_empty(x.back),
            back: self.in_empty(x.forth),
        }
    }
}
