// The evaluation of paths and qualifiers by their rows, under a limit on their visits: a result has the visits made,
// and there is none where more are needed than the limit.
ghost use Rattle.std.specs.Prelude.{◌≡◌, ◌&&◌, ◌||◌, not, cond, ◌≤◌, eqb, length, ⊤};
ghost use Rattle.common.specs.Bounded.{all_below};
ghost use Rattle.common.specs.RowKinds.{and_row};
ghost use Rattle.common.specs.represent.Numbers.{row_number};
ghost use Rattle.xpath.specs.Document.{max_nodes};
ghost use Rattle.xpath.specs.Term.{Union, Composition, Filter, In};
ghost use Rattle.xpath.specs.Meaning.{selects};
ghost use Rattle.terms.specs.represent.RowTypes.{row_of};
ghost use Rattle.terms.specs.Terms.{term_by, as_path, as_qualifier, path_in, qualifier_in};
ghost use Rattle.marking.specs.private.Added.{marked, Added};
ghost use Rattle.selection.specs.private.Limit.{UnderLimit};
ghost use Rattle.selection.specs.private.MarksHeld.{AreMarks};
ghost use Rattle.selection.specs.private.Parts.{document_in, terms_in, PathAdded, QualifierFound, leaf_path};

use crate::context::Context;
use common::row_kind::RowKind;
use terms::Row;
use xpath::MAX_NODES;

// The value of a qualifier, and the visits that it took.
#[derive(Clone, Copy)]
struct Found {
    holds: bool,
    visits: u32,
}

// Whether each of the first n nodes that a marks is marked in b.
fn is_included(a: &[u8; MAX_NODES], b: &[u8; MAX_NODES], n: usize) -> bool
    requires few { n ≤ max_nodes }
    requires marks { AreMarks n a.now × AreMarks n b.now }
    ensures { result ≡ all_below n (λ y. not (marked a.now y) || marked b.now y) }
{
    // A loop with no exit takes many bytes at a time, which `all` does not.
    let mut included = true;
    for (left, right) in a[..n].iter().zip(&b[..n]) {
        included &= *left <= *right;
    }
    included
}

// The value of an `and` or an `or`, whichever the kind is.
fn and_or(kind: RowKind, left: bool, right: bool) -> bool
    ensures { result ≡ cond (eqb (row_number kind) and_row) (left && right) (left || right) }
{
    if kind == RowKind::And {
        left && right
    } else {
        left || right
    }
}

// The visit of a path without operands.
fn one_visit(limit: u32) -> Option<u32>
    ensures { UnderLimit (λ visits. visits) (λ _. ⊤) 1 limit result }
{
    if limit == 0 {
        return None;
    }
    Some(1)
}

// The value of a qualifier without operands.
fn found_leaf(holds: bool, limit: u32) -> Option<Found>
    ensures { UnderLimit (λ found. found.visits) (λ found. found.holds ≡ holds) 1 limit result }
{
    let visits = one_visit(limit)?;
    Some(Found { holds, visits })
}

impl Context<'_> {
    // Marks what a path without operands selects.
    fn mark_leaf(&self, row: Row, out: &mut [u8; MAX_NODES])
        ensures { Added (length (document_in self.now)) out.old out.new
            (selects (document_in self.now) (leaf_path (row_of row)) self.now.x) }
    {
        match row.read_kind() {
            Some(RowKind::Step) => marking::mark_step(
                self.lent.document,
                row.a,
                row.b,
                usize::from(row.c),
                self.x,
                out,
            ),
            Some(RowKind::Root) => out[0] = 1,
            _ => {}
        }
    }

    /// Marks what the path in row r selects; a row past the first `top` is read as the void path.
    #[cycle(evaluation)]
    pub fn eval_path(&self, r: usize, limit: u32, out: &mut [u8; MAX_NODES]) -> Option<u32>
        ensures { PathAdded self.now (path_in (terms_in self.now) r) limit result out.old out.new }
    {
        if self.top <= r {
            return one_visit(limit);
        }
        self.below(r).eval_path_row(self.row_at(r), limit, out)
    }

    // The path in `row`, whose operands are among the first `top` rows.
    #[cycle(evaluation)]
    #[tactic(auto, unfolding(terms::specs::Terms::term_by, terms::specs::Terms::as_path))]
    fn eval_path_row(&self, row: Row, limit: u32, out: &mut [u8; MAX_NODES]) -> Option<u32>
        ensures { PathAdded self.now (as_path (term_by (terms_in self.now) (row_of row))) limit result out.old
            out.new }
    {
        let a = usize::from(row.a);
        let b = usize::from(row.b);
        match row.read_kind() {
            Some(RowKind::Union) => self.eval_union(a, b, limit, out),
            Some(RowKind::Composition) => self.eval_composition(a, b, limit, out),
            Some(RowKind::Filter) => self.eval_filter(a, b, limit, out),
            _ => {
                self.mark_leaf(row, out);
                one_visit(limit)
            }
        }
    }

    // Marks what the paths in rows a and b select.
    #[cycle(evaluation)]
    fn eval_union(&self, a: usize, b: usize, limit: u32, out: &mut [u8; MAX_NODES]) -> Option<u32>
        ensures { PathAdded self.now (Union (path_in (terms_in self.now) a) (path_in (terms_in self.now) b)) limit
            result out.old out.new }
    {
        let rest = limit.checked_sub(1)?;
        let first = self.eval_path(a, rest, out)?;
        let second = self.eval_path(b, rest - first, out)?;
        Some(1 + first + second)
    }

    // Marks what the path in row b selects from the nodes that the path in row a selects.
    #[cycle(evaluation)]
    fn eval_composition(
        &self,
        a: usize,
        b: usize,
        limit: u32,
        out: &mut [u8; MAX_NODES],
    ) -> Option<u32>
        ensures { PathAdded self.now (Composition (path_in (terms_in self.now) a) (path_in (terms_in self.now) b))
            limit result out.old out.new }
    {
        let rest = limit.checked_sub(1)?;
        let mut first = [0; MAX_NODES];
        let mut visits = 1 + self.eval_path(a, rest, &mut first)?;
        // By number, here and in `eval_filter`: the range says that z is a node, which `at` asks.
        for z in 0..self.node_count() {
            if first[z] == 1 {
                visits += self.at(z).eval_path(b, limit - visits, out)?;
            }
        }
        Some(visits)
    }

    // Marks the nodes that the path in row a selects and at which the qualifier in row b is true.
    #[cycle(evaluation)]
    fn eval_filter(&self, a: usize, b: usize, limit: u32, out: &mut [u8; MAX_NODES]) -> Option<u32>
        ensures { PathAdded self.now (Filter (path_in (terms_in self.now) a) (qualifier_in (terms_in self.now) b))
            limit result out.old out.new }
    {
        let rest = limit.checked_sub(1)?;
        let mut first = [0; MAX_NODES];
        let mut visits = 1 + self.eval_path(a, rest, &mut first)?;
        for z in 0..self.node_count() {
            if first[z] == 1 {
                let found = self.at(z).eval_qualifier(b, limit - visits)?;
                visits += found.visits;
                if found.holds {
                    out[z] = 1;
                }
            }
        }
        Some(visits)
    }

    // Whether the qualifier in row r is true; a row past the first `top` is read as false.
    #[cycle(evaluation)]
    fn eval_qualifier(&self, r: usize, limit: u32) -> Option<Found>
        ensures { QualifierFound self.now (qualifier_in (terms_in self.now) r) limit result }
    {
        if self.top <= r {
            return found_leaf(false, limit);
        }
        self.below(r).eval_qualifier_row(self.row_at(r), limit)
    }

    // The qualifier in `row`, whose operands are among the first `top` rows.
    #[cycle(evaluation)]
    #[tactic(auto, unfolding(terms::specs::Terms::term_by, terms::specs::Terms::as_qualifier))]
    fn eval_qualifier_row(&self, row: Row, limit: u32) -> Option<Found>
        ensures { QualifierFound self.now (as_qualifier (term_by (terms_in self.now) (row_of row))) limit result }
    {
        let a = usize::from(row.a);
        let b = usize::from(row.b);
        match row.read_kind() {
            Some(RowKind::Not) => {
                let rest = limit.checked_sub(1)?;
                let first = self.eval_qualifier(a, rest)?;
                Some(Found {
                    holds: !first.holds,
                    visits: 1 + first.visits,
                })
            }
            Some(kind @ (RowKind::And | RowKind::Or)) => {
                let rest = limit.checked_sub(1)?;
                let first = self.eval_qualifier(a, rest)?;
                let second = self.eval_qualifier(b, rest - first.visits)?;
                Some(Found {
                    holds: and_or(kind, first.holds, second.holds),
                    visits: 1 + first.visits + second.visits,
                })
            }
            Some(RowKind::Inclusion) => self.eval_inclusion(a, b, limit),
            Some(RowKind::True) => found_leaf(true, limit),
            _ => found_leaf(false, limit),
        }
    }

    // Whether all that the path in row a selects is selected by the path in row b.
    #[cycle(evaluation)]
    fn eval_inclusion(&self, a: usize, b: usize, limit: u32) -> Option<Found>
        ensures { QualifierFound self.now (In (path_in (terms_in self.now) a) (path_in (terms_in self.now) b)) limit
            result }
    {
        let rest = limit.checked_sub(1)?;
        let mut marks = [0; MAX_NODES];
        let first = self.eval_path(a, rest, &mut marks)?;
        let mut others = [0; MAX_NODES];
        let second = self.eval_path(b, rest - first, &mut others)?;
        Some(Found {
            holds: is_included(&marks, &others, self.node_count()),
            visits: 1 + first + second,
        })
    }
}
