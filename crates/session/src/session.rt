// A session: rows of terms, steps of derivations and named points, and the calls on it.
ghost use Rattle.calls.specs.represent.Answers.{answer_of, done_answer_of, step_of};
ghost use Rattle.std.specs.Prelude.{◌≡◌, ◌*◌, OnErr, length};
ghost use Rattle.terms.specs.Row.{row_width, max_rows};
ghost use Rattle.terms.specs.represent.RowTypes.{row_of};
ghost use Rattle.calls.specs.Book.{max_steps};
ghost use Rattle.calls.specs.Calls.{Call};
ghost use Rattle.calls.specs.represent.Points.{first_point_numbers};
ghost use Rattle.calls.specs.represent.Tables.{step_width, first_row_numbers, first_step_numbers};
ghost use Rattle.session.specs.View.{rows_held, steps_held, points_held, fresh_session};
ghost use Rattle.session.specs.Promises.{Met, SelectMet};
ghost use Rattle.session.specs.WayBackGuarantee.{WayBackMet};

use calls::{Held, PointCounts, Step};
use common::Refusal;
use std::marker::Model;
use terms::{KeptRows, Row, TABLE_NUMBERS};

// The numbers of a session's tables of steps and of points.
const STEP_NUMBERS: usize = calls::STEP_WIDTH * calls::MAX_STEPS;

const POINT_NUMBERS: usize = calls::POINT_WIDTH * calls::MAX_POINTS;

/// Rows, four numbers each, steps, five each, and points, three each; of each the first ones are held, as many as the
/// counts say. Fixed memory without a heap: no call can fail for want of it. The rows are with what is kept of them for
/// the term calls; of rows that came another way it is found at the next term call.
#[derive(Drop)]
pub struct Session {
    pub(crate) rows: KeptRows,
    pub(crate) row_count: usize,
    pub(crate) steps: [u16; STEP_NUMBERS],
    pub(crate) step_count: usize,
    points: [u16; POINT_NUMBERS],
    point_count: usize,
}

// What a proof knows of arrays that are lent by themselves, and not of those within another type.
fn whole_tables(rows: &[u16; TABLE_NUMBERS], steps: &[u16; STEP_NUMBERS])
    ensures { (length rows.now ≡ row_width * max_rows) × (length steps.now ≡ step_width * max_steps) }
{}

impl Model for Session {
    ghost use Rattle.session.specs.SessionTables.{SessionTables};

    ghost Value = { SessionTables };

    ghost use Rattle.session.specs.represent.Tables.{tables_in};

    ghost view = { tables_in };
}

impl Session {
    pub const ROWS: usize = terms::MAX_ROWS;

    pub const STEPS: usize = calls::MAX_STEPS;

    pub const POINTS: usize = calls::MAX_POINTS;

    pub const NESTING: u16 = terms::MAX_NESTING;

    pub const NODES: usize = xpath::MAX_NODES;

    pub fn new() -> Session
        ensures { result ≡ fresh_session }
    {
        Session {
            rows: KeptRows::new(),
            row_count: 0,
            steps: [0u16; STEP_NUMBERS],
            step_count: 0,
            points: [0u16; POINT_NUMBERS],
            point_count: 0,
        }
    }

    // How many rows are held; below the same of steps and points, each by a definition of its own.
    fn rows_counted(&self) -> usize
        ensures { result ≡ rows_held self.now }
    {
        self.row_count.min(Session::ROWS)
    }

    pub(crate) fn steps_counted(&self) -> usize
        ensures { result ≡ steps_held self.now }
    {
        self.step_count.min(Session::STEPS)
    }

    fn points_counted(&self) -> usize
        ensures { result ≡ points_held self.now }
    {
        self.point_count.min(Session::POINTS)
    }

    // Tells a caller how long the tables are.
    pub(crate) fn whole_tables(&self)
        ensures { (length self.now.rows ≡ row_width * max_rows) × (length self.now.steps ≡ step_width * max_steps) }
    {
        whole_tables(&self.rows.numbers, &self.steps);
    }

    /// The numbers of the rows held, four a row.
    pub fn held_rows(&self) -> &[u16]
        ensures { result.now ≡ first_row_numbers self.now.row_count self.now.rows }
    {
        calls::first_rows(&self.rows.numbers, self.row_count)
    }

    // The same of the steps.
    pub(crate) fn held_steps(&self) -> &[u16]
        ensures { result.now ≡ first_step_numbers self.now.step_count self.now.steps }
    {
        calls::first_steps(&self.steps, self.step_count)
    }

    // The same of the points.
    pub(crate) fn held_points(&self) -> &[u16]
        ensures { result.now ≡ first_point_numbers self.now.point_count self.now.points }
    {
        calls::first_points(&self.points, self.point_count)
    }

    // The rows and the steps held.
    pub(crate) fn held(&self) -> Held<'_>
        ensures { (result.rows.now ≡ first_row_numbers self.now.row_count self.now.rows)
            × (result.steps.now ≡ first_step_numbers self.now.step_count self.now.steps) }
    {
        Held::first(
            &self.rows.numbers,
            self.row_count,
            &self.steps,
            self.step_count,
        )
    }

    pub fn term(&mut self, row: Row) -> Result<u16, Refusal>
        ensures met { Met self.old (Call.term (row_of row)) (answer_of result) self.new }
        ensures refused { OnErr result (self.new ≡ self.old) }
    {
        let n = self.rows_counted();
        call_answers::term::keep_first(&mut self.rows, n);
        let number = call_answers::term::term_kept(&mut self.rows, row)?;
        self.row_count = n + 1;
        Ok(number)
    }

    pub fn step(&mut self, step: Step) -> Result<u16, Refusal>
        ensures met { Met self.old (Call.step (step_of step)) (answer_of result) self.new }
        ensures refused { OnErr result (self.new ≡ self.old) }
    {
        let m = self.steps_counted();
        let number = call_answers::step::judge_step(self.held(), step)?;
        common::put_record(&mut self.steps, m, step.into());
        self.step_count = m + 1;
        Ok(number)
    }

    /// Sets a point of that name.
    pub fn point(&mut self, name: u16) -> Result<(), Refusal>
        ensures met { Met self.old (Call.point name) (done_answer_of result) self.new }
        ensures refused { OnErr result (self.new ≡ self.old) }
    {
        let n = self.rows_counted();
        let m = self.steps_counted();
        let k = self.points_counted();
        call_answers::point::judge_point(self.held_points(), name)?;
        let point = PointCounts {
            name,
            rows: n as u16,
            steps: m as u16,
        };
        common::put_record(&mut self.points, k, point.into());
        self.point_count = k + 1;
        Ok(())
    }

    /// Returns to the point of that name: just the rows and steps held when it was set are left, and later points are
    /// forgotten.
    pub fn return_to(&mut self, name: u16) -> Result<(), Refusal>
        ensures met { Met self.old (Call.return name) (done_answer_of result) self.new }
        ensures refused { OnErr result (self.new ≡ self.old) }
    {
        let (place, point) = call_answers::point::judge_return(self.held_points(), name)?;
        let n = usize::from(point.rows);
        let m = usize::from(point.steps);
        call_answers::term::clear_from(&mut self.rows, terms::ROW_WIDTH * n);
        self.row_count = n;
        call_answers::point::clear(&mut self.steps, calls::STEP_WIDTH * m);
        self.step_count = m;
        call_answers::point::clear(&mut self.points, calls::POINT_WIDTH * (place + 1));
        self.point_count = place + 1;
        Ok(())
    }

    /// Holds the rows that the term of the selector needs, with the numbers that the lent list gives to names.
    pub fn text(&mut self, names: &[u8], selector: &[u8]) -> Result<u16, Refusal>
        ensures met { Met self.old (Call.text names.now selector.now) (answer_of result) self.new }
        ensures refused { OnErr result (self.new ≡ self.old) }
    {
        let held = selector_reader::read_text(selector, names, &mut self.rows, self.row_count)?;
        self.row_count = held.count;
        Ok(held.row)
    }

    /// Holds the rows that the way back of the path in row `row` needs.
    pub fn way_back(&mut self, row: u16) -> Result<u16, Refusal>
        ensures met { WayBackMet self.old row (answer_of result) self.new }
        ensures refused { OnErr result (self.new ≡ self.old) }
    {
        let n = self.rows_counted();
        call_answers::term::keep_first(&mut self.rows, n);
        let number = reversing::way_back(&mut self.rows, row)?;
        self.row_count = self.rows.count;
        Ok(number)
    }

    /// Marks the nodes that the path in row `row` selects from the context node, in bytes, as C lends them.
    #[tactic(auto, unfolding(crate::specs::View::view))]
    pub fn select(
        &self,
        row: u16,
        document: &[u16],
        context: u16,
        limit: u32,
        marks: &mut [u8],
    ) -> Result<u32, Refusal>
        ensures { SelectMet self.now row document.now context limit marks.old result
            marks.new }
    {
        call_answers::select::select_on(self.held_rows(), row, document, context, limit, marks)
    }
}
