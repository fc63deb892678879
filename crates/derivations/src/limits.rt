// How much is searched.

/// The most goals that one search opens, and the most attempts that it makes at them.
#[derive(Clone, Copy, Debug, PartialEq, Eq)]
pub struct Limits {
    pub goals: u64,
    pub attempts: u64,
}

/// What programs search by.
pub const USUAL_LIMITS: Limits = Limits {
    goals: 60_000,
    attempts: 1_000_000,
};
