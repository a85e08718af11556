/// The verdict on a run.
#[derive(Clone, Copy, Debug, PartialEq, Eq)]
pub enum RunVerdict {
    /// Every cell is at its end.
    Done,
    /// All entries of the schedule ran, and some cell isn't at its end.
    Unfinished,
    /// The schedule file breaks a rule, or one of its entries isn't enabled.
    BadSchedule,
}
