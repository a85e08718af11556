use sys_base::{Actor, Items, Outputs};

/// What a result line says of a run.
#[derive(Debug, Drop)]
pub struct Report {
    /// Whether every cell is at its end.
    pub finished: bool,
    /// The least enabled actor, where the run is not finished.
    pub next: Option<Actor>,
    /// The words that each cell has emitted.
    pub outputs: Outputs,
    /// How many words each cell is to emit.
    pub emits: Items<u32>,
    /// Each link with a group, by its id, and the most words that its queues held together.
    pub peaks: Items<(u16, u32)>,
    /// How many steps were made.
    pub steps: u32,
}
