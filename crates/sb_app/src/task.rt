// What a call may be asked to do without waiting for anybody.
/// What a call of the program is to do, where it waits for nobody.
#[derive(Clone, Copy, PartialEq, Eq)]
pub enum Task {
    /// Answer the script lines of the input.
    Run,
    /// Answer them, and make a checkpoint at the end.
    RunThenCheckpoint,
    /// Tell the numbers of the namespace.
    Check,
    /// Tell them from what is read alone.
    Look,
    /// Have a server answer the script lines of the input.
    Client,
    /// Make so many calls that the seed draws, and tell their counts.
    Drill { count: u32, seed: u64 },
}

/// What words name that name a task.
#[derive(Clone, Copy)]
pub struct Named {
    pub task: Task,
    /// How many days, up to 100,000, a line of a run may be ahead of the clock; any number by 0.
    pub max_jump: u32,
}
