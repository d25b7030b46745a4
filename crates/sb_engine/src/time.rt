// What falls due: when, what, and what then happens.

pub mod deadlines;
pub mod due;
pub mod finding;
pub mod sweeps;
pub mod ticks;
