//! What threads may do beside one another in a backtest, as a list of steps: feeds that are read ahead, a core that asks a
//! book, and a thread that serves it, with a lane between each two. Definitions, and the law that in whatever order the steps
//! are taken the text is a front of what the backtest prints. There is no code to run.
#![tactic(auto)]

pub mod laws;
mod worked;
