//! The words of the command line and the lines of a script, read to commands.
#![tactic(auto)]

mod command;
mod fault;
mod forms;
mod line;
mod parser;
mod planned;
mod words;

pub use command::Command;
pub use fault::{LineFault, PlanFault};
pub use forms::plan;
pub use line::read_line;
pub use planned::Plan;
pub use words::GREATEST_NUMBER;
