//! Scripts of steps, with one line for each step or question, read and played on a table.
#![tactic(auto)]

mod answer;
mod entries;
mod fault;
mod line;
mod numbers;
mod player;
mod steps;

pub use answer::Answer;
pub use fault::ScriptFault;
pub use player::{MOST_LINES, Player};
