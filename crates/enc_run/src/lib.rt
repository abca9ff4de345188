//! The top call: all that the program does.
#![tactic(auto)]

mod job;
mod notes;
mod problem;
mod reading;
mod running;
mod stop;
mod tables;
#[cfg(test)]
mod tests;
mod text;

pub use job::{Job, Task};
pub use running::run;
pub use stop::Stop;
pub use text::Text;
