// The job file: its records told by their marks, judged one by one, and laid into arrays of the program's maxima.
#![tactic(auto)]

mod fault;
mod keep;
pub mod read;
mod record;
