// A job file to its answer: read, prepare, run, write.
#![tactic(auto)]

mod factor;
pub mod job;
mod run;
mod solve;
mod work;
