// The suppliers' Scribble texts, which are read as protocols: their words, their names, the fault that decides.
#![tactic(auto)]

pub mod faults;
pub mod lines;
pub mod names;
pub mod scan;
pub mod token;
