// The blocks of opened tables: a role's rows, and rule 12.
#![tactic(auto)]

mod heads;
pub mod rows;
pub mod tables;
