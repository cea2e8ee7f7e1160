// Moves: the amounts that a plan makes due, the moves that bring them about, and moves carried out on a table of counts.
#![tactic(auto)]

pub mod apply;
pub mod due;
pub mod list;
pub mod matching;
