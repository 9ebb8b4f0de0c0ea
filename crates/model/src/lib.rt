// A thermal unit commitment problem: its types, and the ranges of its numbers; and what a tree for it gives.
#![tactic(auto)]

pub mod arrays;
pub mod figures;
pub mod generator;
pub mod ranges;
pub mod unit;
