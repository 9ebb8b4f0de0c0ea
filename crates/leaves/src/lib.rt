// The rules for a tree's leaves over all units: the value of a price leaf and of a ramp leaf, whether the units are short and how many were taken to tell, and whether they are a crowd.
#![tactic(auto)]

pub mod counts;
pub mod crowd;
pub mod marks;
pub mod price;
pub mod ramp;
pub mod short;
