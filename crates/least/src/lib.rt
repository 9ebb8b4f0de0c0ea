// One unit under fixed statuses: its best outputs, its least value at given prices, on its ramps too, and whether it is stuck.
#![tactic(auto)]

pub mod output;
pub mod ramp;
pub mod stuck;
pub mod unit;
