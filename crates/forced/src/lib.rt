// The least values of a problem's units with the status of each period forced: one walk back with its values kept, and one forward.
#![tactic(auto)]

pub mod answering;
mod entry;
mod forward;
mod numbers;
mod unit;
mod units;
