// The runs behind the least values of a price leaf's units, and how far they fall short of the demand.
#![tactic(auto)]

pub mod drafting;
pub mod question;
mod short;
pub mod status;
pub mod table;
mod unit;
mod units;
