// Whether all agents of a lent cell are asleep or done: the walk is the table's.

#![tactic(auto)]

pub use table::at_rest;
