// A place moves in a lent cell: nothing but what changes is written.

#![tactic(auto)]

mod counts;
mod plan;
mod shifts;
mod waking;
mod walks;

pub use counts::woken_lent;
pub use shifts::shift_lent;
