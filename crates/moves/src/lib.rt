// What becomes of the places and agents where a place moves: it goes on its way, it is linked, it is dissolved, or a new one is put.

#![tactic(auto)]

mod open;
mod places;
mod putting;

pub use open::{adopt, dissolve_agent, free_held, freed, lets_go, pool, woken_by};
pub use places::{asleep_on, beyond, linked_up, rest_stage, sent, use_up};
pub use putting::new_place;

// How a place moves.
#[derive(Clone, Copy)]
pub enum Motion {
    // The agent's own place goes on its way to this destination.
    Leave(u8),
    // The agent's own place is linked to this destination.
    Arrive(u8),
    // The chosen place is dissolved into the remembered one.
    Dissolve,
    // A new place under this number is put into the remembered one.
    Put(u8),
}
