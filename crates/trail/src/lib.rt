// What the check of a trail answers, as a value that code and written meaning share.

#![tactic(auto)]

// The reasons of a denial: a move is not permitted, its agent has no action left (or is not given), the last byte is odd, and the listing
// is of another layout.
pub const NOT_PERMITTED: u8 = 1;

pub const NO_ACTION_LEFT: u8 = 2;

pub const ODD_BYTE: u8 = 3;

pub const OTHER_LAYOUT: u8 = 4;

// The trail is upheld; it is denied, with how many of its moves stand before what is wrong, and why; or the file is refused.
#[derive(Clone, Copy)]
pub enum Finding {
    Upheld,
    // Moves before it, and the reason's number: a number, since definitions and theorems (`Reason`, `upheld_exactly`) and the C interface tell it so.
    Denied(usize, u8),
    // A load's refusal: number, offset.
    BadFile(u8, usize),
}
