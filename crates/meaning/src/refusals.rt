// The numbers of the refusals, as `crates/meaning/specs/Refusals.antt` names them.

// Of a file.
pub const CUT_SHORT: u8 = 1;

pub const UNKNOWN_KIND: u8 = 2;

pub const PLACE_TOO_LARGE: u8 = 3;

pub const GIVEN_TWICE: u8 = 4;

pub const NOT_YET_GIVEN: u8 = 5;

pub const NAME_ZERO: u8 = 6;

pub const WRONG_KIND: u8 = 7;

pub const SEVENTEENTH: u8 = 8;

pub const AFTER_END: u8 = 9;

pub const PARENT_TOO_LARGE: u8 = 13;

pub const AGENT_TOO_LARGE: u8 = 14;

// Of a call on a table.
pub const UNSOUND_TABLE: u8 = 10;

pub const NO_SUCH_AGENT: u8 = 11;

pub const TOO_LONG: u8 = 12;

pub const TOO_MANY_TOUCHES: u8 = 15;

// Of a text.
pub const OUTSIDE_LANGUAGE: u8 = 16;

pub const TOO_MANY: u8 = 17;

// Of a commit.
pub const ANSWER_DIFFERS: u8 = 18;
