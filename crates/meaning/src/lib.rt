// The answers of the keeper's calls and the records of a cell file, as values that code and written meaning share.

#![tactic(auto)]

pub mod refusals;

use table::{Cell, Name};

// "One byte of kind, then a body": a record taken apart, or the number of its refusal.
#[derive(Clone, Copy)]
pub enum Record {
    // Number, parent, name with its keys.
    PlaceRecord(u8, u8, Name),
    // Number, home.
    AgentRecord(u8, u8),
    // Agent, kind, name.
    ActionRecord(u8, u8, u16),
    EndRecord,
    // Place, touches.
    TouchRecord(u8, u32),
    Faulty(u8),
}

// The word that a lock step answers.
#[derive(Clone, Copy, Debug, PartialEq, Eq)]
pub enum Word {
    Looked,
    Took,
    Held,
    Back,
    Slept,
    Left,
    Came,
    Opened,
    Put,
    Asleep,
    Done,
}

// A step that was made: its word, and how many agents it woke.
#[derive(Clone, Copy, Debug, PartialEq, Eq)]
pub struct Outcome {
    pub word: Word,
    pub woken: u8,
}

// What an ask tells of a step: its word, how many agents it would wake, and the chosen place.
#[derive(Clone, Copy, Debug, PartialEq, Eq)]
pub struct Prospect {
    pub word: Word,
    pub woken: u8,
    pub place: u8,
}

// Why a load is refused: the number, and the offset.
#[derive(Clone, Copy, Debug, PartialEq, Eq)]
pub struct Rejection {
    pub number: u8,
    pub offset: usize,
}

// Each call is "refused with a number" (document 01), and the demands speak of all numbers: so the error is a number.

// What a load answers.
pub type Verdict = Result<(), Rejection>;

// What a step call answers.
pub type Answer = Result<Outcome, u8>;

// What an ask answers.
pub type Asked = Result<Prospect, u8>;

// What a touch call answers, and what one for a place's touches does: the place's count.
pub type Touching = Result<u64, u8>;

// Where a place is: in or at this place, or in none of that name.
pub type Found = Result<Option<u8>, u8>;

// What a listing call answers: the length.
pub type Listed = Result<usize, u8>;

// What a check answers: the table is sound.
pub type Checked = Result<(), u8>;

// What a call for idleness answers: whether all agents are asleep or done.
pub type Idled = Result<bool, u8>;

// What a call for the ceiling answers: how many step calls can still change the cell, at most.
pub type Limit = Result<u64, u8>;

// A load's answer, and the cell after it.
#[derive(Clone, Copy)]
pub struct Loaded {
    pub cell: Cell,
    pub verdict: Verdict,
}

// A step call's answer, and the cell after it.
#[derive(Clone, Copy)]
pub struct Stepped {
    pub cell: Cell,
    pub answer: Answer,
}

// A touch call's answer, and the cell after it.
#[derive(Clone, Copy)]
pub struct Touched {
    pub cell: Cell,
    pub answer: Touching,
}
