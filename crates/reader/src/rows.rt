// The action records of one agent that follow one another, read at once.
ghost use Rattle.std.specs.Prelude.{◌≡◌, ◌-◌};
ghost use Rattle.reader.specs.ActionRow.{own_record, with_row};

use super::records::{action_record, two_bytes};
use meaning::Record;
use table::{Action, Agent};

// An agent with its actions so far, and where the next record starts.
#[derive(Clone, Copy)]
pub(super) struct Reached {
    pub agent: Agent,
    pub at: usize,
}

// The record that starts at `at`, where it is an action of agent n, which was given and has room; otherwise the row ends.
#[tactic(auto, unfolding(crate::specs::ActionRow::own_record))]
fn own_record(s: &[u8], at: usize, n: u8) -> Record
    ensures { result ≡ own_record s.now at n }
{
    if s.len().saturating_sub(at) < 5 || s[at] != 3 || s[at + 1] != n {
        return Record::EndRecord;
    }
    action_record(true, false, n, s[at + 2], two_bytes(s[at + 3], s[at + 4]))
}

// Agent n, so far g, with the actions of its own records from `from` on, as many as follow one another and have room.
pub(super) fn with_row(s: &[u8], from: usize, n: u8, g: Agent) -> Reached
    ensures { result ≡ with_row (16 - g.count) s.now n from g }
{
    let mut a = g;
    let mut at = from;
    // No count of turns beside it: the agent's own count is how full its row is.
    while a.count < 16 {
        let Record::ActionRecord(_, kind, name) = own_record(s, at, n) else {
            break;
        };
        a.actions[a.count as usize] = Action { kind, name };
        a.count += 1;
        a.stage = 0;
        at += 5;
    }
    Reached { agent: a, at }
}
