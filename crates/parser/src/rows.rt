// The actions of an agent that follow one another, each with the full stop after it, put into its row at once.
ghost use Rattle.parser.specs.Rows.{Rowed};

use super::stretch::action;
use language::{Control, Field};
use table::{Action, Agent};

// An agent with its actions so far, what was read last, and the byte that comes next.
#[derive(Clone, Copy)]
pub(super) struct Row {
    pub agent: Agent,
    pub at: Control,
    pub i: usize,
}

// Agent g after a full stop, with the actions from `from` on, as many as end in a full stop and have room; and as far as the next is there.
pub(super) fn with_row(s: &[u8], from: usize, g: Agent) -> Row
    ensures { Rowed s.now from g result.i result.at result.agent }
{
    let mut a = g;
    let mut i = from;
    // No count of turns beside it: the agent's own count is how full its row is.
    while a.count < 16 {
        let r = action(s, i);
        let Control::Digits(Field::ActionNumber(kind), name) = r.at else {
            return Row {
                agent: a,
                at: r.at,
                i: r.i,
            };
        };
        if s.len() <= r.i || s[r.i] != b'.' {
            return Row {
                agent: a,
                at: r.at,
                i: r.i,
            };
        }
        a.actions[a.count as usize] = Action { kind, name };
        a.count += 1;
        a.stage = 0;
        i = r.i + 1;
    }
    Row {
        agent: a,
        at: Control::Dot,
        i,
    }
}
