// A listing read back: the cell of a text.

#![tactic(auto)]

mod build;
mod finish;
mod machine;
mod rows;
mod stretch;
mod words;

ghost use Rattle.std.specs.Prelude.{◌≡◌, ◌<◌};
ghost use Rattle.language.specs.Read.{read_of};
ghost use Rattle.parser.specs.Site.{moved_at};

use build::{agent_after, agent_written, gives_agent, gives_place, marks_after, place_after};
use finish::{answered, last};
use language::{Control, Event, Moved};
use machine::next_by;
use meaning::refusals::OUTSIDE_LANGUAGE;
use meaning::{Loaded, Rejection};
use rows::with_row;
use stretch::stretch;
use table::Cell;

// How many places and agents, the place whose contents are read, and whether there were too many of anything.
#[derive(Clone, Copy)]
pub struct Marks {
    pub places: u8,
    pub agents: u8,
    pub here: u8,
    pub over: bool,
}

// What the byte at i does, or the end of the text, after what was read last and with d places open. No text has 2^63 bytes, so
// fewer places are open.
#[tactic(auto, unfolding(crate::specs::Site::moved_at))]
fn moved(s: &[u8], i: usize, at: Control, d: usize) -> Moved
    requires { d < 9223372036854775808 }
    ensures { result ≡ moved_at s.now i at d }
{
    if i < s.len() {
        next_by(at, d, s[i])
    } else {
        last(at, d)
    }
}

// The cell of the text s; where it is refused, the cell c that was there. Each byte moves the machine once and changes the
// cell in place, and the end of the text is one turn more; the actions that follow a full stop are put into their agent's row at once.
// b: the cell so far, but for its row of places, which is made at the end;
// at: what was read last; d: how many places are open.
pub fn read(c: Cell, s: &[u8]) -> Loaded
    ensures { result ≡ read_of c s.now }
{
    let mut b = table::bare();
    let mut x = Marks {
        places: 0,
        agents: 0,
        here: 0,
        over: false,
    };
    let mut at = Control::Begin;
    let mut d: usize = 0;
    let mut i: usize = 0;
    while i <= s.len() {
        let r = stretch(s, i, at);
        let Moved::To(k, n, e) = moved(s, r.i, r.at, d) else {
            return Loaded {
                cell: c,
                verdict: Err(Rejection {
                    number: OUTSIDE_LANGUAGE,
                    offset: r.i,
                }),
            };
        };
        at = k;
        d = n;
        i = r.i + 1;
        if let Event::Nothing = e {
            continue;
        }
        let around = b.places[table::at(x.here)].parent;
        let which = agent_written(x, e);
        let y = table::at(which);
        let g = b.agents[y];
        b.agents[y] = agent_after(g, x, e);
        b.given = b.given.insert_if(which, gives_agent(x, e));
        let q = table::at(x.places + 1);
        b.places[q] = place_after(b.places[q], x, e);
        b.used = b.used.insert_if(x.places + 1, gives_place(x, e));
        x = marks_after(x, e, g.count, around);
        if let Control::Dot = k {
            let z = table::at(x.agents.saturating_sub(1));
            let row = with_row(s, i, b.agents[z]);
            b.agents[z] = row.agent;
            at = row.at;
            i = row.i;
        }
    }
    answered(c, b, x.over, s.len())
}
