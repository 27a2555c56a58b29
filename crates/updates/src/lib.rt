// The small changes and tests that the reader, the parser, the stages and the moves share.

#![tactic(auto)]

ghost use Rattle.std.specs.Prelude.{◌≡◌, ◌&&◌, cond, eqb, leb, get_or};
ghost use Rattle.table.specs.Base.{tab};
ghost use Rattle.meaning.specs.Update.{at_stage, with_home};
ghost use Rattle.meaning.specs.File.{with_action};

use table::{Action, Agent, Place};

// The agent with its stage, remembered and chosen place.
pub fn at_stage(a: Agent, stage: u8, remembered: u8, chosen: u8) -> Agent
    ensures { result ≡ at_stage a stage remembered chosen }
{
    Agent {
        stage,
        remembered,
        chosen,
        ..a
    }
}

// The agent, living in h.
pub fn with_home(a: Agent, h: u8) -> Agent
    ensures { result ≡ with_home a h }
{
    Agent { home: h, ..a }
}

// The agent with one action more, which it is looking for; as it is where it has sixteen.
#[tactic(auto, unfolding(meaning::specs::File::with_action))]
pub fn with_action(g: Agent, kind: u8, name: u16) -> Agent
    ensures { result ≡ cond (leb 16 g.count) g (with_action g kind name) }
{
    let mut a = g;
    if a.count < 16 {
        a.actions[a.count as usize] = Action { kind, name };
        a.count += 1;
        a.stage = 0;
    }
    a
}

// The locks once those of p and q are released.
pub fn released(ls: [u8; 64], p: u8, q: u8) -> [u8; 64]
    ensures { result ≡ tab (Rattle.meaning.specs.Update.released (λ j. get_or ls j 0) p q) 64 0 }
{
    table::with_lock(table::with_lock(ls, p, 64), q, 64)
}

// Whether a place, in use or not, is linked.
pub fn linked(known: bool, x: Place) -> bool
    ensures { result ≡ (known && eqb x.way 0) }
{
    known && x.way == 0
}
