// What a step, an ask and a commit read in a lent cell, and what they store there.
ghost use Rattle.std.specs.Prelude.{◌≡◌};
ghost use Rattle.table.specs.Bounds.{Sized};
ghost use Rattle.table.specs.Cell.{cell_of};
ghost use Rattle.meaning.specs.Answers.{Did};
ghost use Rattle.soundness.specs.Seen.{seen_of};
ghost use Rattle.meaning.specs.Codes.{step_number};
ghost use Rattle.moves.specs.Motions.{woken_in};
ghost use Rattle.step.specs.Decided.{agent_at, motion_word, staged_at, locked_at, change_in, decided as decided_of};
ghost use Rattle.asking.specs.Asked.{asked_of, goes_on, moved_if, settled_if, carried_if};

use crate::step_number;
use asking::{asked, goes_on, move_goes_on};
use meaning::Asked;
use meaning::refusals::ANSWER_DIFFERS;
use moves::Motion;
use moving::{shift_lent, woken_lent};
use soundness::sound_lent;
use stages::{Change, looks_around, own_step, stage_step};
use step::{Decision, is_step, refused, wanted};
use table::{Agent, Cell, at};
use updates::at_stage;

// What the step of agent a with this wish changes in a lent cell.
fn changed(cell: &Cell, a: Agent, wish: u8) -> Change
    ensures { result ≡ change_in cell.now a wish }
{
    if looks_around(a.stage) {
        return stage_step(a, cell.places, cell.used, cell.order, wish);
    }
    let k = at(a.home);
    own_step(a, cell.places[k], cell.used)
}

// What a call for this agent with this wish does to a lent cell.
pub(super) fn decided(cell: &Cell, agent: u8, wish: u8) -> Decision
    ensures decision { result ≡ decided_of (seen_of cell.now agent) cell.now agent wish }
    ensures sizes { Sized cell.now }
{
    let s = sound_lent(cell);
    let own = at(agent);
    let a = cell.agents[own];
    if is_step(s, cell.given, agent) {
        let change = changed(cell, a, wish);
        let k = at(wanted(change));
        return step::settled(change, agent, a, cell.locks[k]);
    }
    refused(s, a)
}

// What an ask tells of a lent cell for which this was decided of this agent.
pub(super) fn told(cell: &Cell, agent: u8, d: Decision) -> Asked
    ensures { result ≡ asked_of cell.now (agent_at cell.now agent) d }
{
    if let Some(motion) = d.motion {
        let k = at(agent);
        let a = cell.agents[k];
        let n = woken_lent(cell, a, motion);
        return asked(d, n);
    }
    asked(d, 0)
}

// Whether the move that was decided of agent a goes on: any does, or the one of which an ask gives this number.
fn move_goes(cell: &Cell, a: Agent, motion: Motion, chosen: u8, any: bool, answer: u64) -> bool
    ensures { result ≡ goes_on any (Did (motion_word motion) (woken_in (cell_of cell.now) a motion)) chosen answer }
{
    if any {
        return true;
    }
    let n = woken_lent(cell, a, motion);
    move_goes_on(motion, chosen, n, answer)
}

// The move that was decided, made on a lent cell if the step goes on: 18 otherwise.
fn moved(cell: &mut Cell, agent: u8, d: Decision, motion: Motion, any: bool, answer: u64) -> u64
    ensures { (cell.new ≡ (moved_if cell.old agent d motion any answer).cell)
        × (result ≡ step_number (moved_if cell.old agent d motion any answer).answer) }
{
    let k = at(agent);
    let a = cell.agents[k];
    if move_goes(cell, a, motion, d.chosen, any, answer) {
        let r = shift_lent(cell, agent, a, motion);
        return step_number(r);
    }
    u64::from(ANSWER_DIFFERS)
}

// The agent's stage, remembered and chosen place that were decided, stored in place.
fn stage_stored(cell: &mut Cell, agent: u8, d: Decision)
    ensures { cell.new ≡ staged_at cell.old agent d }
{
    let k = at(agent);
    let a = at_stage(cell.agents[k], d.stage, d.remembered, d.choice);
    cell.agents[k] = a;
}

// The lock of place q of a lent cell, stored in place; past 63 there is none.
fn lock_stored(cell: &mut Cell, q: u8, lock: u8)
    ensures { cell.new ≡ locked_at cell.old q lock }
{
    if q < 64 {
        let k = at(q);
        cell.locks[k] = lock;
        return;
    }
}

// The agent's stage and places and the locks that were decided, stored in place if the step goes on: 18 otherwise.
fn settled(cell: &mut Cell, agent: u8, d: Decision, any: bool, answer: u64) -> u64
    ensures { (cell.new ≡ (settled_if cell.old agent d any answer).cell)
        × (result ≡ step_number (settled_if cell.old agent d any answer).answer) }
{
    if goes_on(any, d.answer, d.chosen, answer) {
        stage_stored(cell, agent, d);
        lock_stored(cell, d.first, d.lock);
        lock_stored(cell, d.second, d.lock);
        return step_number(d.answer);
    }
    u64::from(ANSWER_DIFFERS)
}

// The decision, carried out on a lent cell if the step goes on: 18 otherwise.
pub(super) fn carried(cell: &mut Cell, agent: u8, d: Decision, any: bool, answer: u64) -> u64
    ensures { (cell.new ≡ (carried_if cell.old agent d any answer).cell)
        × (result ≡ step_number (carried_if cell.old agent d any answer).answer) }
{
    match d.motion {
        Some(motion) => moved(cell, agent, d, motion, any, answer),
        None => settled(cell, agent, d, any, answer),
    }
}
