// What soundness asks of one agent.
ghost use Rattle.std.specs.Prelude.{◌≡◌, ◌&&◌, eqb};
ghost use Rattle.sets.specs.Set.{member};
ghost use Rattle.table.specs.Cell.{asleep, has_action};
ghost use Rattle.table.specs.Sound.{action_fits, first_held, second_held, going_from, ready, holds_both};
ghost use Rattle.soundness.specs.Pass.{sixteen_fit, quiet, remembers_at, quiet_fits};
ghost use Rattle.soundness.specs.Turn.{row_kind, kind_in};

use sets::Set;
use table::{Action, Agent};

// ---- actions

// A number that is 0 only where the action is in range.
fn fault(x: Action) -> u8
    ensures { eqb result 0 ≡ action_fits x }
{
    if x.kind < 1 || x.kind > 4 || x.name < 1 {
        1
    } else {
        0
    }
}

// A number that is 0 only where both are.
fn joined(a: u8, b: u8) -> u8
    ensures { eqb result 0 ≡ (eqb b 0 && eqb a 0) }
{
    a | b
}

// Whether all sixteen actions of a row are in range. No early exit: the compiler tests several at once.
fn all_sixteen(row: [Action; 16]) -> bool
    ensures { result ≡ sixteen_fit row }
{
    let mut bad: u8 = 0;
    for x in row {
        bad = joined(bad, fault(x));
    }
    bad == 0
}

// The kind of the next action, or 0 where none is left; none where an unused action is out of range.
fn row_of(a: Agent) -> Option<u8>
    ensures { result ≡ row_kind a }
{
    if a.next > a.count || a.count > 16 {
        return None;
    }
    if a.next == a.count {
        return Some(0);
    }
    let kind = a.actions[a.next as usize].kind;
    if a.count == 16 && all_sixteen(a.actions) {
        return Some(kind);
    }
    for j in a.next..a.count {
        if fault(a.actions[j as usize]) != 0 {
            return None;
        }
    }
    Some(kind)
}

// The same of an agent whose home is in use; none where it is not.
pub(super) fn kind_in(a: Agent, used: Set) -> Option<u8>
    ensures { result ≡ kind_in used a }
{
    if used.has(a.home) { row_of(a) } else { None }
}

// ---- agents without a lock and not on their way

// Whether the stage is below 2 or past 6.
#[tactic(auto, unfolding(crate::specs::Pass::quiet))]
pub(super) fn is_quiet(s: u8) -> bool
    ensures { result ≡ quiet s }
{
    s <= 1 || s >= 7
}

// Whether an agent asleep remembers a place in use (known) or, with a release next, no place.
fn sleeps_fit(known: bool, remembered: u8, kind: u8) -> bool
    ensures { result ≡ remembers_at asleep known remembered kind }
{
    known || remembered == 64 && kind == 4
}

// What a quiet stage asks. known: the remembered place is in use.
#[tactic(auto, unfolding(crate::specs::Pass::quiet_fits))]
fn quiet_fits(a: Agent, known: bool, kind: u8) -> bool
    ensures { result ≡ quiet_fits a.stage (has_action a) (remembers_at a.stage known a.remembered kind) (eqb a.remembered a.home) kind }
{
    let some = a.next < a.count;
    match a.stage {
        0 => some,
        1 => is_ready(a, known, kind),
        7 => some && sleeps_fit(known, a.remembered, kind),
        8 => !some,
        _ => false,
    }
}

// The same beside the places in use.
pub(super) fn quiet_in(a: Agent, used: Set, kind: u8) -> bool
    ensures { result ≡ quiet_fits a.stage (has_action a) (remembers_at a.stage (member used a.remembered) a.remembered kind) (eqb a.remembered a.home) kind }
{
    quiet_fits(a, used.has(a.remembered), kind)
}

// ---- locks

// The place whose lock the agent took first, or 64.
#[tactic(auto, unfolding(table::specs::Sound::first_held))]
pub(super) fn first_held(a: Agent) -> u8
    ensures { result ≡ first_held a }
{
    match a.stage {
        2 | 3 => a.remembered,
        5 | 6 => a.home,
        _ => 64,
    }
}

// The place whose lock it took second, or 64.
#[tactic(auto, unfolding(table::specs::Sound::second_held))]
pub(super) fn second_held(a: Agent, kind: u8, destination: u8) -> u8
    ensures { result ≡ second_held a kind destination }
{
    match a.stage {
        3 if kind == 3 => a.chosen,
        3 => a.home,
        6 => destination,
        _ => 64,
    }
}

// The home of an agent at stages 4 to 6, or 64.
#[tactic(auto, unfolding(table::specs::Sound::going_from))]
pub(super) fn going_from(a: Agent) -> u8
    ensures { result ≡ going_from a }
{
    match a.stage {
        4..=6 => a.home,
        _ => 64,
    }
}

// ---- the other stages

// Whether an agent is ready to lock the place that it remembers; for open and release that is its home. known: that place is in use.
#[tactic(auto, unfolding(table::specs::Sound::ready))]
pub(super) fn is_ready(a: Agent, known: bool, kind: u8) -> bool
    ensures { result ≡ ready (has_action a) known (eqb a.remembered a.home) kind }
{
    a.next < a.count && known && (kind < 3 || a.remembered == a.home)
}

// Whether the places of an agent that holds both are linked as its action asks; a release agent never holds both.
#[tactic(auto, unfolding(table::specs::Sound::holds_both))]
pub(super) fn holds_both(kind: u8, here: bool, there: bool) -> bool
    ensures { result ≡ holds_both kind here there }
{
    match kind {
        1 => here && there,
        2 => here,
        3 => there,
        _ => false,
    }
}
