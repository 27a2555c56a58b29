// Opening: a place is dissolved into the place that it is linked to.
ghost use Rattle.std.specs.Prelude.{◌≡◌, ◌&&◌, get_or, if◌then◌else◌, ◌==◌, nat_eq, slice_index, slice_index_or};
ghost use Rattle.sets.specs.Set.{member, set_of};
ghost use Rattle.order.specs.Row.{later};
ghost use Rattle.table.specs.Base.{tab, upd};
ghost use Rattle.table.specs.Cell.{none, no_place, land_of};
ghost use Rattle.meaning.specs.Step.{child_of, dissolve_place, dissolve_agent, woken_by, pooled};

use super::places::asleep_on;
use sets::Set;
use table::{Agent, Place};
use updates::{at_stage, with_home};

// Place q, in use, once t is dissolved into p: cleared where it is t, and a child of t goes to p.
fn adopt_one(q: u8, x: Place, p: u8, t: u8) -> Place
    ensures { result ≡ dissolve_place p t q x }
{
    if q == t {
        table::no_place()
    } else if x.parent == t {
        Place { parent: p, ..x }
    } else {
        x
    }
}

// The places once t is dissolved into p; only those in use change.
pub fn adopt(ps: [Place; 64], used: Set, p: u8, t: u8) -> [Place; 64]
    ensures { result ≡ tab (λ q. (if member used q then dissolve_place p t q (slice_index_or ps q no_place) else slice_index_or ps q no_place)) 64 0 }
{
    let mut qs = ps;
    for q in used {
        let k = q as usize;
        qs[k] = adopt_one(q, qs[k], p, t);
    }
    qs
}

// The places in use that stand in t.
fn children(ps: [Place; 64], used: Set, t: u8) -> Set
    ensures { result ≡ set_of (λ q. member used q && (get_or ps q no_place).parent == t) }
{
    let mut found = Set::EMPTY;
    for q in used {
        found = found.insert_if(q, ps[q as usize].parent == t);
    }
    found
}

// The row once the places in t are the latest, in their order among themselves.
pub fn freed(row: [u8; 64], ps: [Place; 64], used: Set, t: u8) -> [u8; 64]
    ensures { result ≡ later (child_of (land_of ps used row) t) row }
{
    order::later(row, children(ps, used, t))
}

// A lock once those of the agents in s are released.
fn free_one(l: u8, s: Set) -> u8
    ensures { result ≡ (if member s l then none else l) }
{
    if s.has(l) { 64 } else { l }
}

// The locks once those of the agents in s are released; only those of places in use change.
pub fn free_held(ls: [u8; 64], used: Set, s: Set) -> [u8; 64]
    ensures { result ≡ tab (λ q. (if member used q then (if member s (slice_index ls q) then none else slice_index ls q) else slice_index ls q)) 64 0 }
{
    let mut ms = ls;
    for q in used {
        let k = q as usize;
        ms[k] = free_one(ms[k], s);
    }
    ms
}

// The touches of q, or 0 where there is no such place.
fn touches_of(ts: [u64; 64], q: u8) -> u64
    ensures { result ≡ slice_index ts q }
{
    if q < 64 { ts[q as usize] } else { 0 }
}

// The touches once those of q are n.
fn with_touches(ts: [u64; 64], q: u8, n: u64) -> [u64; 64]
    ensures { result ≡ tab (upd (λ j. slice_index ts j) q n) 64 0 }
{
    let mut us = ts;
    if q < 64 {
        us[q as usize] = n;
    }
    us
}

// The touches once t is dissolved into p: p has those of both, and t none.
pub fn pool(ts: [u64; 64], p: u8, t: u8) -> [u64; 64]
    ensures { result ≡ tab (pooled (λ q. slice_index ts q) p t) 64 0 }
{
    let sum = touches_of(ts, p).wrapping_add(touches_of(ts, t));
    with_touches(with_touches(ts, p, sum), t, 0)
}

// The stage of an agent that moves: 8 if it is done, else 0.
fn moved_stage(s: u8) -> u8
    ensures { result ≡ (if nat_eq s 8 then 8 else 0) }
{
    if s == 8 { 8 } else { 0 }
}

// An agent that is given, once t is dissolved into p.
#[tactic(auto, unfolding(meaning::specs::Step::dissolve_agent))]
pub fn dissolve_agent(a: Agent, p: u8, t: u8) -> Agent
    ensures { result ≡ dissolve_agent p t a }
{
    if a.home == t {
        with_home(at_stage(a, moved_stage(a.stage), 0, 0), p)
    } else if (a.stage == 1 && a.remembered == t) || asleep_on(a, p, t, 64) {
        at_stage(a, 0, 0, 0)
    } else {
        a
    }
}

// Whether an agent that is given is woken when t is dissolved into p: one that sleeps on no place (64) is, too.
#[tactic(auto, unfolding(meaning::specs::Step::woken_by))]
pub fn woken_by(a: Agent, p: u8, t: u8) -> bool
    ensures { result ≡ woken_by p t a }
{
    a.stage == 7 && (a.home == t || a.remembered == p || a.remembered == t || a.remembered == 64)
}

// Whether an agent that moves from t holds a lock at stage 2.
pub fn lets_go(a: Agent, t: u8) -> bool
    ensures { result ≡ (a.home == t && a.stage == 2) }
{
    a.home == t && a.stage == 2
}
