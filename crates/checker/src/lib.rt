// Checking a trail: the file is loaded, each move of the trail is made on the table, and the listing at the end is compared.
//
// No lock is taken and no stage is read. An enter and an exit are two stores into the table; an opening and a release are one call of
// `moving::shift_lent`, whose time is bounded by the 64 places and agents.

#![tactic(auto)]

mod making;
mod rules;
mod turns;

ghost use Rattle.std.specs.Prelude.{◌≡◌, ◌≢◌, ◌*◌, ◌%◌, ◌≤◌, length};
ghost use Rattle.table.specs.Cell.{bare_table, cell_of};
ghost use Rattle.meaning.specs.Answers.{Accepted};
ghost use Rattle.meaning.specs.File.{load_of};
ghost use Rattle.meaning.specs.Listing.{listing};
ghost use Rattle.text.specs.Same.{same_text};
ghost use Rattle.trail.specs.Trail.{finding};
ghost use Rattle.checker.specs.OnTable.{Ready, Stops, Plays, FoundAnyway};

use making::make;
use meaning::{Loaded, Verdict};
use table::Cell;
use trail::{Finding, ODD_BYTE, OTHER_LAYOUT};
use turns::{count_used, turn_of};

// What one move of a trail comes to.
#[derive(Clone, Copy)]
pub enum Turn {
    // It is denied for this reason.
    Deny(u8),
    // The agent's own place goes into this place.
    Into(u8),
    // A place is dissolved, or a new one is put.
    Shift,
}

// What becomes of a file and the moves of a trail: the verdict on the file; how many moves are made; the reason why the next is denied, 0
// where none is; and the table after them.
#[derive(Clone, Copy)]
pub struct Played {
    pub verdict: Verdict,
    pub made: usize,
    pub reason: u8,
    pub cell: Cell,
}

// So many moves of a trail, made from a loaded table as far as they are allowed.
#[inline(never)]
fn run(c: Cell, trail: &[u8], moves: usize) -> Played
    requires { Ready c × (2 * moves ≤ length trail.now) }
    ensures { (result.verdict ≡ Accepted) × Stops c trail.now moves result }
{
    let mut d = c;
    for n in 0..moves {
        let x = trail[2 * n];
        let b = trail[2 * n + 1];
        let k = table::at(x);
        let a = d.agents[k];
        let i = table::at(a.home);
        let around = d.places[i].parent;
        let o = table::at(around);
        let j = table::at(b);
        let t = turn_of(d.given, d.used, x, a, around, d.places[o], b, d.places[j]);
        match t {
            Turn::Deny(reason) => {
                return Played {
                    verdict: Ok(()),
                    made: n,
                    reason,
                    cell: d,
                };
            }
            Turn::Into(to) => {
                d.places[i].parent = to;
                d.agents[k].next = count_used(a.next, a.count);
            }
            Turn::Shift => d = make(d, x, a, b),
        }
    }
    Played {
        verdict: Ok(()),
        made: moves,
        reason: 0,
        cell: d,
    }
}

// The cell file loaded, from a bare floor. A function of its own, like the next two, so that its copies of the table have left the stack when
// it returns.
#[inline(never)]
fn load(file: &[u8]) -> Loaded
    ensures { result ≡ load_of bare_table file.now }
{
    let c = table::bare();
    reader::load(c, file)
}

// Whether a text is the listing of a cell.
#[inline(never)]
fn is_listing(c: Cell, text: &[u8]) -> bool
    ensures { result ≡ same_text text.now (listing (cell_of c)) }
{
    lister::is_listing(c, text)
}

// The file loaded, and so many moves of a trail made. Two functions call it, so it is compiled as a function of its own, and its copies
// of the table have left the stack when the listing is written.
#[inline(never)]
fn play(file: &[u8], trail: &[u8], moves: usize) -> Played
    requires { 2 * moves ≤ length trail.now }
    ensures { Plays file.now trail.now moves result }
{
    let l = load(file);
    let v = l.verdict;
    let d = l.cell;
    match v {
        Ok(()) => run(d, trail, moves),
        Err(rejection) => Played {
            verdict: Err(rejection),
            made: 0,
            reason: 0,
            cell: d,
        },
    }
}

// The finding on a trail with an odd last byte, whatever the listing: no move is made.
fn judge_odd(file: &[u8], trail: &[u8]) -> Finding
    requires { length trail.now % 2 ≢ 0 }
    ensures { FoundAnyway file.now trail.now result }
{
    let p = play(file, trail, 0);
    let v = p.verdict;
    match v {
        Ok(()) => Finding::Denied(trail.len() / 2, ODD_BYTE),
        Err(r) => Finding::BadFile(r.number, r.offset),
    }
}

// The finding on another trail and a listing.
fn judge_even(file: &[u8], trail: &[u8], text: &[u8]) -> Finding
    requires { length trail.now % 2 ≡ 0 }
    ensures { result ≡ finding file.now trail.now text.now }
{
    let p = play(file, trail, trail.len() / 2);
    let v = p.verdict;
    match v {
        Ok(()) => {
            if p.reason != 0 {
                return Finding::Denied(p.made, p.reason);
            }
            let d = p.cell;
            if is_listing(d, text) {
                return Finding::Upheld;
            }
            Finding::Denied(p.made, OTHER_LAYOUT)
        }
        Err(r) => Finding::BadFile(r.number, r.offset),
    }
}

// The finding on a cell file, a trail and a listing.
pub fn check_trail(file: &[u8], trail: &[u8], listing: &[u8]) -> Finding
    ensures { result ≡ finding file.now trail.now listing.now }
{
    if trail.len() % 2 != 0 {
        return judge_odd(file, trail);
    }
    judge_even(file, trail, listing)
}
