// Contents: agents, then places, each group in byte order.
//
// The parts of a group are written by number, a bar between two, and it is noted where each of them ends; then they are put
// in order where they lie. A place writes its contents, and contents write places.
ghost use Rattle.std.specs.Prelude.{◌<◌};
ghost use Rattle.sets.specs.Set.{member};
ghost use Rattle.meaning.specs.Listing.{texts_of};
ghost use Rattle.text.specs.Wrote.{Wrote};
ghost use Rattle.lister.specs.Listed.{agent_on};
ghost use Rattle.lister.specs.Sheet.{sheet_of, OnPage, contents_on, place_on};
ghost use Rattle.lister.specs.Marked.{grouped, Filled};

use crate::sheet::Sheet;
use crate::{agents, names, parts};
use sets::Set;
use table::Cell;

// The agents of a set in byte order.
fn write_agents(c: &Cell, agents: Set, from: usize, buf: &mut [u8]) -> usize
    requires { OnPage (grouped (texts_of (member agents) (agent_on c.now) 64)) from buf.old
        × Filled (texts_of (member agents) (agent_on c.now) 64) }
    ensures { Wrote (grouped (texts_of (member agents) (agent_on c.now) 64)) from buf.old buf.new result }
{
    let mut marks: [u16; 64] = [0; 64];
    let mut listed: usize = 0;
    let mut at: usize = from;
    for x in agents {
        let mid = crate::write_bar(from, at, &mut buf[at - from..]);
        at = agents::write_agent(&c.agents[x as usize], mid, &mut buf[mid - from..]);
        marks[listed] = (at - from) as u16;
        listed += 1;
    }
    parts::arrange(&marks, listed, buf);
    at
}

// Place q: its name, and its contents so many levels deep.
#[cycle(write_contents_write_place_write_places)]
fn write_place(sheet: &Sheet, q: u8, depth: u8, at: usize, buf: &mut [u8]) -> usize
    requires { (q < 64) × OnPage (place_on depth (sheet_of sheet.now) q) at buf.old }
    ensures { Wrote (place_on depth (sheet_of sheet.now) q) at buf.old buf.new result }
{
    let mid = names::write_head(sheet.cell.places[q as usize].name, at, buf);
    let full = write_contents(sheet, q, depth, mid, &mut buf[mid - at..]);
    let j = full - at;
    buf[j] = b']';
    full + 1
}

// The places of a set in byte order, each with its contents so many levels deep.
#[cycle(write_contents_write_place_write_places)]
fn write_places(sheet: &Sheet, inside: Set, depth: u8, from: usize, buf: &mut [u8]) -> usize
    requires { OnPage (grouped (texts_of (member inside) (place_on depth (sheet_of sheet.now)) 64)) from buf.old }
    ensures { Wrote (grouped (texts_of (member inside) (place_on depth (sheet_of sheet.now)) 64)) from buf.old buf.new result }
{
    let mut marks: [u16; 64] = [0; 64];
    let mut many: usize = 0;
    let mut at: usize = from;
    for q in inside {
        let mid = crate::write_bar(from, at, &mut buf[at - from..]);
        at = write_place(sheet, q, depth, mid, &mut buf[mid - from..]);
        marks[many] = (at - from) as u16;
        many += 1;
    }
    parts::arrange(&marks, many, buf);
    at
}

// The contents of p so many levels deep: agents, then places.
#[cycle(write_contents_write_place_write_places)]
pub(super) fn write_contents(sheet: &Sheet, p: u8, depth: u8, from: usize, buf: &mut [u8]) -> usize
    requires { (p < 64) × OnPage (contents_on depth (sheet_of sheet.now) p) from buf.old }
    ensures { Wrote (contents_on depth (sheet_of sheet.now) p) from buf.old buf.new result }
{
    if depth == 0 {
        return from;
    }
    let at = write_agents(sheet.cell, sheet.agents[p as usize], from, buf);
    let inside = sheet.places[p as usize];
    if inside.bits == 0 {
        return at;
    }
    let mid = crate::write_bar(from, at, &mut buf[at - from..]);
    write_places(sheet, inside, depth - 1, mid, &mut buf[mid - from..])
}
