// One record of a cell file: taken apart, or refused by a number.
ghost use Rattle.std.specs.Prelude.{◌≡◌, ◌+◌, ◌<◌, ◌≤◌, length};
ghost use Rattle.table.specs.Cell.{plain_name};
ghost use Rattle.reader.specs.KnownSets.{known_by, place_named};
ghost use Rattle.meaning.specs.File.{two_bytes, four_bytes, keyed_name, place_length};
ghost use Rattle.meaning.specs.File.{place_record, agent_record, action_record, touch_record, record_at};

use meaning::Record;
use meaning::refusals::{
    AGENT_TOO_LARGE, CUT_SHORT, GIVEN_TWICE, NAME_ZERO, NOT_YET_GIVEN, PARENT_TOO_LARGE,
    PLACE_TOO_LARGE, SEVENTEENTH, UNKNOWN_KIND, WRONG_KIND,
};
use sets::Set;
use table::Name;

// A number of two bytes, the low one first.
pub(super) fn two_bytes(low: u8, high: u8) -> u16
    ensures { result ≡ two_bytes low high }
{
    u16::from_le_bytes([low, high])
}

// A number of four bytes, the lowest first.
fn four_bytes(lowest: u8, low: u8, high: u8, highest: u8) -> u32
    ensures { result ≡ four_bytes lowest low high highest }
{
    u32::from_le_bytes([lowest, low, high, highest])
}

// How many bytes a place record of this kind has, its kind among them.
pub(super) fn place_length(kind: u8) -> usize
    ensures { result ≡ place_length kind }
{
    if kind == 6 { 11 } else { 5 }
}

// A name that is its own key for each action.
fn plain_name(n: u16) -> Name
    ensures { result ≡ plain_name n }
{
    Name {
        name: n,
        entering: n,
        exiting: n,
        opening: n,
    }
}

// The name in the record of kind 6 that starts at `at`, with its three keys.
fn keyed_name(s: &[u8], at: usize) -> Name
    requires { at + 11 ≤ length s.now }
    ensures { result ≡ keyed_name s.now at }
{
    Name {
        name: two_bytes(s[at + 3], s[at + 4]),
        entering: two_bytes(s[at + 5], s[at + 6]),
        exiting: two_bytes(s[at + 7], s[at + 8]),
        opening: two_bytes(s[at + 9], s[at + 10]),
    }
}

// A place record's body. taken: its number was given before; known: its parent was.
#[tactic(auto, unfolding(meaning::specs::File::place_record))]
fn place_record(taken: bool, known: bool, number: u8, parent: u8, name: Name) -> Record
    ensures { result ≡ place_record taken known number parent name }
{
    if number == 0 || number >= 64 {
        return Record::Faulty(PLACE_TOO_LARGE);
    }
    if parent >= 64 {
        return Record::Faulty(PARENT_TOO_LARGE);
    }
    if taken {
        return Record::Faulty(GIVEN_TWICE);
    }
    if !known {
        return Record::Faulty(NOT_YET_GIVEN);
    }
    if name.name == 0 {
        return Record::Faulty(NAME_ZERO);
    }
    Record::PlaceRecord(number, parent, name)
}

// The place record that starts at `at` and gives this name. used: the places so far.
fn place_named(s: &[u8], at: usize, used: Set, name: Name) -> Record
    requires { at + 5 ≤ length s.now }
    ensures { result ≡ place_named used s.now at name }
{
    let number = s[at + 1];
    let parent = s[at + 2];
    place_record(used.has(number), used.has(parent), number, parent, name)
}

// An agent record's body. taken: its number was given before; known: its home was.
#[tactic(auto, unfolding(meaning::specs::File::agent_record))]
fn agent_record(taken: bool, known: bool, number: u8, home: u8) -> Record
    ensures { result ≡ agent_record taken known number home }
{
    if number >= 64 {
        return Record::Faulty(AGENT_TOO_LARGE);
    }
    if home >= 64 {
        return Record::Faulty(PARENT_TOO_LARGE);
    }
    if taken {
        return Record::Faulty(GIVEN_TWICE);
    }
    if !known {
        return Record::Faulty(NOT_YET_GIVEN);
    }
    Record::AgentRecord(number, home)
}

// An action record's body. known: its agent was given before; full: that agent has sixteen actions.
#[tactic(auto, unfolding(meaning::specs::File::action_record))]
pub(super) fn action_record(known: bool, full: bool, agent: u8, kind: u8, name: u16) -> Record
    ensures { result ≡ action_record known full agent kind name }
{
    if agent >= 64 {
        return Record::Faulty(AGENT_TOO_LARGE);
    }
    if !known {
        return Record::Faulty(NOT_YET_GIVEN);
    }
    if kind == 0 || kind > 4 {
        return Record::Faulty(WRONG_KIND);
    }
    if name == 0 {
        return Record::Faulty(NAME_ZERO);
    }
    if full {
        return Record::Faulty(SEVENTEENTH);
    }
    Record::ActionRecord(agent, kind, name)
}

// A touch record's body. taken: the touches of its place were given before; known: its place was.
#[tactic(auto, unfolding(meaning::specs::File::touch_record))]
fn touch_record(taken: bool, known: bool, place: u8, touches: u32) -> Record
    ensures { result ≡ touch_record taken known place touches }
{
    if place >= 64 {
        return Record::Faulty(PLACE_TOO_LARGE);
    }
    if taken {
        return Record::Faulty(GIVEN_TWICE);
    }
    if !known {
        return Record::Faulty(NOT_YET_GIVEN);
    }
    Record::TouchRecord(place, touches)
}

// The record that starts at `at`. used, given: the places and agents so far; full: the agents with sixteen actions;
// counted: the places whose touches were given.
#[tactic(auto, unfolding(meaning::specs::File::record_at))]
pub(super) fn record_at(
    s: &[u8],
    at: usize,
    used: Set,
    given: Set,
    full: Set,
    counted: Set,
) -> Record
    requires { at < length s.now }
    ensures { result ≡ record_at (known_by used given full counted) s.now at }
{
    let left = s.len() - at;
    match s[at] {
        1 if left >= 5 => place_named(s, at, used, plain_name(two_bytes(s[at + 3], s[at + 4]))),
        6 if left >= 11 => place_named(s, at, used, keyed_name(s, at)),
        2 if left >= 3 => {
            let number = s[at + 1];
            let home = s[at + 2];
            agent_record(given.has(number), used.has(home), number, home)
        }
        3 if left >= 5 => {
            let agent = s[at + 1];
            let name = two_bytes(s[at + 3], s[at + 4]);
            action_record(given.has(agent), full.has(agent), agent, s[at + 2], name)
        }
        4 => Record::EndRecord,
        5 if left >= 6 => {
            let place = s[at + 1];
            let touches = four_bytes(s[at + 2], s[at + 3], s[at + 4], s[at + 5]);
            touch_record(counted.has(place), used.has(place), place, touches)
        }
        1 | 2 | 3 | 5 | 6 => Record::Faulty(CUT_SHORT),
        _ => Record::Faulty(UNKNOWN_KIND),
    }
}
