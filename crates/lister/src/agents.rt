// An agent's text: its unused actions, where there is room for them.
ghost use Rattle.std.specs.Prelude.{cond, [], eqb};
ghost use Rattle.meaning.specs.Listing.{kind_text, action_text, agent_text};
ghost use Rattle.text.specs.Wrote.{Wrote, Fits};
ghost use Rattle.lister.specs.Sheet.{dot};

use crate::numbers;
use table::{Action, Agent};

// `enter `, `exit `, `open ` or `release `.
fn write_kind(kind: u8, at: usize, buf: &mut [u8]) -> usize
    requires { Fits (kind_text kind) at buf.old }
    ensures { Wrote (kind_text kind) at buf.old buf.new result }
{
    if kind == 1 {
        buf[0] = b'e';
        buf[1] = b'n';
        buf[2] = b't';
        buf[3] = b'e';
        buf[4] = b'r';
        buf[5] = b' ';
        return at + 6;
    }
    if kind == 2 {
        buf[0] = b'e';
        buf[1] = b'x';
        buf[2] = b'i';
        buf[3] = b't';
        buf[4] = b' ';
        return at + 5;
    }
    if kind == 3 {
        buf[0] = b'o';
        buf[1] = b'p';
        buf[2] = b'e';
        buf[3] = b'n';
        buf[4] = b' ';
        return at + 5;
    }
    buf[0] = b'r';
    buf[1] = b'e';
    buf[2] = b'l';
    buf[3] = b'e';
    buf[4] = b'a';
    buf[5] = b's';
    buf[6] = b'e';
    buf[7] = b' ';
    at + 8
}

// An action: its kind and its number.
fn write_action(x: Action, at: usize, buf: &mut [u8]) -> usize
    requires { Fits (action_text x) at buf.old }
    ensures { Wrote (action_text x) at buf.old buf.new result }
{
    let mid = write_kind(x.kind, at, buf);
    numbers::write_number(x.name, mid, &mut buf[mid - at..])
}

// The full stop before an action, where there is text before it in what was begun at `from`.
fn write_dot(from: usize, at: usize, buf: &mut [u8]) -> usize
    requires { Fits (cond (eqb at from) [] dot) at buf.old }
    ensures { Wrote (cond (eqb at from) [] dot) at buf.old buf.new result }
{
    if at == from {
        return at;
    }
    buf[0] = b'.';
    at + 1
}

// The unused actions of an agent.
pub(super) fn write_agent(a: &Agent, from: usize, buf: &mut [u8]) -> usize
    requires { Fits (agent_text a.now) from buf.old }
    ensures { Wrote (agent_text a.now) from buf.old buf.new result }
{
    let first = a.next as usize;
    let end = text::least(a.count as usize, 16);
    let mut at: usize = from;
    for k in first..end {
        let mid = write_dot(from, at, &mut buf[at - from..]);
        at = write_action(a.actions[k], mid, &mut buf[mid - from..]);
    }
    at
}
