// Ask, then commit: what a step would give, and the step made only if it is still that.

#![tactic(auto)]

mod number;

ghost use Rattle.std.specs.Prelude.{◌≡◌};
ghost use Rattle.table.specs.Cell.{cell_of};
ghost use Rattle.meaning.specs.Ask.{ask_of, agrees as agrees_with, commit_of};
ghost use Rattle.asking.specs.Asked.{woken_by, tell_of, made_if};

use meaning::refusals::ANSWER_DIFFERS;
use meaning::{Asked, Outcome, Prospect, Stepped};
use step::Decision;
use table::{Agent, Cell};

// A commit of the very number that an ask gave.
pub use number::{goes_on, handed, hands_back, move_goes_on};

// How many agents the step that was decided for agent a would wake.
fn waking(c: Cell, a: Agent, d: Decision) -> u8
    ensures { result ≡ woken_by (cell_of c) a d }
{
    match d.motion {
        Some(motion) => moving::woken_lent(&c, a, motion),
        None => 0,
    }
}

// What an ask tells of the step that was decided and would wake so many.
pub fn asked(d: Decision, woken: u8) -> Asked
    ensures { result ≡ tell_of d.answer woken d.chosen }
{
    let q = d.chosen;
    let answer = d.answer;
    match answer {
        Ok(Outcome { word, woken: _ }) => Ok(Prospect {
            word,
            woken,
            place: q,
        }),
        Err(number) => Err(number),
    }
}

// Whether word, number woken and place are what is told; a refused ask is refused again by the step itself.
pub fn agrees(a: Asked, word: u8, woken: u8, place: u8) -> bool
    ensures { result ≡ agrees_with a word woken place }
{
    match a {
        Ok(
            Prospect {
                word: w,
                woken: n,
                place: q,
            },
        ) => {
            if numbers::word_number(w) == word {
                if n == woken { q == place } else { false }
            } else {
                false
            }
        }
        Err(_) => true,
    }
}

// What a step of this agent with this wish would give.
pub fn ask(c: Cell, agent: u8, wish: u8) -> Asked
    ensures { result ≡ ask_of c agent wish }
{
    let s = soundness::see(c, agent);
    let a = s.agent;
    let d = step::decide(s, c, agent, wish);
    let n = waking(c, a, d);
    asked(d, n)
}

// The decision carried out if what was told is still so: 18 otherwise.
fn made_if(same: bool, c: Cell, agent: u8, d: Decision) -> Stepped
    ensures { result ≡ made_if same c agent d }
{
    if same {
        return step::carry_out(c, agent, d);
    }
    Stepped {
        cell: c,
        answer: Err(ANSWER_DIFFERS),
    }
}

// The step, if it would still give what was told: 18 otherwise.
pub fn commit(c: Cell, agent: u8, wish: u8, word: u8, woken: u8, place: u8) -> Stepped
    ensures { result ≡ commit_of c agent wish word woken place }
{
    let s = soundness::see(c, agent);
    let a = s.agent;
    let d = step::decide(s, c, agent, wish);
    let n = waking(c, a, d);
    let t = asked(d, n);
    let same = agrees(t, word, woken, place);
    made_if(same, c, agent, d)
}
