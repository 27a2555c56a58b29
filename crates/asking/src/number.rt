// A commit of the very number that an ask gave, for hosts that hand it back unread.
ghost use Rattle.std.specs.Prelude.{◌≡◌};
ghost use Rattle.meaning.specs.Answers.{Would};
ghost use Rattle.meaning.specs.Ask.{hands_back, handed_of};
ghost use Rattle.step.specs.Decided.{motion_word};
ghost use Rattle.asking.specs.Asked.{say_of, goes_on};

use super::{asked, made_if, waking};
use meaning::{Answer, Asked, Outcome, Prospect, Stepped};
use moves::Motion;
use step::motion_word;
use table::Cell;

// Whether the number is that of what is told; a refused ask is refused again by the step itself.
pub fn hands_back(a: Asked, answer: u64) -> bool
    ensures { result ≡ hands_back a answer }
{
    let number = numbers::ask_number(a);
    match a {
        Ok(_) => number == answer,
        Err(_) => true,
    }
}

// An answer and a place, as an ask tells them.
fn say(said: Answer, place: u8) -> Asked
    ensures { result ≡ say_of said place }
{
    match said {
        Ok(Outcome { word, woken }) => Ok(Prospect { word, woken, place }),
        Err(number) => Err(number),
    }
}

// Whether a step that answers so, with this place, goes on: any does, or the one of which an ask gives this number.
pub fn goes_on(any: bool, said: Answer, place: u8, answer: u64) -> bool
    ensures { result ≡ goes_on any said place answer }
{
    if any {
        return true;
    }
    let t = say(said, place);
    hands_back(t, answer)
}

// Whether the move that was decided, which would wake so many, is the one of which an ask gives this number.
pub fn move_goes_on(motion: Motion, chosen: u8, woken: u8, answer: u64) -> bool
    ensures { result ≡ hands_back (Would (motion_word motion) woken chosen) answer }
{
    let w = motion_word(motion);
    hands_back(
        Ok(Prospect {
            word: w,
            woken,
            place: chosen,
        }),
        answer,
    )
}

// The step, if the number is still that of what an ask would tell: 18 otherwise.
pub fn handed(c: Cell, agent: u8, wish: u8, answer: u64) -> Stepped
    ensures { result ≡ handed_of c agent wish answer }
{
    let s = soundness::see(c, agent);
    let a = s.agent;
    let d = step::decide(s, c, agent, wish);
    let n = waking(c, a, d);
    let t = asked(d, n);
    let same = hands_back(t, answer);
    made_if(same, c, agent, d)
}
