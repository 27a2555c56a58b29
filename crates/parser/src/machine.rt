// The machine of the listing's language: what one byte does. The kinds of actions are 1 enter, 2 exit, 3 open, 4 release.
ghost use Rattle.std.specs.Prelude.{◌≡◌, ◌<◌};
ghost use Rattle.parser.specs.Site.{longer};
ghost use Rattle.language.specs.Machine.{is_digit, begin_word, begin_part, closed, ended, least_of, follow, next};

use super::words::spelled_by;
use language::{Control, Event, Field, Moved};

// Whether a byte stands for a digit from `least` to 9.
pub(super) fn is_digit(least: u8, b: u8) -> bool
    requires { least < 2 }
    ensures { result ≡ is_digit least b }
{
    b'0' + least <= b && b <= b'9'
}

// The word of an action begins: `e`, `o` or `r`.
#[tactic(auto, unfolding(language::specs::Machine::begin_word))]
fn begin_word(d: usize, e: Event, b: u8) -> Moved
    ensures { result ≡ begin_word d e b }
{
    match b {
        b'e' => Moved::To(Control::LetterE, d, e),
        b'o' => Moved::To(Control::Spell(3, 1), d, e),
        b'r' => Moved::To(Control::Spell(4, 1), d, e),
        _ => Moved::Off,
    }
}

// `]`, where a place is open.
#[tactic(auto, unfolding(language::specs::Machine::closed))]
fn closed_by(d: usize, e: Event, b: u8) -> Moved
    ensures { result ≡ closed d e b }
{
    if d > 0 && b == b']' {
        Moved::To(Control::After, d - 1, e)
    } else {
        Moved::Off
    }
}

// A part has ended: the space before a bar, or `]`.
#[tactic(auto, unfolding(language::specs::Machine::ended))]
fn ended_by(d: usize, here: Event, out: Event, b: u8) -> Moved
    ensures { result ≡ ended d here out b }
{
    if b == b' ' {
        Moved::To(Control::Space, d, here)
    } else {
        closed_by(d, out, b)
    }
}

// The least value of a number: 1 of names and action numbers, 0 of keys.
#[tactic(auto, unfolding(language::specs::Machine::least_of))]
fn least_of(f: Field) -> u8
    ensures { result ≡ least_of f }
{
    match f {
        Field::EnterKey(_) | Field::ExitKey(_, _) | Field::OpenKey(_, _, _) => 0,
        _ => 1,
    }
}

// A part begins: a place's name, or an agent's first word.
#[tactic(auto, unfolding(language::specs::Machine::begin_part))]
fn begin_part(d: usize, b: u8) -> Moved
    ensures { result ≡ begin_part d b }
{
    if is_digit(1, b) {
        Moved::To(
            Control::Digits(Field::PlaceName, u16::from(b - b'0')),
            d,
            Event::Nothing,
        )
    } else {
        begin_word(d, Event::NewAgent, b)
    }
}

// What follows a number: `[` or a key after a name, the next key or `[` after a key, a full stop or the part's end after an
// action's number.
#[tactic(auto, unfolding(language::specs::Machine::follow))]
fn follow_by(f: Field, v: u16, d: usize, b: u8) -> Moved
    requires { d < 9223372036854775808 }
    ensures { result ≡ follow f v d b }
{
    match f {
        Field::PlaceName => match b {
            b'[' => Moved::To(Control::Within, d + 1, Event::NewPlace(v, v, v, v)),
            b'/' => Moved::To(Control::Before(Field::EnterKey(v)), d, Event::Nothing),
            _ => Moved::Off,
        },
        Field::EnterKey(n) => {
            if b == b'/' {
                Moved::To(Control::Before(Field::ExitKey(n, v)), d, Event::Nothing)
            } else {
                Moved::Off
            }
        }
        Field::ExitKey(n, e) => {
            if b == b'/' {
                Moved::To(Control::Before(Field::OpenKey(n, e, v)), d, Event::Nothing)
            } else {
                Moved::Off
            }
        }
        Field::OpenKey(n, e, q) => {
            if b == b'[' {
                Moved::To(Control::Within, d + 1, Event::NewPlace(n, e, q, v))
            } else {
                Moved::Off
            }
        }
        Field::ActionNumber(k) => {
            if b == b'.' {
                Moved::To(Control::Dot, d, Event::NewAction(k, v))
            } else {
                ended_by(d, Event::NewAction(k, v), Event::LastAction(k, v), b)
            }
        }
    }
}

// The number v with one digit more, where the byte continues it.
pub(super) fn more_digits(v: u16, b: u8) -> Option<u16>
    ensures { result ≡ longer v b }
{
    if v == 0 || !is_digit(0, b) {
        return None;
    }
    let n = u32::from(v) * 10 + u32::from(b - b'0');
    if n <= u32::from(u16::MAX) {
        Some(n as u16)
    } else {
        None
    }
}

// What a byte does, at each state and with d places open.
#[tactic(auto, unfolding(language::specs::Machine::next))]
pub(super) fn next_by(c: Control, d: usize, b: u8) -> Moved
    requires { d < 9223372036854775808 }
    ensures { result ≡ next c d b }
{
    match c {
        Control::Begin => {
            if b == b'0' {
                Moved::To(Control::Bare, d, Event::Nothing)
            } else {
                begin_part(d, b)
            }
        }
        Control::Bare => Moved::Off,
        Control::Part => begin_part(d, b),
        Control::Within => {
            if b == b']' {
                closed_by(d, Event::EndPlace, b)
            } else {
                begin_part(d, b)
            }
        }
        Control::After => ended_by(d, Event::Nothing, Event::EndPlace, b),
        Control::Space => {
            if b == b'|' {
                Moved::To(Control::Bar, d, Event::Nothing)
            } else {
                Moved::Off
            }
        }
        Control::Bar => {
            if b == b' ' {
                Moved::To(Control::Part, d, Event::Nothing)
            } else {
                Moved::Off
            }
        }
        Control::Dot => begin_word(d, Event::Nothing, b),
        Control::LetterE => match b {
            b'n' => Moved::To(Control::Spell(1, 2), d, Event::Nothing),
            b'x' => Moved::To(Control::Spell(2, 2), d, Event::Nothing),
            _ => Moved::Off,
        },
        Control::Spell(k, i) => spelled_by(k, i, d, b),
        Control::Before(f) => {
            if is_digit(least_of(f), b) {
                Moved::To(Control::Digits(f, u16::from(b - b'0')), d, Event::Nothing)
            } else {
                Moved::Off
            }
        }
        Control::Digits(f, v) => match more_digits(v, b) {
            Some(n) => Moved::To(Control::Digits(f, n), d, Event::Nothing),
            None => follow_by(f, v, d, b),
        },
    }
}
