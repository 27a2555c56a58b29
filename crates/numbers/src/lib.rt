// Every answer as one number, for hosts in C: bits 0 to 7 are 0 or the refusal's number, what else there is to say stands above them.

#![tactic(auto)]

ghost use Rattle.std.specs.Prelude.{◌≡◌};
ghost use Rattle.meaning.specs.Codes as codes;
ghost use Rattle.trail.specs.Trail as trails;

use meaning::{
    Answer, Asked, Checked, Found, Idled, Limit, Listed, Rejection, Touching, Verdict, Word,
};
use trail::Finding;

// A number in bits 8 and up, over a refusal's number in bits 0 to 7.
fn above(number: u64, low: u8) -> u64
    ensures { result ≡ codes.above number low }
{
    number % 0x100_0000_0000_0000 * 256 + u64::from(low)
}

// A number that a call tells above 0, or its refusal's number.
fn told_number(answer: Result<u64, u8>) -> u64
    ensures { result ≡ codes.touch_number answer }
{
    match answer {
        Ok(number) => above(number, 0),
        Err(number) => u64::from(number),
    }
}

// A word.
pub fn word_number(word: Word) -> u8
    ensures { result ≡ codes.word_number word }
{
    match word {
        Word::Looked => 0,
        Word::Took => 1,
        Word::Held => 2,
        Word::Back => 3,
        Word::Slept => 4,
        Word::Left => 5,
        Word::Came => 6,
        Word::Opened => 7,
        Word::Put => 8,
        Word::Asleep => 9,
        Word::Done => 10,
    }
}

// A step's answer: the word in bits 8 to 15 and the number woken in bits 16 to 23.
pub fn step_number(answer: Answer) -> u64
    ensures { result ≡ codes.step_number answer }
{
    told_number(answer.map(|o| u64::from(o.woken) * 256 + u64::from(word_number(o.word))))
}

// An ask's answer: the word in bits 8 to 15, the number woken in bits 16 to 23 and the place in bits 24 to 31.
pub fn ask_number(asked: Asked) -> u64
    ensures { result ≡ codes.ask_number asked }
{
    told_number(asked.map(|p| {
        u64::from(p.place) * 65536 + (u64::from(p.woken) * 256 + u64::from(word_number(p.word)))
    }))
}

// A load's answer: 0, or the offset of the refused record above the refusal's number.
pub fn load_number(verdict: Verdict) -> u64
    ensures { result ≡ codes.load_number verdict }
{
    match verdict {
        Ok(()) => 0,
        Err(Rejection { number, offset }) => above(offset as u64, number),
    }
}

// A touch call's answer: the place's count above 0.
pub fn touch_number(answer: Touching) -> u64
    ensures { result ≡ codes.touch_number answer }
{
    told_number(answer)
}

// Where a place is: the place in bits 8 to 15, 255 for none.
pub fn found_number(found: Found) -> u64
    ensures { result ≡ codes.found_number found }
{
    told_number(found.map(|place| u64::from(place.unwrap_or(255))))
}

// A listing's answer: the length above 0.
pub fn list_number(answer: Listed) -> u64
    ensures { result ≡ codes.list_number answer }
{
    told_number(answer.map(|length| length as u64))
}

// A check's answer.
pub fn check_number(answer: Checked) -> u64
    ensures { result ≡ codes.check_number answer }
{
    told_number(answer.map(|()| 0))
}

// Whether all are asleep or done: 1 above 0 if they are.
pub fn idle_number(answer: Idled) -> u64
    ensures { result ≡ codes.idle_number answer }
{
    told_number(answer.map(u64::from))
}

// A ceiling's answer: how many step calls at most above 0.
pub fn limit_number(answer: Limit) -> u64
    ensures { result ≡ codes.limit_number answer }
{
    touch_number(answer)
}

// The finding on a trail: a refused file as a load's answer; else the reason in bits 8 to 15, 0 for yes, and from bit 16 on how many moves stand before
// what is wrong, of which the lowest 48 bits are told.
pub fn finding_number(found: Finding) -> u64
    ensures { result ≡ trails.finding_number found }
{
    match found {
        Finding::Upheld => 0,
        Finding::Denied(moves, reason) => {
            let told = moves as u64 % 0x1_0000_0000_0000;
            above(told * 256 + u64::from(reason), 0)
        }
        Finding::BadFile(number, offset) => above(offset as u64, number),
    }
}
