// The words of the actions, byte by byte.
ghost use Rattle.std.specs.Prelude.{◌≡◌, ◌<◌, ◌+◌, length, get_or};
ghost use Rattle.meaning.specs.Listing.{kind_text};
ghost use Rattle.language.specs.Machine.{spelled};

use language::{Control, Event, Field, Moved};

// A byte of a word, or 0 past its end.
fn byte_of(w: &[u8], i: u8) -> u8
    ensures { result ≡ get_or w.now i 0 }
{
    w.get(usize::from(i)).copied().unwrap_or(0)
}

// A byte of the word of a kind, or 0 past its end.
#[tactic(auto, unfolding(meaning::specs::Listing::kind_text, table::specs::Base::tab))]
fn word_byte(k: u8, i: u8) -> u8
    ensures { result ≡ get_or (kind_text k) i 0 }
{
    match k {
        1 => byte_of(b"enter ", i),
        2 => byte_of(b"exit ", i),
        3 => byte_of(b"open ", i),
        _ => byte_of(b"release ", i),
    }
}

// Where the word of a kind has its last byte.
#[tactic(auto, unfolding(meaning::specs::Listing::kind_text, table::specs::Base::tab))]
fn word_last(k: u8) -> u8
    ensures { (result + 1 ≡ length (kind_text k)) × (result < 8) }
{
    match k {
        1 => 5,
        2 | 3 => 4,
        _ => 7,
    }
}

// One byte more of the word of a kind, of which i are read.
pub(super) fn spelled_by(k: u8, i: u8, d: usize, b: u8) -> Moved
    ensures { result ≡ spelled k i d b }
{
    if b != word_byte(k, i) {
        return Moved::Off;
    }
    if i < word_last(k) {
        Moved::To(Control::Spell(k, i + 1), d, Event::Nothing)
    } else {
        Moved::To(Control::Before(Field::ActionNumber(k)), d, Event::Nothing)
    }
}
