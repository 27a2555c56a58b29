// The machine that reads a listing byte by byte: its states and what a byte does, as values that code and written meaning share.

#![tactic(auto)]

// Which number is being read; the keys carry what was read before them.
#[derive(Clone, Copy)]
pub enum Field {
    // A place's name.
    PlaceName,
    // The key for entering, after the name.
    EnterKey(u16),
    // The key for exiting, after the name and the first key.
    ExitKey(u16, u16),
    // The key for opening, after the name and two keys.
    OpenKey(u16, u16, u16),
    // The number of an action of this kind.
    ActionNumber(u8),
}

// What has been read last.
#[derive(Clone, Copy)]
pub enum Control {
    // Nothing yet.
    Begin,
    // `0`: a bare floor.
    Bare,
    // A bar and its spaces: a part must begin.
    Part,
    // `[`: a part may begin, or the place is empty.
    Within,
    // `]`: a place has ended.
    After,
    // The space before a bar.
    Space,
    // The bar.
    Bar,
    // A full stop: an action must begin.
    Dot,
    // `e`, which begins two words.
    LetterE,
    // So many bytes of the word of this kind.
    Spell(u8, u8),
    // What comes before a number.
    Before(Field),
    // A number up to this value.
    Digits(Field, u16),
}

// What a byte adds to the cell.
#[derive(Clone, Copy)]
pub enum Event {
    Nothing,
    // An agent begins here.
    NewAgent,
    // The agent's next action: kind and number.
    NewAction(u8, u16),
    // A place begins here: name and keys.
    NewPlace(u16, u16, u16, u16),
    // The place ends.
    EndPlace,
    // An action, and then the place ends.
    LastAction(u8, u16),
}

// What a byte does: what has been read then, how many places are open, and what it adds; or no text continues so.
#[derive(Clone, Copy)]
pub enum Moved {
    To(Control, usize, Event),
    Off,
}
