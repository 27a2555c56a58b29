// The flags: bits that are set and cleared, and whether the mask lets one through to the line.
ghost use Rattle.std.specs.Prelude.{◌≡◌, ◌<◌};
ghost use Rattle.sets.specs.Word.{bit as bit_of};
ghost use Rattle.window.specs.Window.{with_flag, cleared, shares};

// The bits of the flags: a step woke someone; all agents are asleep or done after one; a step was refused.
pub(super) const WOKE: u8 = 0;

pub(super) const REST: u8 = 1;

pub(super) const REFUSED: u8 = 2;

// The flags once this bit is set, if b.
pub(super) fn with_flag(flags: u8, bit: u8, b: bool) -> u8
    requires { bit < 8 }
    ensures { result ≡ with_flag bit b flags }
{
    if b { flags | 1 << bit } else { flags }
}

// The flags without those that are ones.
pub(super) fn without(flags: u8, ones: u8) -> u8
    ensures { result ≡ cleared flags ones }
{
    flags & !ones
}

// 1 where the flags and the mask share a bit, else 0.
pub(super) fn line_of(flags: u8, mask: u8) -> u8
    ensures { result ≡ bit_of (shares flags mask) }
{
    if flags & mask == 0 { 0 } else { 1 }
}
