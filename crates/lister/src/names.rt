// A place's name with its keys, where there is room for them.
ghost use Rattle.std.specs.Prelude.{◌≡◌};
ghost use Rattle.meaning.specs.Listing.{is_plain, slashed, name_text};
ghost use Rattle.text.specs.Wrote.{Wrote, Fits};
ghost use Rattle.lister.specs.Sheet.{keys_text, keyed_text, head_text};

use crate::numbers;
use table::Name;

// Whether the keys all equal the name.
fn is_plain(x: Name) -> bool
    ensures { result ≡ is_plain x }
{
    x.entering == x.name && x.exiting == x.name && x.opening == x.name
}

// A slash and a key.
fn write_slashed(key: u16, at: usize, buf: &mut [u8]) -> usize
    requires { Fits (slashed key) at buf.old }
    ensures { Wrote (slashed key) at buf.old buf.new result }
{
    buf[0] = b'/';
    numbers::write_number(key, at + 1, &mut buf[1..])
}

// The three keys, a slash before each.
fn write_keys(x: Name, at: usize, buf: &mut [u8]) -> usize
    requires { Fits (keys_text x) at buf.old }
    ensures { Wrote (keys_text x) at buf.old buf.new result }
{
    let first = write_slashed(x.entering, at, buf);
    let i = first - at;
    let second = write_slashed(x.exiting, first, &mut buf[i..]);
    let j = second - at;
    write_slashed(x.opening, second, &mut buf[j..])
}

// A name and its keys.
fn write_keyed(x: Name, at: usize, buf: &mut [u8]) -> usize
    requires { Fits (keyed_text x) at buf.old }
    ensures { Wrote (keyed_text x) at buf.old buf.new result }
{
    let mid = numbers::write_number(x.name, at, buf);
    let i = mid - at;
    write_keys(x, mid, &mut buf[i..])
}

// A name, with its keys where they do not all equal it.
fn write_name(x: Name, at: usize, buf: &mut [u8]) -> usize
    requires { Fits (name_text x) at buf.old }
    ensures { Wrote (name_text x) at buf.old buf.new result }
{
    if is_plain(x) {
        return numbers::write_number(x.name, at, buf);
    }
    write_keyed(x, at, buf)
}

// A name, and the bracket that opens the contents.
#[inline(never)]
pub(super) fn write_head(x: Name, at: usize, buf: &mut [u8]) -> usize
    requires { Fits (head_text x) at buf.old }
    ensures { Wrote (head_text x) at buf.old buf.new result }
{
    let mid = write_name(x, at, buf);
    let i = mid - at;
    buf[i] = b'[';
    mid + 1
}
