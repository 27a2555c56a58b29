// Numbers in decimal, where there is room for them.
ghost use Rattle.std.specs.Prelude.{◌≡◌, ◌+◌, ◌%◌, ◌<◌};
ghost use Rattle.meaning.specs.Text.{decimal};
ghost use Rattle.text.specs.Wrote.{Wrote, Fits};

// The last digit of a number.
fn digit(n: u16) -> u8
    ensures { result ≡ 48 + n % 10 }
{
    48 + ((n % 10) as u8)
}

// A number of one digit.
fn single(n: u16) -> u8
    requires { n < 10 }
    ensures { result ≡ 48 + n % 10 }
{
    48 + (n as u8)
}

// A number below 65,536.
pub(super) fn write_number(n: u16, at: usize, buf: &mut [u8]) -> usize
    requires { Fits (decimal n) at buf.old }
    ensures { Wrote (decimal n) at buf.old buf.new result }
{
    if n < 10 {
        buf[0] = single(n);
        return at + 1;
    }
    let t = n / 10;
    if n < 100 {
        buf[0] = single(t);
        buf[1] = digit(n);
        return at + 2;
    }
    let h = t / 10;
    if n < 1000 {
        buf[0] = single(h);
        buf[1] = digit(t);
        buf[2] = digit(n);
        return at + 3;
    }
    let k = h / 10;
    if n < 10000 {
        buf[0] = single(k);
        buf[1] = digit(h);
        buf[2] = digit(t);
        buf[3] = digit(n);
        return at + 4;
    }
    buf[0] = single(k / 10);
    buf[1] = digit(k);
    buf[2] = digit(h);
    buf[3] = digit(t);
    buf[4] = digit(n);
    at + 5
}
