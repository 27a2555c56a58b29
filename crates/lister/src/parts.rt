// Parts in byte order. A writer has put texts one after the other, a bar between two; here they are put in order.
//
// The order is found by comparing the bytes that were written, each part being put in among those before it; one comparison
// is enough where it comes after them all, two where it comes before them. Only parts that are out of order are copied aside
// and back.
ghost use Rattle.std.specs.Prelude.{◌≡◌, true, [], ◌+◌, ◌-◌, ◌*◌, ◌≤◌, ◌<◌, length};
ghost use Rattle.meaning.specs.Text.{joined_all, overlay};
ghost use Rattle.meaning.specs.Sorted.{leq};
ghost use Rattle.lengths.specs.Longest.{longest_listing};
ghost use Rattle.lister.specs.Sheet.{bar};
ghost use Rattle.lister.specs.Cuts.{alike, cut, Eight, start_of, part_at, put_in, in_row, Inside, Row, Rank, Ordering, Rewritable, Copyable};
ghost use Rattle.lister.specs.Marked.{AnyMarked, Arranged};

// How many bytes of parts are copied aside to a small array.
const FEW_BYTES: usize = 1024;

// The eight bytes from i on as one number.
fn eight(buf: &[u8], i: usize) -> u64
    requires { i + 8 ≤ length buf.now }
    ensures { Eight buf.now i result }
{
    u64::from_le_bytes([
        buf[i],
        buf[i + 1],
        buf[i + 2],
        buf[i + 3],
        buf[i + 4],
        buf[i + 5],
        buf[i + 6],
        buf[i + 7],
    ])
}

// Whether the eight bytes from i on are those from j on: they are compared all at once.
fn same_eight(buf: &[u8], i: usize, j: usize) -> bool
    requires { (i + 8 ≤ length buf.now) × (j + 8 ≤ length buf.now) }
    ensures { result ≡ alike buf.now i j 8 }
{
    eight(buf, i) == eight(buf, j)
}

// How many bytes from s on are passed, eight at a time, because they are those from t on.
fn pass(buf: &[u8], s: usize, t: usize, n: usize) -> usize
    requires { (s + n ≤ length buf.now) × (t + n ≤ length buf.now) }
    ensures { (result ≤ n) × (alike buf.now s t result ≡ true) }
{
    for k in 0..n / 8 {
        if !same_eight(buf, s + 8 * k, t + 8 * k) {
            return 8 * k;
        }
    }
    8 * (n / 8)
}

// Whether the text from s to before e is the one from t to before f or comes before it.
fn comes_first(buf: &[u8], s: usize, e: usize, t: usize, f: usize) -> bool
    requires { ((s ≤ e) × (e ≤ length buf.now)) × ((t ≤ f) × (f ≤ length buf.now)) }
    ensures { result ≡ leq (cut buf.now s e) (cut buf.now t f) }
{
    let n = text::least(e - s, f - t);
    let passed = pass(buf, s, t, n);
    for i in passed..n {
        let x = buf[s + i];
        let y = buf[t + i];
        if x != y {
            return x < y;
        }
    }
    e - s <= f - t
}

// Where part i starts.
fn start(ends: &[u16; 64], i: usize) -> usize
    requires { i < 64 }
    ensures { result ≡ start_of ends.now i }
{
    if i == 0 {
        return 0;
    }
    (ends[i - 1] as usize) + 3
}

// Whether part j is part i, which is a later one, or comes before it.
fn is_upto(ends: &[u16; 64], j: usize, i: usize, buf: &[u8]) -> bool
    requires { (j < i) × Inside ends.now (i + 1) buf.now }
    ensures { result ≡ leq (part_at ends.now buf.now j) (part_at ends.now buf.now i) }
{
    comes_first(
        buf,
        start(ends, j),
        ends[j] as usize,
        start(ends, i),
        ends[i] as usize,
    )
}

// How many of the first i parts, which a row has in order, are part i or come before it: its place in the row.
fn rank(row: &[u8; 64], ends: &[u16; 64], i: usize, buf: &[u8]) -> usize
    requires { Inside ends.now (i + 1) buf.now × Row ends.now buf.now i row.now }
    ensures { Rank (part_at ends.now buf.now) row.now i result }
{
    if i == 0 {
        return 0;
    }
    if is_upto(ends, row[i - 1] as usize, i, buf) {
        return i;
    }
    if !is_upto(ends, row[0] as usize, i, buf) {
        return 0;
    }
    // The bounds come together by halves: a search that no `for` walks, and whose test reads the buffer.
    let mut low: usize = 0;
    let mut high: usize = i - 1;
    while low < high {
        let m = low + (high - low) / 2;
        if is_upto(ends, row[m] as usize, i, buf) {
            low = m + 1;
        } else {
            high = m;
        }
    }
    low
}

// Puts x into the first i of a row, so many before it.
fn put_in(row: &mut [u8; 64], i: usize, at: usize, x: u8)
    requires { (i < 64) × (at ≤ i) }
    ensures { row.new ≡ put_in at i x row.old }
{
    row.copy_within(at..i, at + 1);
    row[at] = x;
}

// Finds the order of the parts: a row of their numbers. Answers how far parts were moved in all.
fn order(ends: &[u16; 64], many: usize, buf: &[u8], row: &mut [u8; 64]) -> usize
    requires { Inside ends.now many buf.now × (length row.old ≡ 64) }
    ensures { Ordering ends.now buf.now many row.new result }
{
    let mut moved: usize = 0;
    for i in 0..many {
        let at = rank(row, ends, i, buf);
        put_in(row, i, at, i as u8);
        moved += i - at;
    }
    moved
}

// Writes the parts of a copy in the order of a row, a bar between two.
fn rewrite(row: &[u8; 64], ends: &[u16; 64], many: usize, spare: &[u8], buf: &mut [u8])
    requires { Rewritable ends.now spare.now many row.now buf.old }
    ensures { buf.new ≡ overlay (joined_all bar [] (in_row (part_at ends.now spare.now) many row.now)) buf.old }
{
    let mut at: usize = 0;
    for i in 0..many {
        let k = row[i] as usize;
        let s = start(ends, k);
        let e = ends[k] as usize;
        let mid = crate::write_bar(0, at, &mut buf[at..]);
        at = text::write_bytes(&spare[s..e], mid, &mut buf[mid..]);
    }
}

// Puts parts in the order of a row: so many bytes at most, which are copied aside.
fn arrange_aside<const BYTES: usize>(row: &[u8; 64], ends: &[u16; 64], many: usize, buf: &mut [u8])
    requires { (BYTES ≤ longest_listing) × Copyable BYTES ends.now many row.now buf.old }
    ensures { Arranged ends.now many buf.old buf.new }
{
    let mut spare = [0; BYTES];
    let n = ends[many - 1] as usize;
    spare[..n].copy_from_slice(&buf[..n]);
    rewrite(row, ends, many, &spare, buf);
}

// Puts so many parts at the start of a buffer in byte order; ends: where each of them ends. The definitions `Marked` and `Inside`
// hold the array with its count beside.
pub(super) fn arrange(ends: &[u16; 64], many: usize, buf: &mut [u8])
    requires { AnyMarked ends.now many buf.old }
    ensures { Arranged ends.now many buf.old buf.new }
{
    if many < 2 {
        return;
    }
    let mut row: [u8; 64] = [0; 64];
    let moved = order(ends, many, buf, &mut row);
    if moved == 0 {
        return;
    }
    if (ends[many - 1] as usize) <= FEW_BYTES {
        arrange_aside::<FEW_BYTES>(&row, ends, many, buf);
    } else {
        arrange_aside::<{ crate::PAGE_BYTES }>(&row, ends, many, buf);
    }
}
