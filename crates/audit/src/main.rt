// Level A, the program: reads a cell file, a trail and a final listing, and writes the finding on them as one line.
//
// With no argument it reads the files `cell`, `trail` and `final` of its working folder, with three the files that they name. A trail of
// 2,097,152 bytes or more and a final listing of 65,536 or more are not read. Where one of the three cannot be read, an absent one
// among them, it writes why to standard error, and nothing to standard output: it says nothing of what it has not read. What it reads of
// the files decides the finding, and the text holds every line whole (`auditing::write_audit`).

#![tactic(auto)]

ghost use Rattle.std.specs.Prelude.{◌≡◌};
ghost use Rattle.audit.specs.Names.{naming_by};

use auditing::{FINAL_BYTES, LINE_BYTES, TRAIL_BYTES};
use buffers::CELL_BYTES;
use files::{Absent, Extent, Program, Source, Unread, Wanted};

// Where the three files' names come from: their own, or three arguments.
#[derive(Clone, Copy, PartialEq, Eq, Debug)]
enum Naming {
    Usual,
    Given,
    Unclear,
}

const USAGE: &[u8] =
    b"usage: audit [CELL TRAIL FINAL]   (without paths: the files cell, trail and final of the working folder)\n";

// Without arguments the names are `cell`, `trail` and `final`; three arguments are the names; anything else is not understood. The
// program's own name is counted among its arguments.
#[tactic(auto, unfolding(crate::specs::Names::naming_by))]
fn naming_by(count: usize) -> Naming
    ensures { result ≡ naming_by count }
{
    match count {
        0 | 1 => Naming::Usual,
        4 => Naming::Given,
        _ => Naming::Unclear,
    }
}

// A file that is read so far; an absent one fails.
const fn present(name: &[u8], extent: Extent) -> Wanted {
    Wanted {
        name,
        absent: Absent::Failure,
        extent,
    }
}

// The finding on three files, which are read into these buffers, and how many bytes its line has.
fn run_in(
    audit: Program,
    [cells, trails, finals]: [Source; 3],
    cell: &mut [u8; CELL_BYTES],
    trail: &mut [u8; TRAIL_BYTES],
    last: &mut [u8; FINAL_BYTES],
) -> Result<usize, Unread> {
    let mut text = [0u8; LINE_BYTES];
    let n = audit.read_input(cells, present(b"cell", Extent::Start), cell)?;
    let m = audit.read_input(trails, present(b"trail", Extent::Whole), trail)?;
    let k = audit.read_input(finals, present(b"final", Extent::Whole), last)?;
    let r = auditing::write_audit(cell, n, trail, m, last, k, &mut text);
    audit.show(&text[..r])
}

// The finding on three files, and how many bytes its line has.
fn run(audit: Program, sources: [Source; 3]) -> Result<usize, Unread> {
    let mut cell = [0u8; CELL_BYTES];
    let mut trail = [0u8; TRAIL_BYTES];
    let mut last = [0u8; FINAL_BYTES];
    run_in(audit, sources, &mut cell, &mut trail, &mut last)
}

fn main(rt: HostRuntime) {
    let audit = Program {
        rt: &rt,
        name: b"audit",
        usage: USAGE,
    };
    let _told = match naming_by(files::argument_count(&rt)) {
        Naming::Usual => run(audit, [Source::Usual; 3]),
        Naming::Given => run(
            audit,
            [
                Source::Argument(1),
                Source::Argument(2),
                Source::Argument(3),
            ],
        ),
        Naming::Unclear => audit.misuse(),
    };
}
