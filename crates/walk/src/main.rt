// Level A, the program: reads a cell or a typed layout, and an order, and writes the report of the run.
//
// With no argument it reads the files `cell` and `order` of its working folder, with two the files that they name. With three of
// which the first is `--text` it reads a layout as a listing writes it, one line, from the file that the second names, and the order
// from the file that the third names. An absent file reads as empty: a cell file that is a bare floor, a text that is refused (16 at
// 0). A text of 65,536 bytes or more is not read. Where anything else keeps it from reading, it writes why to standard error, and
// nothing to standard output. What it reads of the files decides their report, and the text holds every report whole
// (`buffers::write_whole`, `buffers::write_typed`).

#![tactic(auto)]

ghost use Rattle.std.specs.Prelude.{◌≡◌};
ghost use Rattle.walk.specs.Names.{naming_by};

use buffers::{CELL_BYTES, ORDER_BYTES, TEXT_BYTES, TYPED_BYTES};
use files::{Absent, Extent, Program, Source, Unread, Wanted};
use std::env::Env;

// Where the two files' names come from: their own, two arguments, or two arguments after `--text`.
#[derive(Clone, Copy, PartialEq, Eq, Debug)]
enum Naming {
    Usual,
    Given,
    Typed,
    Unclear,
}

const USAGE: &[u8] =
    b"usage: walk [CELL ORDER | --text TEXT ORDER]   (without paths: the files cell and order of the working folder)\n";

// A file as much of which is read as there is room for; an absent one reads as empty.
const fn start_of(name: &[u8]) -> Wanted {
    Wanted {
        name,
        absent: Absent::Empty,
        extent: Extent::Start,
    }
}

// Without arguments the names are `cell` and `order`; two arguments are the names, unless the first is the option; so are the two
// after the option; anything else is not understood. The program's own name is counted among its arguments.
#[tactic(auto, unfolding(crate::specs::Names::naming_by))]
fn naming_by(count: usize, option: bool) -> Naming
    ensures { result ≡ naming_by count option }
{
    match (count, option) {
        (0 | 1, _) => Naming::Usual,
        (3, false) => Naming::Given,
        (4, true) => Naming::Typed,
        _ => Naming::Unclear,
    }
}

// Whether argument 1 is `--text`.
fn has_option(rt: &HostRuntime) -> bool {
    let mut word = [0u8; 8];
    match rt.arg(1, &mut word) {
        Ok(n) => &word[..n] == b"--text".as_slice(),
        Err(_) => false,
    }
}

// The report of a cell file, and how many bytes it has.
fn run_cell(walk: Program, cells: Source, orders: Source) -> Result<usize, Unread> {
    let mut cell = [0u8; CELL_BYTES];
    let mut order = [0u8; ORDER_BYTES];
    let mut text = [0u8; TEXT_BYTES];
    let n = walk.read_input(cells, start_of(b"cell"), &mut cell)?;
    let m = walk.read_input(orders, start_of(b"order"), &mut order)?;
    let k = buffers::write_whole(&cell, n, &order, m, &mut text);
    walk.show(&text[..k])
}

// The report of a typed layout, and how many bytes it has. The text is read whole or not at all.
fn run_typed(walk: Program) -> Result<usize, Unread> {
    let mut typed = [0u8; TYPED_BYTES];
    let mut order = [0u8; ORDER_BYTES];
    let mut text = [0u8; TEXT_BYTES];
    let whole = Wanted {
        extent: Extent::Whole,
        ..start_of(b"text")
    };
    let n = walk.read_input(Source::Argument(2), whole, &mut typed)?;
    let m = walk.read_input(Source::Argument(3), start_of(b"order"), &mut order)?;
    let k = buffers::write_typed(&typed, n, &order, m, &mut text);
    walk.show(&text[..k])
}

fn main(rt: HostRuntime) {
    let walk = Program {
        rt: &rt,
        name: b"walk",
        usage: USAGE,
    };
    let _told = match naming_by(files::argument_count(&rt), has_option(&rt)) {
        Naming::Usual => run_cell(walk, Source::Usual, Source::Usual),
        Naming::Given => run_cell(walk, Source::Argument(1), Source::Argument(2)),
        Naming::Typed => run_typed(walk),
        Naming::Unclear => walk.misuse(),
    };
}
