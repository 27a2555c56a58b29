// Release: a new empty place.
ghost use Rattle.std.specs.Prelude.{◌≡◌};
ghost use Rattle.table.specs.Cell.{plain_name};
ghost use Rattle.meaning.specs.Update.{linked_place};

use table::{Name, Place};

// A place named n, all its keys n, linked to p.
pub fn new_place(n: u16, p: u8) -> Place
    ensures { result ≡ linked_place (plain_name n) p }
{
    Place {
        name: Name {
            name: n,
            entering: n,
            exiting: n,
            opening: n,
        },
        parent: p,
        way: 0,
    }
}
