// What hosts in C and Rust and a card call (Level B): each export is the call of crate `keeper` of its name, with its promise.

#![tactic(auto)]

ghost use Rattle.keeper.specs.Version.{keeper_version, cell_bytes};
ghost use Rattle.language.specs.Read.{read_of};
ghost use Rattle.meaning.specs.Ask.{ask_of, handed_of};
ghost use Rattle.meaning.specs.Codes.{check_of, idle_of, load_number, step_number, ask_number, touch_number, found_number, limit_number, list_number, check_number, idle_number};
ghost use Rattle.meaning.specs.File.{load_of};
ghost use Rattle.meaning.specs.Limit.{ceiling_of};
ghost use Rattle.meaning.specs.Listing.{list_answer, list_buffer};
ghost use Rattle.meaning.specs.Run.{step_of};
ghost use Rattle.meaning.specs.Touch.{touch_of, touches_of};
ghost use Rattle.meaning.specs.Where.{nearest_of, common_of};
ghost use Rattle.std.specs.Prelude.{◌≡◌};
ghost use Rattle.table.specs.Cell.{bare_table, cell_of};
ghost use Rattle.trail.specs.Written.{told_answer, told_buffer};
ghost use Rattle.window.specs.Window.{command_of, clear_of};

use table::Cell;
use window::Window;

// A bare floor.
#[unsafe(no_mangle)]
pub extern "C" fn keeper_bare(cell: &mut Cell) -> u64
    ensures { (cell.new ≡ bare_table) × (result ≡ 0) }
{
    keeper::keeper_bare(cell)
}

// The cell of a cell file.
#[unsafe(no_mangle)]
pub extern "C" fn keeper_load(cell: &mut Cell, file: &[u8]) -> u64
    ensures { (cell.new ≡ (load_of cell.old file.now).cell)
        × (result ≡ load_number (load_of cell.old file.now).verdict) }
{
    keeper::keeper_load(cell, file)
}

// The cell of a typed text.
#[unsafe(no_mangle)]
pub extern "C" fn keeper_read(cell: &mut Cell, text: &[u8]) -> u64
    ensures { (cell.new ≡ (read_of cell.old text.now).cell)
        × (result ≡ load_number (read_of cell.old text.now).verdict) }
{
    keeper::keeper_read(cell, text)
}

// One lock step.
#[unsafe(no_mangle)]
pub extern "C" fn keeper_step(cell: &mut Cell, agent: u8, wish: u8) -> u64
    ensures { (cell.new ≡ (step_of cell.old agent wish).cell)
        × (result ≡ step_number (step_of cell.old agent wish).answer) }
{
    keeper::keeper_step(cell, agent, wish)
}

// What a lock step would give.
#[unsafe(no_mangle)]
pub extern "C" fn keeper_ask(cell: &Cell, agent: u8, wish: u8) -> u64
    ensures { result ≡ ask_number (ask_of cell.now agent wish) }
{
    keeper::keeper_ask(cell, agent, wish)
}

// The lock step, if an ask would still give this number: 18 otherwise.
#[unsafe(no_mangle)]
pub extern "C" fn keeper_commit(cell: &mut Cell, agent: u8, wish: u8, answer: u64) -> u64
    ensures { (cell.new ≡ (handed_of cell.old agent wish answer).cell)
        × (result ≡ step_number (handed_of cell.old agent wish answer).answer) }
{
    keeper::keeper_commit(cell, agent, wish, answer)
}

// A touch call.
#[unsafe(no_mangle)]
pub extern "C" fn keeper_touch(cell: &mut Cell, place: u8, number: u32) -> u64
    ensures { (cell.new ≡ (touch_of cell.old place number).cell)
        × (result ≡ touch_number (touch_of cell.old place number).answer) }
{
    keeper::keeper_touch(cell, place, number)
}

// The touches of a place.
#[unsafe(no_mangle)]
pub extern "C" fn keeper_touches(cell: &Cell, place: u8) -> u64
    ensures { result ≡ touch_number (touches_of cell.now place) }
{
    keeper::keeper_touches(cell, place)
}

// The nearest enclosing place of a name.
#[unsafe(no_mangle)]
pub extern "C" fn keeper_nearest(cell: &Cell, place: u8, name: u16) -> u64
    ensures { result ≡ found_number (nearest_of cell.now place name) }
{
    keeper::keeper_nearest(cell, place, name)
}

// The innermost place that holds or is both of two.
#[unsafe(no_mangle)]
pub extern "C" fn keeper_common(cell: &Cell, place: u8, other: u8) -> u64
    ensures { result ≡ found_number (common_of cell.now place other) }
{
    keeper::keeper_common(cell, place, other)
}

// How many step calls can still change the cell, at most.
#[unsafe(no_mangle)]
pub extern "C" fn keeper_ceiling(cell: &Cell) -> u64
    ensures { result ≡ limit_number (ceiling_of cell.now) }
{
    keeper::keeper_ceiling(cell)
}

// The listing, in a lent text.
#[unsafe(no_mangle)]
pub extern "C" fn keeper_list(cell: &Cell, text: &mut [u8]) -> u64
    ensures { (text.new ≡ list_buffer (cell_of cell.now) text.old)
        × (result ≡ list_number (list_answer (cell_of cell.now) text.old)) }
{
    keeper::keeper_list(cell, text)
}

// Whether the cell is sound.
#[unsafe(no_mangle)]
pub extern "C" fn keeper_check(cell: &Cell) -> u64
    ensures { result ≡ check_number (check_of cell.now) }
{
    keeper::keeper_check(cell)
}

// Whether all agents are asleep or done.
#[unsafe(no_mangle)]
pub extern "C" fn keeper_idle(cell: &Cell) -> u64
    ensures { result ≡ idle_number (idle_of cell.now) }
{
    keeper::keeper_idle(cell)
}

// One command: the step of the agent in the window, with its wish, where it is 1. What is the card's is read once and not written.
#[unsafe(no_mangle)]
pub extern "C" fn keeper_command(cell: &mut Cell, window: &mut Window)
    ensures { (cell.new ≡ (command_of cell.old window.old).cell)
        × (window.new ≡ (command_of cell.old window.old).window) }
{
    keeper::keeper_command(cell, window);
}

// Ones written to the flags clear those bits. Nothing else but the line is written.
#[unsafe(no_mangle)]
pub extern "C" fn keeper_clear(window: &mut Window, ones: u8)
    ensures { window.new ≡ clear_of window.old ones }
{
    keeper::keeper_clear(window, ones);
}

// The version of the library, 6.3.0, as one number.
#[unsafe(no_mangle)]
pub extern "C" fn keeper_version() -> u64
    ensures { result ≡ keeper_version }
{
    keeper::keeper_version()
}

// How many bytes a cell has.
#[unsafe(no_mangle)]
pub extern "C" fn keeper_cell_bytes() -> u64
    ensures { result ≡ cell_bytes }
{
    keeper::keeper_cell_bytes()
}

// The bytes of a move of this agent, by the number that `keeper_ask` answered, at the start of what is left of a trail's buffer.
#[unsafe(no_mangle)]
pub extern "C" fn keeper_trail(agent: u8, asked: u64, trail: &mut [u8]) -> u64
    ensures { (trail.new ≡ told_buffer agent asked trail.old)
        × (result ≡ list_number (told_answer agent asked trail.old)) }
{
    keeper::keeper_trail(agent, asked, trail)
}
