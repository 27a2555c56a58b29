// What a host asks at its start: whether this is the library, and the layout of a cell, that it was made for.
ghost use Rattle.std.specs.Prelude.{◌≡◌};
ghost use Rattle.keeper.specs.Version.{keeper_version, cell_bytes};

// The version of the library, 6.3.0, as one number.
pub fn keeper_version() -> u64
    ensures { result ≡ keeper_version }
{
    393984
}

// How many bytes a cell has.
pub fn keeper_cell_bytes() -> u64
    ensures { result ≡ cell_bytes }
{
    5776
}
