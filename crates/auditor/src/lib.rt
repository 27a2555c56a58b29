// Checking a trail, for hosts in C and Rust (Level B): one call, in a library of its own, so that the keeper's are compiled as they
// are without it. Crate `auditor_c` exports it.

#![tactic(auto)]

ghost use Rattle.std.specs.Prelude.{◌≡◌};
ghost use Rattle.trail.specs.Trail.{finding, finding_number};

use checker::check_trail;
use numbers::finding_number;

// The finding on a cell file, a trail and a listing.
pub fn keeper_audit(file: &[u8], trail: &[u8], listing: &[u8]) -> u64
    ensures { result ≡ finding_number (finding file.now trail.now listing.now) }
{
    let found = check_trail(file, trail, listing);
    finding_number(found)
}
