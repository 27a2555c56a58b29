// The check of a trail for hosts in C and Rust (Level B), as a static library: the call of crate `auditor`, with its promise.

#![tactic(auto)]

ghost use Rattle.std.specs.Prelude.{◌≡◌};
ghost use Rattle.trail.specs.Trail.{finding, finding_number};

// The finding on a cell file, a trail and a listing.
#[unsafe(no_mangle)]
pub extern "C" fn keeper_audit(file: &[u8], trail: &[u8], listing: &[u8]) -> u64
    ensures { result ≡ finding_number (finding file.now trail.now listing.now) }
{
    auditor::keeper_audit(file, trail, listing)
}
