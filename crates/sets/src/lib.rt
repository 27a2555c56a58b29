// A set of numbers below 64, one bit of a word for each.

#![tactic(auto)]

ghost use Rattle.std.specs.Prelude.{◌≡◌};
ghost use Rattle.sets.specs.Word.{count_of, lowest_of};
ghost use Rattle.sets.specs.Set.{member, inserted, inserted_if, removed, united};
ghost use Rattle.sets.specs.Walk.{TakesLowest};
ghost use Rattle.std.specs.Iterator.{at_most};

#[repr(C)]
#[derive(Clone, Copy, Debug, PartialEq, Eq)]
pub struct Set {
    pub bits: u64,
}

impl Set {
    // The set without members.
    pub const EMPTY: Set = Set { bits: 0 };

    // Whether i is a member.
    #[tactic(auto, unfolding(crate::specs::Word::has))]
    pub fn has(self, i: u8) -> bool
        ensures { result ≡ member self i }
    {
        i < 64 && (self.bits >> i) % 2 == 1
    }

    // With i; a number that is not below 64 is none.
    #[tactic(auto, using(crate::proofs::SetLaws::or_inserted, crate::proofs::SetLaws::inserted_past, crate::proofs::SetLaws::set_eq))]
    pub fn insert(self, i: u8) -> Set
        ensures { result ≡ inserted self i }
    {
        if i < 64 {
            Set {
                bits: self.bits | (1 << i),
            }
        } else {
            self
        }
    }

    // With i where b, and unchanged where not.
    pub fn insert_if(self, i: u8, b: bool) -> Set
        ensures { result ≡ inserted_if self i b }
    {
        if b { self.insert(i) } else { self }
    }

    // Without i.
    #[tactic(auto, using(crate::proofs::SetLaws::removed_none))]
    pub fn remove(self, i: u8) -> Set
        ensures { result ≡ removed self i }
    {
        if self.has(i) {
            Set {
                bits: self.bits ^ (1 << i),
            }
        } else {
            self
        }
    }

    // The members of either.
    #[tactic(auto, using(crate::proofs::SetLaws::or_united, crate::proofs::SetLaws::set_eq))]
    pub fn union(self, other: Set) -> Set
        ensures { result ≡ united self other }
    {
        Set {
            bits: self.bits | other.bits,
        }
    }

    // How many members there are.
    #[tactic(auto, using(crate::proofs::WordLaws::ones_has))]
    pub fn count(self) -> u32
        ensures { result ≡ count_of 64 (member self) }
    {
        self.bits.count_ones()
    }

    // The lowest member, or 64 where there is none.
    #[tactic(auto, using(crate::proofs::WordLaws::trailing_has))]
    pub fn lowest(self) -> u32
        ensures { result ≡ lowest_of 64 (member self) }
    {
        self.bits.trailing_zeros()
    }

    // The lowest member as a byte, or 64 where there is none.
    #[tactic(auto, using(crate::proofs::WordLaws::lowest_le))]
    pub fn first(self) -> u8
        ensures { result ≡ lowest_of 64 (member self) }
    {
        self.lowest() as u8
    }

    // Without its lowest member.
    #[tactic(auto, using(crate::proofs::WalkLaws::and_removed, crate::proofs::WalkLaws::removed_empty, crate::proofs::SetLaws::set_eq))]
    pub fn rest(self) -> Set
        ensures { result ≡ removed self (lowest_of 64 (member self)) }
    {
        if self.bits == 0 {
            self
        } else {
            Set {
                bits: self.bits & (self.bits - 1),
            }
        }
    }
}

// A walk over a set takes its members, the lowest first.
impl Iterator for Set {
    type Item = u8;

    ghost next_gives = { TakesLowest };

    ghost remaining = { λ s. at_most s.bits };

    fn next(&mut self) -> Option<u8> {
        if self.bits != 0 {
            let i = self.first();
            *self = self.rest();
            Some(i)
        } else {
            None
        }
    }
}
