// Sets of rows by value: bit j of two words says whether row j is a member. Every contract speaks of members alone.
#![tactic(auto)]

ghost use Rattle.std.specs.Prelude.{◌≡◌, true, false, not, ℕ, ◌-◌, ◌^◌, ◌≤◌, ◌<◌, eqb, ltb, MatchOption};
ghost use Rattle.std.specs.Iterator.{at_most};
ghost use Rattle.finite.specs.Logic.{◌and◌, ◌or◌};
ghost use Rattle.finite.specs.Below.{any_below};
ghost use Rattle.finite.specs.Count.{count_below};
ghost use Rattle.model.specs.Limits.{ROWS};
ghost use Rattle.sets_of_rows.specs.Member.{in_set};
ghost use Rattle.sets_of_rows.specs.First.{First, Rest, next};

use std::ops::{BitAnd, BitOr, BitOrAssign, Sub};

pub mod kept; // sets that stand in a lent list of words

// Rows 0 to 63 and rows 64 to 127.
#[derive(Clone, Copy)]
pub struct Set {
    pub lo: u64,
    pub hi: u64,
}

// The bits of a word.
const WORD: usize = 64;

const ALL: u64 = 18446744073709551615;

// The lowest n bits of a word.
fn low(n: usize) -> u64
    requires { n ≤ 64 }
    ensures { result ≡ 2 ^ n - 1 }
{
    if n < WORD { (1u64 << n) - 1 } else { ALL }
}

// ---- sets that are made

impl Set {
    pub fn none() -> Set
        ensures { (j : ℕ) → in_set result j ≡ false }
    {
        Set { lo: 0, hi: 0 }
    }

    // Row i alone.
    // Ruled out: one that has row i % 64.
    pub fn bit(i: usize) -> Set
        requires { i < ROWS }
        ensures { (j : ℕ) → in_set result j ≡ eqb j i }
    {
        if i < WORD {
            Set {
                lo: 1u64 << i,
                hi: 0,
            }
        } else {
            Set {
                lo: 0,
                hi: 1u64 << (i - WORD),
            }
        }
    }

    // The rows before row n.
    pub fn below(n: usize) -> Set
        requires { n ≤ ROWS }
        ensures { (j : ℕ) → in_set result j ≡ ltb j n }
    {
        if n < WORD {
            Set { lo: low(n), hi: 0 }
        } else {
            Set {
                lo: ALL,
                hi: low(n - WORD),
            }
        }
    }

    // The rows after row i.
    // Ruled out: one that has row i; one that stops at row 64.
    pub fn above(i: usize) -> Set
        requires { i < ROWS }
        ensures { (j : ℕ) → in_set result j ≡ (ltb i j and ltb j ROWS) }
    {
        if i < WORD {
            Set {
                lo: (ALL - 1) << i,
                hi: ALL,
            }
        } else {
            Set {
                lo: 0,
                hi: (ALL - 1) << (i - WORD),
            }
        }
    }

    // The members where b holds, else none.
    pub fn only_if(self, b: bool) -> Set
        ensures { (j : ℕ) → in_set result j ≡ (b and in_set self j) }
    {
        if b { self } else { Set::none() }
    }

    // Without row i.
    pub fn without(self, i: usize) -> Set
        requires { i < ROWS }
        ensures { (j : ℕ) → in_set result j ≡ (in_set self j and not (eqb j i)) }
    {
        self - Set::bit(i)
    }

    // Without the first member.
    pub fn but_first(self) -> Set
        requires { any_below ROWS (in_set self) ≡ true }
        ensures { Rest self result }
    {
        if 0 < self.lo {
            Set {
                lo: self.lo & (self.lo - 1),
                hi: self.hi,
            }
        } else {
            Set {
                lo: 0,
                hi: self.hi & (self.hi - 1),
            }
        }
    }

    // ---- members

    pub fn has(self, i: usize) -> bool
        requires { i < ROWS }
        ensures { result ≡ in_set self i }
    {
        if i < WORD {
            return (self.lo >> i) % 2 == 1;
        }
        (self.hi >> (i - WORD)) % 2 == 1
    }

    // Whether there is a member.
    pub fn has_any(self) -> bool
        ensures { result ≡ any_below ROWS (in_set self) }
    {
        0 < (self.lo | self.hi)
    }

    // The first member.
    // Ruled out: one that looks at the first word alone.
    pub fn first(self) -> Option<usize>
        ensures { MatchOption result (any_below ROWS (in_set self) ≡ false) (First self) }
    {
        if 0 < self.lo {
            return Some(u64::trailing_zeros(self.lo) as usize);
        }
        if 0 < self.hi {
            return Some(WORD + (u64::trailing_zeros(self.hi) as usize));
        }
        None
    }

    // How many members there are.
    pub fn count(self) -> usize
        ensures { (result ≡ count_below ROWS (in_set self)) × (result ≤ ROWS) }
    {
        (u64::count_ones(self.lo) as usize) + (u64::count_ones(self.hi) as usize)
    }
}

// ---- sets of sets

impl BitOr for Set {
    type Output = Set;

    ghost bitor_gives = { λ a b r. (j : ℕ) → in_set r j ≡ (in_set a j or in_set b j) };

    fn bitor(self, other: Set) -> Set {
        Set {
            lo: self.lo | other.lo,
            hi: self.hi | other.hi,
        }
    }
}

impl BitOrAssign for Set {
    ghost bitor_assign_gives = { λ a b r. (j : ℕ) → in_set r j ≡ (in_set a j or in_set b j) };

    fn bitor_assign(&mut self, other: Set) {
        *self = *self | other;
    }
}

impl BitAnd for Set {
    type Output = Set;

    ghost bitand_gives = { λ a b r. (j : ℕ) → in_set r j ≡ (in_set a j and in_set b j) };

    fn bitand(self, other: Set) -> Set {
        Set {
            lo: self.lo & other.lo,
            hi: self.hi & other.hi,
        }
    }
}

// The members of the one that the other has not.
impl Sub for Set {
    type Output = Set;

    ghost sub_gives = { λ a b r. (j : ℕ) → in_set r j ≡ (in_set a j and not (in_set b j)) };

    fn sub(self, other: Set) -> Set {
        Set {
            lo: self.lo ^ (self.lo & other.lo),
            hi: self.hi ^ (self.hi & other.hi),
        }
    }
}

// ---- over the members, first to last

// Those that are left.
#[derive(Drop)]
pub struct Members {
    pub left: Set,
}

impl Iterator for Members {
    type Item = usize;

    ghost next_gives = { λ s r t. MatchOption r ((any_below ROWS (in_set s.left) ≡ false) × (t ≡ s)) (λ i. First s.left i × Rest s.left t.left) };

    ghost remaining = { λ s. at_most (ROWS - next s.left) };

    fn next(&mut self) -> Option<usize> {
        let i = self.left.first()?;
        self.left = self.left.but_first();
        Some(i)
    }
}

impl IntoIterator for Set {
    type Item = usize;

    type IntoIter = Members;

    ghost into_iter_gives = { λ s r. r.left ≡ s };

    fn into_iter(self) -> Members {
        Members { left: self }
    }
}
