// The sets of the tests of rows, made of the sets of their codes.
ghost use Rattle.std.specs.Prelude.{◌≡◌, ℕ, ◌*◌, ◌≤◌, ◌<◌, length};
ghost use Rattle.finite.specs.Several.{ThreeOf};
ghost use Rattle.finite.specs.Logic.{◌or◌};
ghost use Rattle.sets_of_rows.specs.Member.{in_set};
ghost use Rattle.sets_of_rows.specs.Family.{nth};
ghost use Rattle.sets_of_table.specs.Filed.{FILED};
ghost use Rattle.sets_of_table.specs.Tested.{Makes, Accesses, Kinds, Orders, Marked, Tested, READS, ATOMIC, ACQUIRES, PUBLIC, TESTS_END};
ghost use Rattle.sets_of_table.specs.Sorted.{SORTED_END, HeldTo, SortsClass, Sorts};

use sets_of_rows::{Set, kept};

// Where the sets of tests begin, in words.
const TESTS: usize = 184;

// Where the sets of scopes begin, and those of classes, in sets.
const SCOPE: usize = 52;

const CLASSES: usize = 68;

// The rows of set a or b.
fn either(s: &[u64], a: usize, b: usize) -> Set
    requires { (2 * FILED ≤ length s.now) × (a < FILED) × (b < FILED) }
    ensures { (j : ℕ) → in_set result j ≡ (in_set (nth s.now 0 a) j or in_set (nth s.now 0 b) j) }
{
    kept::get(s, 0, a) | kept::get(s, 0, b)
}

// The rows of set a, b or c.
fn any(s: &[u64], a: usize, b: usize, c: usize) -> Set
    requires { (2 * FILED ≤ length s.now) × ThreeOf FILED a b c }
    ensures { (j : ℕ) → in_set result j ≡ (in_set (nth s.now 0 a) j or in_set (nth s.now 0 b) j or in_set (nth s.now 0 c) j) }
{
    either(s, a, b) | kept::get(s, 0, c)
}

// The rows of set a, b, c or d.
fn four(s: &[u64], a: usize, b: usize, c: usize, d: usize) -> Set
    requires { (2 * FILED ≤ length s.now) × ThreeOf FILED a b c × (d < FILED) }
    ensures { (j : ℕ) → in_set result j ≡ (in_set (nth s.now 0 a) j or in_set (nth s.now 0 b) j or (in_set (nth s.now 0 c) j or in_set (nth s.now 0 d) j)) }
{
    either(s, a, b) | either(s, c, d)
}

fn make_accesses(s: &mut [u64])
    requires { TESTS_END ≤ length s.old }
    ensures { Makes READS ATOMIC Accesses s.old s.new }
{
    let reads = any(s, 0, 2, 4);
    let writes = any(s, 1, 3, 4);
    kept::put(s, TESTS, 0, reads);
    kept::put(s, TESTS, 1, writes);
    kept::put(s, TESTS, 2, reads | writes);
}

fn make_kinds(s: &mut [u64])
    requires { TESTS_END ≤ length s.old }
    ensures { Makes ATOMIC ACQUIRES Kinds s.old s.new }
{
    let atomic = any(s, 2, 3, 4);
    let ranked = either(s, 3, 4);
    let barrier = either(s, 5, 6);
    kept::put(s, TESTS, 3, atomic);
    kept::put(s, TESTS, 4, ranked);
    kept::put(s, TESTS, 5, barrier);
}

fn make_orders(s: &mut [u64])
    requires { TESTS_END ≤ length s.old }
    ensures { Makes ACQUIRES PUBLIC Orders s.old s.new }
{
    let acquires = either(s, 49, 51);
    let releases = either(s, 50, 51);
    kept::put(s, TESTS, 6, acquires);
    kept::put(s, TESTS, 7, releases);
}

fn make_marked(s: &mut [u64])
    requires { TESTS_END ≤ length s.old }
    ensures { Makes PUBLIC TESTS_END Marked s.old s.new }
{
    let public = four(s, 61, 63, 65, 67);
    let own = kept::get(s, 0, SCOPE);
    let available = four(s, 62, 63, 66, 67) - own;
    let visible = four(s, 64, 65, 66, 67) - own;
    kept::put(s, TESTS, 8, public);
    kept::put(s, TESTS, 9, available);
    kept::put(s, TESTS, 10, visible);
}

// All of them, of rows that are filed.
pub fn make(s: &mut [u64])
    requires { TESTS_END ≤ length s.old }
    ensures { Makes READS TESTS_END Tested s.old s.new }
{
    make_accesses(s);
    make_kinds(s);
    make_orders(s);
    make_marked(s);
}

// ---- by classes

// The rows whose semantics have class q.
fn holding(s: &[u64], q: usize) -> Set
    requires { (2 * FILED ≤ length s.now) × (q < 4) }
    ensures { HeldTo s.now q 16 result }
{
    let mut a = Set::none();
    for m in 0..16 {
        let b = crate::ask::holds_class(m, q);
        a |= kept::get(s, 0, CLASSES + m).only_if(b);
    }
    a
}

// HOLDING and CLASSED of class q.
fn sort_class(s: &mut [u64], q: usize)
    requires { (SORTED_END ≤ length s.old) × (q < 4) }
    ensures { SortsClass q s.old s.new }
{
    let a = holding(s, q);
    let b = kept::get(s, crate::ACCESS, 0) & kept::get(s, crate::BY_CLASS, q);
    kept::put(s, crate::HOLDING, q, a);
    kept::put(s, crate::CLASSED, q, b);
}

// PLAIN, HOLDING and CLASSED.
pub fn sort(s: &mut [u64])
    requires { SORTED_END ≤ length s.old }
    ensures { Sorts s.old s.new }
{
    let plain = either(s, 0, 1);
    kept::put(s, crate::PLAIN, 0, plain);
    for q in 0..4 {
        sort_class(s, q);
    }
}
