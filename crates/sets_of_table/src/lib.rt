// What is known of the rows of a run, made once: sets of rows in a lent list of words, by the codes and tests of rows, by the scopes that
// agents share, and by locations and references. Every stage asks these.
#![tactic(auto)]

ghost use Rattle.std.specs.Prelude.{◌+◌, ◌*◌, ◌≤◌, ◌<◌, length, ◌≡◌};
ghost use Rattle.model.specs.Limits.{ROWS};
ghost use Rattle.run.specs.Layout.{rows_in, table_of};
ghost use Rattle.sets_of_rows.specs.Family.{Marks};
ghost use Rattle.sets_of_rows.specs.Kept.{set_at};
ghost use Rattle.sets_of_table.specs.Filed.{Coded, CodedRows, Files, FILED, marks, marks_who, marks_how, marks_what};
ghost use Rattle.sets_of_table.specs.Fit.{Fit};
ghost use Rattle.sets_of_table.specs.Known.{WORDS, MadeKnown};

pub mod ask; // sets that go by a row
pub mod fields; // one number of a row
pub mod number; // rows that have one location, or one reference
pub mod share; // the rows that share scopes with an agent
pub mod tests; // the sets of tests

use model::Row;
use run::Run;
use sets_of_rows::{Set, kept};

// ---- where sets begin, in words

// By the value of a code: 16 kinds, 32 agents, 4 orders, 8 scopes, 8 flags, 16 sets of classes, 8 classes.
pub const BY_KIND: usize = 0;

pub const BY_AGENT: usize = 32;

pub const BY_ORDER: usize = 96;

pub const BY_SCOPE: usize = 104;

pub const BY_FLAGS: usize = 120;

pub const BY_CLASSES: usize = 136;

pub const BY_CLASS: usize = 168;

// By a test.
pub const READS: usize = 184;

pub const WRITES: usize = 186;

pub const ACCESS: usize = 188;

pub const ATOMIC: usize = 190;

pub const RANKED: usize = 192;

pub const BARRIER: usize = 194;

pub const ACQUIRES: usize = 196;

pub const RELEASES: usize = 198;

pub const PUBLIC: usize = 200;

// Rows that perform an availability operation, and a visibility operation: those of invocation scope are none.
pub const AVAILABLE: usize = 202;

pub const VISIBLE: usize = 204;

pub const PLAIN: usize = 206;

// By one class: the rows whose semantics have it, and the accesses whose reference is of it.
pub const HOLDING: usize = 208;

pub const CLASSED: usize = 216;

// By agent and scope: the rows of agents that share the scope with the agent.
pub const SHARE: usize = 224;

// Rows of agents that execute on the host.
pub const ON_HOST: usize = 544;

// By agent: the rows whose own scope the agent shares.
pub const HEARS: usize = 546;

// By access: the accesses of its location, and of its reference.
pub const PLACE: usize = 610;

pub const REFERENCE: usize = 866;

// All of them.
pub const WORDS: usize = 1122;

// ---- rows filed by their codes

// Where the sets of the values of each code begin, in sets.
const KIND: usize = 0;

const AGENT: usize = 16;

const ORDER: usize = 48;

const SCOPE: usize = 52;

const FLAGS: usize = 60;

const CLASSES: usize = 68;

const CLASS: usize = 84;

// Where they end, in words.
const FILED_END: usize = 184;

// Row i joins the sets of its kind, agent and order.
fn file_who(s: &mut [u64], i: usize, r: Row)
    requires { (2 * FILED ≤ length s.old) × (i < ROWS) × Coded r }
    ensures { Marks 0 FILED (marks_who r) i s.old s.new }
{
    kept::put_bit(s, 0, KIND + (r.kind as usize), i);
    kept::put_bit(s, 0, AGENT + (r.agent as usize), i);
    kept::put_bit(s, 0, ORDER + (r.order as usize), i);
}

// Those of its scope and flags.
fn file_how(s: &mut [u64], i: usize, r: Row)
    requires { (2 * FILED ≤ length s.old) × (i < ROWS) × Coded r }
    ensures { Marks 0 FILED (marks_how r) i s.old s.new }
{
    kept::put_bit(s, 0, SCOPE + (r.scope as usize), i);
    kept::put_bit(s, 0, FLAGS + (r.flags as usize), i);
}

// Those of its classes and class.
fn file_what(s: &mut [u64], i: usize, r: Row)
    requires { (2 * FILED ≤ length s.old) × (i < ROWS) × Coded r }
    ensures { Marks 0 FILED (marks_what r) i s.old s.new }
{
    kept::put_bit(s, 0, CLASSES + (r.classes as usize), i);
    kept::put_bit(s, 0, CLASS + (r.class as usize), i);
}

fn file_row(s: &mut [u64], i: usize, r: Row)
    requires { (2 * FILED ≤ length s.old) × (i < ROWS) × Coded r }
    ensures { Marks 0 FILED (marks r) i s.old s.new }
{
    file_who(s, i, r);
    file_how(s, i, r);
    file_what(s, i, r);
}

// The n rows of a run filed by their codes, in sets that were cleared.
fn file(t: &Run, s: &mut [u64])
    requires { (2 * FILED ≤ length s.old) × (t.now.rows ≤ ROWS) × CodedRows (rows_in t.now.bytes) t.now.rows }
    ensures { Files (rows_in t.now.bytes) t.now.rows s.old s.new }
{
    bits::clear(s, 0, FILED_END);
    for i in 0..t.rows {
        let r = t.row(i as u16);
        file_row(s, i, r);
    }
}

// ---- all sets

// All sets of a run of n rows.
pub fn prepare(t: &Run, s: &mut [u64])
    requires { (WORDS ≤ length s.old) × Fit (table_of t.now) }
    ensures { MadeKnown (table_of t.now) t.now.rows s.old s.new }
{
    file(t, s);
    tests::make(s);
    tests::sort(s);
    share::fill(s, t.places());
    number::group(t, s, PLACE, true);
    number::group(t, s, REFERENCE, false);
}

// One of the sets that begin at a word of their own.
pub fn rows(s: &[u64], at: usize) -> Set
    requires { at + 2 ≤ length s.now }
    ensures { result ≡ set_at s.now at }
{
    kept::get(s, at, 0)
}
