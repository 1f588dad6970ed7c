// L4 and L5 by sets of rows: system synchronization, and the memory domains of the host and of the device. Whatever the byte, they tell the
// same.
#![tactic(auto)]

ghost use Rattle.std.specs.Prelude.{◌≡◌, true, cond, ℕ, ◌+◌, ◌*◌, ◌≤◌, ◌<◌, length};
ghost use Rattle.std.specs.Bool.{beq};
ghost use Rattle.finite.specs.Logic.{◌and◌};
ghost use Rattle.model.specs.Limits.{ROWS, WORK};
ghost use Rattle.model.specs.Row.{access};
ghost use Rattle.model.specs.Location.{system_before};
ghost use Rattle.model.specs.Table.{Table};
ghost use Rattle.run.specs.Layout.{table_of};
ghost use Rattle.sets_of_rows.specs.Member.{in_set};
ghost use Rattle.sets_of_rows.specs.Kept.{set_at};
ghost use Rattle.sets_of_rows.specs.Rows.{Rows};
ghost use Rattle.sets_of_table.specs.Hears.{ON_HOST};
ghost use Rattle.sets_of_table.specs.Known.{WORDS};
ghost use Rattle.sets_grids.specs.Regions.{HAPPENS, SYSTEM, MET_END, HOSTED};
ghost use Rattle.sets_grids.specs.Grid.{Grid, MadeGrid};
ghost use Rattle.sets_grids.specs.Given.{Given};
ghost use Rattle.sets_grids.specs.Happens.{happens_rows};
ghost use Rattle.sets_grids.specs.Hosted.{hosted_by};
ghost use Rattle.sets_hosts.specs.Hosts.{Lent, Hosting, MadeMet, met_in, beyond, reached};

use door_rows::kinds;
use run::Run;
use sets_of_rows::{Set, kept};

// The operations of kind a, which is that of the host's domain, or b, that of the device's: `host` says which.
fn of_kind(s: &[u64], host: bool, a: usize, b: usize) -> Set
    requires { (a < 16) × (b < 16) × (WORDS ≤ length s.now) }
    ensures { result ≡ set_at s.now (0 + 2 * cond host a b) }
{
    if host {
        return kept::get(s, sets_of_table::BY_KIND, a);
    }
    kept::get(s, sets_of_table::BY_KIND, b)
}

// Of these rows those of agents of a domain.
fn in_domain(s: &[u64], host: bool, x: Set) -> Set
    requires { WORDS ≤ length s.now }
    ensures { (j : ℕ) → in_set result j ≡ (in_set x j and beq host (in_set (set_at s.now ON_HOST) j)) }
{
    let hosts = sets_of_table::rows(s, sets_of_table::ON_HOST);
    if host {
        return x & hosts;
    }
    x - hosts
}

// The rows that meet what the operation m leaves in a domain: a reader by way of a visibility operation of it, any other at once.
fn met_in(s: &[u64], host: bool, m: usize, w: &[u64]) -> Set
    requires { (m < ROWS) × (WORDS ≤ length s.now) × (WORK ≤ length w.now) }
    ensures { (t : Table) (n : ℕ) → Lent t n s.now w.now → m < n → Rows n (met_in t host m) result }
{
    let reads = sets_of_table::rows(s, sets_of_table::READS);
    let to = kept::get(w, sets_grids::HAPPENS, m);
    let sight = of_kind(
        s,
        host,
        kinds::VISIBLE_HOST as usize,
        kinds::VISIBLE_DEVICE as usize,
    );
    let seen = kept::union(w, sets_grids::HAPPENS, to & sight);
    let met = (to - reads) | (seen & reads);
    in_domain(s, host, met)
}

// The rows of the other domain that meet what the operation a makes available to this one: an operation carries it over.
fn met_beyond(s: &[u64], host: bool, a: usize, w: &[u64]) -> Set
    requires { (a < ROWS) × (WORDS ≤ length s.now) × (WORK ≤ length w.now) }
    ensures { (t : Table) (n : ℕ) → Lent t n s.now w.now → a < n → Rows n (beyond t host a) result }
{
    let carrying = of_kind(
        s,
        host,
        kinds::HOST_TO_DEVICE as usize,
        kinds::DEVICE_TO_HOST as usize,
    );
    let mut met = Set::none();
    for d in kept::get(w, sets_grids::HAPPENS, a) & carrying {
        met |= met_in(s, !host, d, w);
    }
    met
}

// MET, of each operation that makes available to a domain.
fn fill_met(s: &[u64], w: &mut [u64])
    requires { (WORDS ≤ length s.now) × (WORK ≤ length w.old) }
    ensures { MadeMet s.now w.old w.new }
{
    let hosts = kept::get(s, sets_of_table::BY_KIND, kinds::AVAILABLE_HOST as usize);
    let devices = kept::get(s, sets_of_table::BY_KIND, kinds::AVAILABLE_DEVICE as usize);
    for a in hosts | devices {
        let host = hosts.has(a);
        let met = met_in(s, host, a, w) | met_beyond(s, host, a, w);
        kept::put(w, sets_grids::MET, a, met);
    }
}

// L5 of the write x: what meets an operation after x that makes available to its domain.
fn by_domains(s: &[u64], x: usize, w: &[u64]) -> Set
    requires { (x < ROWS) × (WORDS ≤ length s.now) × (WORK ≤ length w.now) }
    ensures { (t : Table) (n : ℕ) → Hosting t n s.now w.now → x < n → Rows n (reached t x) result }
{
    let host = sets_of_table::rows(s, sets_of_table::ON_HOST).has(x);
    let makers = of_kind(
        s,
        host,
        kinds::AVAILABLE_HOST as usize,
        kinds::AVAILABLE_DEVICE as usize,
    );
    let by = kept::get(w, sets_grids::HAPPENS, x) & makers;
    kept::union(w, sets_grids::MET, by)
}

// Of the access x: L4 if it doesn't write, L5 if it writes.
fn hosted_row(s: &[u64], x: usize, w: &[u64]) -> Set
    requires { (x < ROWS) × (WORDS ≤ length s.now) × (WORK ≤ length w.now) }
    ensures { (t : Table) (n : ℕ) → Hosting t n s.now w.now → x < n → access (t.row x) ≡ true → Rows n (hosted_by t x) result }
{
    if sets_of_table::rows(s, sets_of_table::WRITES).has(x) {
        return by_domains(s, x, w);
    }
    kept::get(w, sets_grids::SYSTEM, x)
}

// HOSTED: L4 of accesses that don't write, L5 of those that write.
pub fn fill_hosted(t: &Run, s: &[u64], w: &mut [u64])
    requires { Given (table_of t.now) t.now.rows s.now w.old × Grid HAPPENS t.now.rows (happens_rows (table_of t.now)) w.old
        × Grid SYSTEM t.now.rows (system_before (table_of t.now)) w.old }
    ensures { MadeGrid HOSTED MET_END HOSTED t.now.rows (hosted_by (table_of t.now)) w.old w.new }
{
    fill_met(s, w);
    bits::clear(w, sets_grids::HOSTED, sets_grids::HOSTED_END);
    for x in sets_of_table::rows(s, sets_of_table::ACCESS) {
        let to = hosted_row(s, x, w);
        kept::put(w, sets_grids::HOSTED, x, to);
    }
}
