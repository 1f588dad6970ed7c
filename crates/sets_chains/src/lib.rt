// L3 by sets of rows: what each availability operation makes available, by itself or as the first of an availability chain: to which rows, and
// to which visibility operations, by themselves or as the last of a visibility chain. The agents of a chain share the domains of the first.
#![tactic(auto)]

ghost use Rattle.std.specs.Prelude.{◌≡◌, true, false, ℕ, ◌+◌, ◌≤◌, length};
ghost use Rattle.model.specs.Table.{Table};
ghost use Rattle.model_placing.specs.Leads.{meets};
ghost use Rattle.run.specs.Layout.{table_of};
ghost use Rattle.sets_of_rows.specs.Rows.{Rows};
ghost use Rattle.sets_of_table.specs.Known.{Opened, WORDS};
ghost use Rattle.sets_grids.specs.Happens.{Happening};
ghost use Rattle.sets_grids.specs.Given.{Given};
ghost use Rattle.sets_grids.specs.Available.{MadeAvailable};
ghost use Rattle.sets_chains.specs.Alone.{wider, After, MadeOne};
ghost use Rattle.sets_chains.specs.Chained.{Outs, Ins, MadeOuts, MadeIns};
ghost use Rattle.sets_chains.specs.Filled.{MadeChains};
ghost use Rattle.sets_chains.specs.Wide.{wide_shown};
ghost use Rattle.sets_chains.specs.Made.{Maker, ChainOf, Visibles};
ghost use Rattle.sets_chains.specs.Availability.{Ready, MadeReady};

use run::Run;
use sets_of_rows::{Set, kept};
use sets_of_table::fields;

const BROADEST: usize = 4;

// ---- operations by themselves

// What a makes available, where nothing is chained: to agents that share its scope; and a visibility operation must share its own.
fn make_available(t: &Run, s: &[u64], a: usize, w: &mut [u64])
    requires { Maker (table_of t.now) t.now.rows a × Ready (table_of t.now) t.now.rows false s.now w.old }
    ensures { MadeOne (table_of t.now) t.now.rows a w.old w.new }
{
    let reach = sets_of_table::ask::reach(t, s, a);
    let both = reach & sets_of_table::ask::hears(t, s, a);
    let at = kept::get(w, sets_grids::AVAILABLE_AT, a) & reach;
    let visible = kept::get(w, sets_grids::AVAILABLE_VISIBLE, a) & both;
    kept::put(w, sets_grids::AVAILABLE_TO, a, at);
    kept::put(w, sets_grids::VISIBLE_BY, a, visible);
}

// ---- chains

// The rows of a scope broader than q.
fn broader(s: &[u64], q: usize) -> Set
    requires { (q ≤ 4) × (WORDS ≤ length s.now) }
    ensures { (t : Table) (n : ℕ) → Opened t n s.now → Rows n (wider t q) result }
{
    let mut a = Set::none();
    for k in q + 1..BROADEST + 1 {
        a |= kept::get(s, sets_of_table::BY_SCOPE, k);
    }
    a
}

// Availability chains from each operation of scope q: those that come right after it are broader and performed in its scope's instance;
// their own chains are known.
fn chain_out(t: &Run, s: &[u64], q: usize, w: &mut [u64])
    requires { (q ≤ 4) × Given (table_of t.now) t.now.rows s.now w.old × Outs (table_of t.now) t.now.rows (q + 1) w.old }
    ensures { MadeOuts (table_of t.now) t.now.rows q w.old w.new }
{
    let broad = broader(s, q);
    let own = kept::get(s, sets_of_table::BY_SCOPE, q);
    for a in sets_of_table::rows(s, sets_of_table::AVAILABLE) & own {
        let next = kept::get(w, sets_grids::AVAILABLE_AVAILABLE, a)
            & broad
            & sets_of_table::ask::reach(t, s, a);
        let all = next | kept::union(w, sets_grids::AVAILABLE_AVAILABLE, next);
        kept::put(w, sets_grids::AVAILABLE_AVAILABLE, a, all);
    }
}

// Visibility chains from each operation of scope q: those that come right after it are narrower, and it is performed in their scope's
// instance; their own chains are known.
fn chain_in(t: &Run, s: &[u64], q: usize, w: &mut [u64])
    requires { (q ≤ 4) × Given (table_of t.now) t.now.rows s.now w.old × Ins (table_of t.now) t.now.rows q w.old }
    ensures { MadeIns (table_of t.now) t.now.rows (q + 1) w.old w.new }
{
    let own = kept::get(s, sets_of_table::BY_SCOPE, q);
    let visible = sets_of_table::rows(s, sets_of_table::VISIBLE);
    let narrow = visible - (broader(s, q) | own);
    for v in visible & own {
        let next = kept::get(w, sets_grids::VISIBLE_VISIBLE, v)
            & narrow
            & sets_of_table::ask::hears(t, s, v);
        let all = next | kept::union(w, sets_grids::VISIBLE_VISIBLE, next);
        kept::put(w, sets_grids::VISIBLE_VISIBLE, v, all);
    }
}

// The rows to which the last operation of one of the chains makes available: those of agents in the domain of its scope, if a's agent is.
fn available_to(t: &Run, s: &[u64], a: usize, chain: Set, w: &[u64]) -> Set
    requires { ChainOf (table_of t.now) t.now.rows a chain × Given (table_of t.now) t.now.rows s.now w.now × After (table_of t.now) t.now.rows w.now }
    ensures { Rows t.now.rows (meets (table_of t.now) a) result }
{
    let mut at = Set::none();
    for c in chain {
        let domain = sets_of_table::ask::sharing(t, s, a, fields::scope(t, c));
        let to = kept::get(w, sets_grids::AVAILABLE_AT, c) & domain;
        at |= to.only_if(domain.has(c));
    }
    at
}

// In the domain of scope q of a's agent: what the chain's last operations make available to it, visibility operations make visible from
// it, and those that their chains end with.
fn visible_by(t: &Run, s: &[u64], a: usize, chain: Set, q: usize, w: &[u64]) -> Set
    requires { ChainOf (table_of t.now) t.now.rows a chain × (q ≤ 4) × Visibles (table_of t.now) t.now.rows s.now w.now }
    ensures { Rows t.now.rows (wide_shown (table_of t.now) t.now.rows a q) result }
{
    let domain = sets_of_table::ask::sharing(t, s, a, q);
    let wide = kept::get(s, sets_of_table::BY_SCOPE, q) | broader(s, q);
    let inside = wide & domain;
    let made = kept::union(w, sets_grids::AVAILABLE_VISIBLE, chain & inside);
    let met = made & inside;
    let ends = kept::union(w, sets_grids::VISIBLE_VISIBLE, met);
    (met | ends) & domain
}

// What a makes available as the first of a chain, itself alone or more.
fn make_available_by_chains(t: &Run, s: &[u64], a: usize, w: &mut [u64])
    requires { Maker (table_of t.now) t.now.rows a × Ready (table_of t.now) t.now.rows true s.now w.old }
    ensures { MadeOne (table_of t.now) t.now.rows a w.old w.new }
{
    let chain = kept::get(w, sets_grids::AVAILABLE_AVAILABLE, a) | Set::bit(a);
    let at = available_to(t, s, a, chain, w);
    let mut visible = Set::none();
    for q in 1..BROADEST + 1 {
        visible |= visible_by(t, s, a, chain, q, w);
    }
    kept::put(w, sets_grids::AVAILABLE_TO, a, at);
    kept::put(w, sets_grids::VISIBLE_BY, a, visible);
}

// ---- all of it

// The chains: the broadest scopes first of availability, the narrowest first of visibility.
fn fill_chains(t: &Run, s: &[u64], w: &mut [u64])
    requires { Given (table_of t.now) t.now.rows s.now w.old × Happening (table_of t.now) t.now.rows w.old }
    ensures { MadeChains (table_of t.now) t.now.rows w.old w.new }
{
    for k in 0..BROADEST {
        chain_out(t, s, BROADEST - k, w);
        chain_in(t, s, k + 1, w);
    }
}

// The chains, on a device that has them.
fn prepare(t: &Run, s: &[u64], chains: bool, w: &mut [u64])
    requires { (chains ≡ (table_of t.now).chains) × Given (table_of t.now) t.now.rows s.now w.old × Happening (table_of t.now) t.now.rows w.old }
    ensures { MadeReady (table_of t.now) t.now.rows chains s.now w.old w.new }
{
    if chains {
        fill_chains(t, s, w);
    }
}

// What a makes available, as the first of a chain or alone.
fn make(t: &Run, s: &[u64], a: usize, chains: bool, w: &mut [u64])
    requires { Maker (table_of t.now) t.now.rows a × Ready (table_of t.now) t.now.rows chains s.now w.old }
    ensures { MadeOne (table_of t.now) t.now.rows a w.old w.new }
{
    if chains {
        make_available_by_chains(t, s, a, w);
    } else {
        make_available(t, s, a, w);
    }
}

// AVAILABLE_TO and VISIBLE_BY of every availability operation.
pub fn fill_availability(t: &Run, s: &[u64], w: &mut [u64])
    requires { Given (table_of t.now) t.now.rows s.now w.old × Happening (table_of t.now) t.now.rows w.old }
    ensures { MadeAvailable (table_of t.now) t.now.rows w.old w.new }
{
    let chains = t.chains();
    prepare(t, s, chains, w);
    for a in sets_of_table::rows(s, sets_of_table::AVAILABLE) {
        make(t, s, a, chains, w);
    }
}
