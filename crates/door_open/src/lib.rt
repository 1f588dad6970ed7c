// The door of every entry point: any two pieces and buffers of any length, to a refusal or to a run that is made once and lent from then on.
#![tactic(auto)]

ghost use Rattle.std.specs.Prelude.{◌≡◌, ◌++◌, ◌+◌, ◌≤◌, ◌<◌, min, length, get_or, replicate};
ghost use Rattle.model.specs.Header.{HEADER, has_hosts, row_bytes};
ghost use Rattle.door_pieces.specs.Pieces.{AREA, early_fault, admission_both};
ghost use Rattle.door_pieces.specs.Entry.{door_both};
ghost use Rattle.run.specs.Layout.{SIZE, DEPENDS, ROWS_AT};
ghost use Rattle.door_open.specs.Laid.{Put, Laid, head_of, place_byte, place_count};
ghost use Rattle.door_open.specs.Opened.{Opens, Enters};

use door_rows::{bytes, pick};
use model::{Admission, Refusal};
use run::Run;

// The bytes of all dependencies, and of all rows, that there may be.
const DEPENDS_SIZE: usize = 258;

const AREA: usize = 2048;

// ---- a run, part by part

// The header, with no chains yet: with host agents, so that each place has four numbers.
fn put_head(s: &[u8], t: &mut [u8])
    requires { HEADER ≤ length t.old }
    ensures { Put 0 (λ k. get_or (head_of s.now) k 0) HEADER t.old t.new }
{
    let counted = pick::either(door_rows::scopes::is_counted(s), 1, 0);
    let head = [0, counted, 0, 0, bytes::HOSTS, bytes::agents_at(s), 0, 0];
    bytes::put(t, 0, &head, bytes::HEADER);
}

// Byte k of the places: with host agents as it stands, else three numbers and a zero.
fn place_byte(hosts: bool, s: &[u8], k: usize) -> u8
    requires { k < 256 }
    ensures { result ≡ place_byte hosts s.now k }
{
    if hosts {
        return bytes::byte_at(s, bytes::HEADER + k);
    }
    if k % 8 < 6 {
        return bytes::byte_at(s, bytes::HEADER + k / 8 * 6 + k % 8);
    }
    0
}

fn put_places(s: &[u8], t: &mut [u8])
    requires { DEPENDS ≤ length t.old }
    ensures { Put HEADER (place_byte (has_hosts s.now) s.now) (place_count s.now) t.old t.new }
{
    let hosts = bytes::has_hosts(s);
    let n = (bytes::agents_at(s) as usize).min(model::AGENTS) * 8;
    for k in 0..n {
        let b = place_byte(hosts, s, k);
        t[bytes::HEADER + k] = b;
    }
}

// The rows of both, as many as there is place for.
fn put_rows(first: &[u8], second: &[u8], t: &mut [u8])
    requires { ROWS_AT + AREA ≤ length t.old }
    ensures { Put ROWS_AT (λ k. get_or (row_bytes first.now ++ second.now) k 0)
        (min (length (row_bytes first.now) + length second.now) AREA) t.old t.new }
{
    let rows = bytes::row_bytes(first);
    let head = rows.len().min(AREA);
    let end = (rows.len() + second.len()).min(AREA);
    bytes::put(t, run::ROWS_AT, rows, head);
    bytes::put(t, run::ROWS_AT + head, second, end - head);
}

// A run of two pieces, with no chains yet.
fn lay(first: &[u8], second: &[u8], t: &mut [u8])
    requires { t.old ≡ replicate SIZE 0 }
    ensures { Laid 0 first.now second.now t.new }
{
    let d = bytes::dependency_bytes(first);
    let size = d.len().min(DEPENDS_SIZE);
    put_head(first, t);
    put_places(first, t);
    bytes::put(t, run::DEPENDS, d, size);
    put_rows(first, second, t);
}

// ---- the door

// What the rows of a run of two pieces are refused for, or their counts; no earlier refusal holds of the two.
fn admit(first: &[u8], second: &[u8], t: &[u8], blanks: bool) -> Admission
    requires { (early_fault first.now second.now ≡ 0) × Laid 0 first.now second.now t.now }
    ensures { result ≡ admission_both blanks first.now second.now }
{
    let n = door_pieces::rows_both(first, second);
    let hosts = bytes::has_hosts(first);
    let agents = bytes::agents_at(first);
    let p = run::places_in(t);
    let counted = run::counted_in(t);
    let all = run::rows_in(t);
    let end = n * bytes::ROW_BYTES;
    let said = door_admit::admit_rows(&all[..end], hosts, p, counted, agents, n as u8, blanks);
    Admission::of(said)
}

// Refusal 11, from the lengths of the work area and of another buffer, which must hold so many numbers; then every refusal of the pieces; or
// their counts, and in t, which comes with zeros, their run.
// Ruled out: one whose switch is always on; one that takes a short buffer where the work area is long enough.
pub fn enter_into(
    first: &[u8],
    second: &[u8],
    chains: bool,
    blanks: bool,
    needs: usize,
    work: usize,
    buffer: usize,
    t: &mut [u8],
) -> Admission
    requires { t.old ≡ replicate SIZE 0 }
    ensures { (result ≡ door_both needs blanks first.now second.now work buffer)
        × Opens needs blanks chains first.now second.now work buffer result t.new }
{
    if !((model::WORK <= work) & (needs <= buffer)) {
        return Admission::Refused { number: 11, row: 0 };
    }
    if let Err(fault) = door_pieces::early_fault(first, second) {
        return Admission::Refused {
            number: fault.number(),
            row: 0,
        };
    }
    lay(first, second, t);
    let a = admit(first, second, t, blanks);
    t[2] = pick::either(chains, 1, 0);
    a
}

// The run of two pieces, where the door admits them; else why not: a table that is refused never reaches the rules.
// Ruled out: one whose run has no rows; one that gives a run where a buffer is short.
pub fn enter(
    first: &[u8],
    second: &[u8],
    chains: bool,
    blanks: bool,
    needs: usize,
    work: usize,
    buffer: usize,
) -> Result<Run, Refusal>
    ensures { Enters needs blanks chains first.now second.now work buffer result }
{
    let mut run = Run {
        bytes: [0u8; run::SIZE],
        rows: 0,
    };
    let t = &mut run.bytes;
    let a = enter_into(first, second, chains, blanks, needs, work, buffer, t);
    let Admission::Admitted { agents: _, rows } = a else {
        return Err(model::refusal_of(a));
    };
    run.rows = rows as usize;
    Ok(run)
}
