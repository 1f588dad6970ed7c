// Refusals 8 to 10, 14 and 15: a row among the others.
// A test that reads no place is stated of a table with none, one that reads no mode of one that is OFF, and one that reads no
// number of rows of a table of 0: what is left out makes no difference to it.
ghost use Rattle.std.specs.Prelude.{◌≡◌, false, [], ◌<◌, eqb};
ghost use Rattle.finite.specs.Below.{any_below};
ghost use Rattle.model.specs.Row.{CONTROL};
ghost use Rattle.model.specs.Scope.{mutual_rows};
ghost use Rattle.model.specs.Table.{pair_of, row_of, OFF, decode, source_of};
ghost use Rattle.model.specs.Header.{ROW_BYTES};
ghost use Rattle.model.specs.TableFault.{other_class_at, class_taken, writer_fits, source_fits, source_broken};
ghost use Rattle.model.specs.TableFault.{same_rank, same_rank_at, rank_taken, apart_at, instance_broken};
ghost use Rattle.model.specs.Fault.{number_of};
ghost use Rattle.model.specs.TableFault.{rival, outside, begins, unfit, table_fault};
ghost use Rattle.door_admit.specs.Rows.{ranks, first_refused, of_reference, outside_in};

use door_rows::{bytes, kinds, scopes};
use model::{Fault, Places, Refusal, Row, Source};

// ---- two bytes of a row

// Places of a row's start, reference and rank.
const START: u8 = 8;

const REFERENCE: u8 = 10;

const RANK: u8 = 14;

// Whether the two bytes of row j from byte k on are the number x. Most rows have another, and its last byte tells.
fn has_pair(rows: &[u8], j: u16, k: u8, x: u16) -> bool
    requires { k < ROW_BYTES }
    ensures { result ≡ eqb (pair_of rows.now j k) x }
{
    if bytes::row_byte(rows, j, k + 1) != (x % 256) as u8 {
        return false;
    }
    bytes::row_byte(rows, j, k) == (x / 256) as u8
}

// ---- 8

// Whether row j is an access of this reference.
fn is_of_reference(rows: &[u8], reference: u16, j: u16) -> bool
    ensures { result ≡ of_reference reference (row_of rows.now j) }
{
    if !has_pair(rows, j, REFERENCE, reference) {
        return false;
    }
    bytes::read_kind(rows, j) <= kinds::RMW
}

// The last access before row i of the reference of row i, which is r, has another class. Those before it have its class, since its
// own turn found nothing.
// Ruled out: one that looks no further than the row before.
fn any_other_class(rows: &[u8], i: u16, r: Row) -> bool
    requires { (r ≡ row_of rows.now i) × (any_below i (class_taken (decode rows.now [] OFF 0)) ≡ false) }
    ensures { result ≡ any_below i (other_class_at (decode rows.now [] OFF 0) i) }
{
    for j in (0..i).rev() {
        if is_of_reference(rows, r.reference, j) {
            return bytes::read_class(rows, j) != r.class;
        }
    }
    false
}

pub fn class_taken(rows: &[u8], i: u16, r: Row) -> bool
    requires { (r ≡ row_of rows.now i) × (any_below i (class_taken (decode rows.now [] OFF 0)) ≡ false) }
    ensures { result ≡ class_taken (decode rows.now [] OFF 0) i }
{
    if !kinds::is_access(r) {
        return false;
    }
    any_other_class(rows, i, r)
}

// ---- 9

// Of n rows, s is another row than i, which is r, a writer, and covers all bytes of row i.
fn is_writer_of(rows: &[u8], n: u16, i: u16, r: Row, s: Source) -> bool
    requires { r ≡ row_of rows.now i }
    ensures { result ≡ writer_fits (decode rows.now [] OFF n) i s.0 }
{
    let w = bytes::read_row(rows, s.0);
    s.is_row(n) & !(s.0 == i) & kinds::writes(w) & kinds::covers(w, r)
}

pub fn writer_fits(rows: &[u8], n: u16, i: u16, s: Source) -> bool
    ensures { result ≡ writer_fits (decode rows.now [] OFF n) i s.0 }
{
    is_writer_of(rows, n, i, bytes::read_row(rows, i), s)
}

// The source s of row i, which is r, is the initial value, a writer that fits, or a blank where one is allowed.
// Ruled out: a writer of only some of the row's bytes passes; a blank passes on an atomic read.
fn is_source_of(rows: &[u8], n: u16, blanks: bool, i: u16, r: Row, s: Source) -> bool
    requires { r ≡ row_of rows.now i }
    ensures { result ≡ source_fits blanks (decode rows.now [] OFF n) i s.0 }
{
    if s.is_initial() {
        return true;
    }
    is_writer_of(rows, n, i, r, s) | blanks & kinds::is_plain_read(r) & s.is_blank()
}

pub fn source_fits(rows: &[u8], n: u16, blanks: bool, i: u16, s: Source) -> bool
    ensures { result ≡ source_fits blanks (decode rows.now [] OFF n) i s.0 }
{
    is_source_of(rows, n, blanks, i, bytes::read_row(rows, i), s)
}

pub fn source_broken(rows: &[u8], n: u16, blanks: bool, i: u16, r: Row) -> bool
    requires { r ≡ row_of rows.now i }
    ensures { result ≡ source_broken blanks (decode rows.now [] OFF n) (source_of rows.now) i }
{
    if !kinds::reads(r) {
        return false;
    }
    !is_source_of(rows, n, blanks, i, r, bytes::read_source(rows, i))
}

// ---- 10

pub fn same_rank(r: Row, q: Row) -> bool
    ensures { result ≡ same_rank r q }
{
    kinds::is_ranked(q) & (q.rank == r.rank)
}

// Whether two rows, if they are different rows, are mutually-ordered.
fn is_mutual_in(p: Places, r: Row, q: Row) -> bool
    ensures { result ≡ mutual_rows p r q }
{
    kinds::is_atomic(r)
        & kinds::is_atomic(q)
        & scopes::same_location(r, q)
        & scopes::together(p, r, q)
}

// Few rows have one start, and no place is asked of the others.
pub fn same_rank_at(rows: &[u8], p: Places, i: u16, r: Row, j: u16) -> bool
    requires { r ≡ row_of rows.now i }
    ensures { result ≡ same_rank_at (decode rows.now p OFF 0) i j }
{
    if !has_pair(rows, j, START, r.start) {
        return false;
    }
    let q = bytes::read_row(rows, j);
    same_rank(r, q) & is_mutual_in(p, r, q)
}

// Few rows have one rank, and nothing more is asked of the others.
pub fn any_same_rank(rows: &[u8], p: Places, i: u16, r: Row) -> bool
    requires { r ≡ row_of rows.now i }
    ensures { result ≡ any_below i (same_rank_at (decode rows.now p OFF 0) i) }
{
    for j in 0..i {
        if !has_pair(rows, j, RANK, r.rank) {
            continue;
        }
        if same_rank_at(rows, p, i, r, j) {
            return true;
        }
    }
    false
}

pub fn rank_taken(rows: &[u8], p: Places, i: u16, r: Row) -> bool
    requires { r ≡ row_of rows.now i }
    ensures { result ≡ rank_taken (decode rows.now p OFF 0) i }
{
    if !kinds::is_ranked(r) {
        return false;
    }
    any_same_rank(rows, p, i, r)
}

// ---- 14

// Row j is of the instance of row i, which is r, and the two differ in execution scope, have one
// agent, or don't share that scope. Most rows are of another instance, and no place is asked of them.
pub fn apart_at(rows: &[u8], p: Places, i: u16, r: Row, j: u16) -> bool
    requires { (r ≡ row_of rows.now i) × (r.kind ≡ CONTROL) }
    ensures { result ≡ apart_at (decode rows.now p OFF 0) i j }
{
    if !scopes::is_of_instance(rows, r.start, j) {
        return false;
    }
    if bytes::row_byte(rows, j, 6) != r.class {
        return true;
    }
    let g = bytes::read_agent(rows, j);
    if g == r.agent {
        return true;
    }
    !scopes::shares_scope(p, r.class, r.agent, g)
}

pub fn instance_broken(rows: &[u8], p: Places, i: u16, r: Row) -> bool
    requires { r ≡ row_of rows.now i }
    ensures { result ≡ instance_broken (decode rows.now p OFF 0) i }
{
    if r.kind != kinds::CONTROL {
        return false;
    }
    for j in 0..i {
        if apart_at(rows, p, i, r, j) {
            return true;
        }
    }
    false
}

// ---- 15

// q is a writer of r's location that has a rank.
pub fn is_rival(r: Row, q: Row) -> bool
    ensures { result ≡ rival r q }
{
    kinds::is_ranked(q) & scopes::same_location(r, q)
}

// q is a rival of r, and no count of the run that begins with m's.
pub fn is_outside(r: Row, m: Row, q: Row) -> bool
    ensures { result ≡ outside r m q }
{
    is_rival(r, q) & !(scopes::age(q.rank, m.rank) < scopes::RUN)
}

// Most rows have another start.
pub fn any_outside(rows: &[u8], i: u16, r: Row, f: Row) -> bool
    ensures { result ≡ any_below i (outside_in rows.now r f) }
{
    for j in 0..i {
        if !has_pair(rows, j, START, r.start) {
            continue;
        }
        if is_outside(r, f, bytes::read_row(rows, j)) {
            return true;
        }
    }
    false
}

// Row m is a rival of row i, which is r, and the run that begins with it has all those up to row i.
pub fn begins_at(rows: &[u8], i: u16, r: Row, m: u16) -> bool
    requires { r ≡ row_of rows.now i }
    ensures { result ≡ begins (decode rows.now [] OFF 0) i m }
{
    let f = bytes::read_row(rows, m);
    if !is_rival(r, f) {
        return false;
    }
    !(any_outside(rows, i, r, f) | is_outside(r, f, r))
}

// Most rows have another start.
pub fn any_begins(rows: &[u8], i: u16, r: Row) -> bool
    requires { r ≡ row_of rows.now i }
    ensures { result ≡ any_below i (begins (decode rows.now [] OFF 0) i) }
{
    for m in 0..i {
        if !has_pair(rows, m, START, r.start) {
            continue;
        }
        if begins_at(rows, i, r, m) {
            return true;
        }
    }
    false
}

// Counted ranks of the location of row i, which is r, fit in no run.
// Ruled out: one that refuses ranks 0 and 32767; one that passes 0, 20000 and 45000, of which any two fit.
pub fn is_unfit(rows: &[u8], counted: bool, i: u16, r: Row) -> bool
    requires { r ≡ row_of rows.now i }
    ensures { result ≡ unfit (decode rows.now [] (ranks counted) 0) i }
{
    if !counted {
        return false;
    }
    if !kinds::is_ranked(r) {
        return false;
    }
    if any_begins(rows, i, r) {
        return false;
    }
    any_outside(rows, i, r, r) | is_outside(r, r, r)
}

// ---- in their order

// Refusals 8 to 10, 14 and 15 of row i. No earlier row has refusal 8.
// Ruled out: of two rows of one rank the earlier is refused; a row passes that reads from itself.
pub fn table_fault(
    rows: &[u8],
    p: Places,
    counted: bool,
    n: u16,
    blanks: bool,
    i: u16,
) -> Result<(), Fault>
    requires { any_below i (class_taken (decode rows.now [] OFF 0)) ≡ false }
    ensures { number_of result ≡ table_fault blanks (decode rows.now p (ranks counted) n) (source_of rows.now) i }
{
    let r = bytes::read_row(rows, i);
    if class_taken(rows, i, r) {
        return Err(Fault::Class);
    }
    if source_broken(rows, n, blanks, i, r) {
        return Err(Fault::Source);
    }
    if rank_taken(rows, p, i, r) {
        return Err(Fault::Rank);
    }
    if instance_broken(rows, p, i, r) {
        return Err(Fault::Instance);
    }
    if is_unfit(rows, counted, i, r) {
        return Err(Fault::Run);
    }
    Ok(())
}

// The first of n rows that has a refusal 8 to 10, 14 or 15 is refused for it.
// Ruled out: row 5's refusal 8 is given before row 2's refusal 10; row 0 is not tried.
pub fn first_table_fault(
    rows: &[u8],
    p: Places,
    counted: bool,
    n: u16,
    blanks: bool,
) -> Result<(), Refusal>
    ensures { result ≡ first_refused (table_fault blanks (decode rows.now p (ranks counted) n) (source_of rows.now)) n }
{
    for i in 0..n {
        if let Err(fault) = table_fault(rows, p, counted, n, blanks, i) {
            return Err(Refusal::at(fault, i));
        }
    }
    Ok(())
}
