// What a row is: its kind, order, flags, classes and bytes. Nothing else tests a kind's number, an order or a flag.
ghost use Rattle.std.specs.Prelude.{◌≡◌};
ghost use Rattle.model.specs.Row.{plain, atomic, access, barrier, control, same_instance, operation, plain_read, rmw, reads, writes, ranked, acquires, releases};
ghost use Rattle.model.specs.Row.{holds, meets, single, class_in, non_private, makes_available, makes_visible, touches, covers};

use model::Row;

// ---- kinds

pub const PLAIN_READ: u8 = 0;

pub const PLAIN_WRITE: u8 = 1;

pub const ATOMIC_READ: u8 = 2;

pub const ATOMIC_WRITE: u8 = 3;

pub const RMW: u8 = 4;

pub const BARRIER: u8 = 5;

pub const CONTROL: u8 = 6;

// Operations on the memory domains of the host and of the device: 7 and 8 make available to them, 9 and 10 make visible from them,
// 11 and 12 carry from the one to the other.
pub const AVAILABLE_HOST: u8 = 7;

pub const AVAILABLE_DEVICE: u8 = 8;

pub const VISIBLE_HOST: u8 = 9;

pub const VISIBLE_DEVICE: u8 = 10;

pub const HOST_TO_DEVICE: u8 = 11;

pub const DEVICE_TO_HOST: u8 = 12;

pub fn is_plain(r: Row) -> bool
    ensures { result ≡ plain r }
{
    r.kind <= PLAIN_WRITE
}

pub fn is_atomic(r: Row) -> bool
    ensures { result ≡ atomic r }
{
    (ATOMIC_READ <= r.kind) & (r.kind <= RMW)
}

pub fn is_access(r: Row) -> bool
    ensures { result ≡ access r }
{
    r.kind <= RMW
}

// A control barrier is a memory barrier too.
pub fn is_barrier(r: Row) -> bool
    ensures { result ≡ barrier r }
{
    (r.kind == BARRIER) | (r.kind == CONTROL)
}

pub fn is_control(r: Row) -> bool
    ensures { result ≡ control r }
{
    r.kind == CONTROL
}

// What queue agents alone perform.
pub fn is_operation(r: Row) -> bool
    ensures { result ≡ operation r }
{
    (AVAILABLE_HOST <= r.kind) & (r.kind <= DEVICE_TO_HOST)
}

// Whether two rows are control barriers of one instance, whose number stands in the place of a start.
pub fn same_instance(r: Row, q: Row) -> bool
    ensures { result ≡ same_instance r q }
{
    is_control(r) & is_control(q) & (r.start == q.start)
}

pub fn is_plain_read(r: Row) -> bool
    ensures { result ≡ plain_read r }
{
    r.kind == PLAIN_READ
}

pub fn is_rmw(r: Row) -> bool
    ensures { result ≡ rmw r }
{
    r.kind == RMW
}

pub fn reads(r: Row) -> bool
    ensures { result ≡ reads r }
{
    (r.kind == PLAIN_READ) | (r.kind == ATOMIC_READ) | (r.kind == RMW)
}

pub fn writes(r: Row) -> bool
    ensures { result ≡ writes r }
{
    (r.kind == PLAIN_WRITE) | (r.kind == ATOMIC_WRITE) | (r.kind == RMW)
}

pub fn is_ranked(r: Row) -> bool
    ensures { result ≡ ranked r }
{
    (r.kind == ATOMIC_WRITE) | (r.kind == RMW)
}

// ---- orders

pub const RELAXED: u8 = 0;

pub const ACQUIRE: u8 = 1;

pub const RELEASE: u8 = 2;

pub const BOTH: u8 = 3;

pub fn acquires(r: Row) -> bool
    ensures { result ≡ acquires r }
{
    (r.order == ACQUIRE) | (r.order == BOTH)
}

pub fn releases(r: Row) -> bool
    ensures { result ≡ releases r }
{
    (r.order == RELEASE) | (r.order == BOTH)
}

// ---- sets of classes and flags, as bits of a number

// All of s is in c.
pub fn holds(c: u8, s: u8) -> bool
    ensures { result ≡ holds c s }
{
    c & s == s
}

// Some of s is in c.
pub fn meets(c: u8, s: u8) -> bool
    ensures { result ≡ meets c s }
{
    !(c & s == 0)
}

// The set of one class.
pub fn single(class: u8) -> u8
    ensures { result ≡ single class }
{
    if class == 0 {
        return 1;
    }
    if class == 1 {
        return 2;
    }
    if class == 2 {
        return 4;
    }
    8
}

// Whether r's class is in the set s.
pub fn class_in(r: Row, s: u8) -> bool
    ensures { result ≡ class_in r s }
{
    meets(s, single(r.class))
}

pub fn is_non_private(r: Row) -> bool
    ensures { result ≡ non_private r }
{
    meets(r.flags, 1)
}

pub fn makes_available(r: Row) -> bool
    ensures { result ≡ makes_available r }
{
    meets(r.flags, 2)
}

pub fn makes_visible(r: Row) -> bool
    ensures { result ≡ makes_visible r }
{
    meets(r.flags, 4)
}

// ---- bytes

// Whether b is a byte of r. The end of r may not fit into 16 bits, so b is wider.
pub fn touches(r: Row, b: u32) -> bool
    ensures { result ≡ touches r b }
{
    let start = r.start as u32;
    (start <= b) & (b < start + (r.size as u32))
}

// Whether w's bytes hold all of r's.
pub fn covers(w: Row, r: Row) -> bool
    ensures { result ≡ covers w r }
{
    (w.start <= r.start)
        & ((r.start as u32) + (r.size as u32) <= (w.start as u32) + (w.size as u32))
}
