// What both engines do of a fill.
ghost use Rattle.std.specs.Prelude.{◌≡◌, ◌≤◌, length};
ghost use Rattle.finite.specs.Lists.{Written};

// The first n numbers of out become the list's.
// Ruled out: one that writes the whole list; one that leaves out the last row's source.
pub fn write_sources(list: &[u16], n: usize, out: &mut [u16])
    requires { (n ≤ length list.now) × (n ≤ length out.old) }
    ensures { Written list.now n out.old out.new }
{
    out[..n].copy_from_slice(&list[..n]);
}
