// Choosing by a test, where all that is chosen from is total: the caller has one path.
ghost use Rattle.std.specs.Prelude.{◌≡◌, if◌then◌else◌};

pub fn either<T: Copy>(b: bool, x: T, y: T) -> T
    ensures { result ≡ (if b then x else y) }
{
    if b { x } else { y }
}
