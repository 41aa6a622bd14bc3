// An array of any type, read and written by a number: beyond its last place there is nothing.
#![tactic(auto)]

ghost use Rattle.std.specs.Prelude.{◌≡◌, get_or, set};

// What stands under a number; beyond the last place, what the caller says.
pub fn at<T: Copy>(xs: &[T], i: u64, beyond: T) -> T
    ensures { result ≡ get_or xs.now i beyond }
{
    xs.get(i as usize).copied().unwrap_or(beyond)
}

// Beyond the last place nothing is written.
pub fn put<T: Copy>(xs: &mut [T], i: u64, x: T)
    ensures { xs.new ≡ set xs.old i x }
{
    let i = i as usize;
    if i < xs.len() {
        xs[i] = x; // `get_mut` promises nothing of the slice afterwards
    }
}
