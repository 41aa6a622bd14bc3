// A row: an array whose first `count` places are in use, as a block's waiting list and a host's operations.
#![tactic(auto)]

ghost use Rattle.std.specs.Prelude.{◌≤◌, ◌≡◌, length, take, drop};
ghost use Rattle.rules.specs.Words.{filled};

// How many are in use: a count above the places counts as all of them.
pub fn used<T>(count: u64, row: &[T]) -> u64
    ensures { (result ≡ length (take count row.now)) × (result ≤ length row.now) }
{
    count.min(row.len() as u64)
}

// Those in use from `first` on, at the front of a row whose other places are `unused`.
pub fn used_from<T: Copy, const N: usize>(
    first: usize,
    count: u64,
    row: [T; N],
    unused: T,
) -> [T; N]
    ensures { result ≡ filled N unused (drop first (take count row)) }
{
    let end = used(count, &row) as usize;
    // copy_from_slice: tried; that the whole is `filled` stays open
    let mut out = [unused; N];
    for i in first..end {
        out[i - first] = row[i];
    }
    out
}
