// Sets of chunks.
#![tactic(auto)]

ghost use Rattle.std.specs.Prelude.{◌≡◌};
ghost use Rattle.rules.specs.Network.{how_many};
ghost use Rattle.rules.specs.Zero.{◌among◌, is_empty};

use rules::Set;

// Beyond the last chunk's number there is none in the set.
pub fn among(chunk: u64, s: Set) -> bool
    ensures { result ≡ (chunk among s) }
{
    s.chunks.get(chunk as usize).copied().unwrap_or(false)
}

// No chunk is in the set.
pub fn is_empty(s: Set) -> bool
    ensures { result ≡ is_empty s }
{
    !s.chunks.contains(&true)
}

// How many chunks a set has, and so how many messages go to it.
pub fn how_many(to: Set) -> u64
    ensures { result ≡ how_many to }
{
    to.chunks.iter().filter(|c| **c).count() as u64
}
