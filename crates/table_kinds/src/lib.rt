// What an entry, a chunk's state or an operation is.
#![tactic(auto)]

ghost use Rattle.std.specs.Prelude.{◌≡◌};
ghost use Rattle.rules.specs.Kinds.{is_read, is_aborted, value_of, is_normal, is_reading};

use rules::{Action, Kind, State};

// A waiting entry is a read, or a write that is undecided, committed or aborted.
pub fn is_read(k: Kind) -> bool
    ensures { result ≡ is_read k }
{
    k == Kind::Read
}

pub fn is_aborted(k: Kind) -> bool
    ensures { result ≡ is_aborted k }
{
    matches!(k, Kind::Aborted(_))
}

// A write has its value.
pub fn value_of(k: Kind) -> u64
    ensures { result ≡ value_of k }
{
    match k {
        Kind::Read => 0,
        Kind::Undecided(v) | Kind::Committed(v) | Kind::Aborted(v) => v,
    }
}

// The chunk has its lease.
pub fn is_normal(state: State) -> bool
    ensures { result ≡ is_normal state }
{
    state == State::Normal
}

// An operation is a read or a write.
pub fn is_reading(a: Action) -> bool
    ensures { result ≡ is_reading a }
{
    a == Action::Read
}
