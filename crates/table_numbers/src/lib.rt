// The creation numbers and the epoch of a lent table, read and written where they lie. Who has the table may name the field as well.
#![tactic(auto)]

ghost use Rattle.std.specs.Prelude.{◌≡◌};
ghost use Rattle.rules.specs.Tables.{with_epoch};

use rules::{Creation, Epoch, Table};

pub fn creation_in(t: &Table) -> Creation
    ensures { result ≡ t.now.creation }
{
    t.creation
}

pub fn epoch_in(t: &Table) -> Epoch
    ensures { result ≡ t.now.epoch }
{
    t.epoch // the store's, not one that a host or a chunk knows
}

pub fn put_epoch(t: &mut Table, x: Epoch)
    ensures { t.new ≡ with_epoch t.old x }
{
    t.epoch = x;
}
