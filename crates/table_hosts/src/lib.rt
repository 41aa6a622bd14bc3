// A host of a lent table, read and written where it lies.
#![tactic(auto)]

ghost use Rattle.std.specs.Prelude.{◌≡◌, get_or};
ghost use Rattle.rules.specs.Tables.{with_host};
ghost use Rattle.rules.specs.Zero.{zero_host};

use rules::{Host, Table};

// Beyond the last host there is none: zero.
pub fn host_in(t: &Table, i: u64) -> Host
    ensures { result ≡ get_or t.now.hosts i zero_host }
{
    arrays::at(&t.hosts, i, table_zero::host())
}

// Beyond the last host nothing is written.
pub fn put_host(t: &mut Table, i: u64, x: Host)
    ensures { t.new ≡ with_host t.old i x }
{
    arrays::put(&mut t.hosts, i, x);
}
