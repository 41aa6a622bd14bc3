// A chunk of a lent table, read and written where it lies.
#![tactic(auto)]

ghost use Rattle.std.specs.Prelude.{◌≡◌, get_or};
ghost use Rattle.rules.specs.Tables.{with_chunk};
ghost use Rattle.rules.specs.Zero.{zero_chunk};

use rules::{Chunk, Table};

// Beyond the last chunk there is none: zero.
pub fn chunk_in(t: &Table, i: u64) -> Chunk
    ensures { result ≡ get_or t.now.chunks i zero_chunk }
{
    arrays::at(&t.chunks, i, table_zero::chunk())
}

// Beyond the last chunk nothing is written.
pub fn put_chunk(t: &mut Table, i: u64, x: Chunk)
    ensures { t.new ≡ with_chunk t.old i x }
{
    arrays::put(&mut t.chunks, i, x);
}
