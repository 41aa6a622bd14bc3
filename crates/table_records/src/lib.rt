// A chunk's record of a block of a lent table, read and written where it lies.
#![tactic(auto)]

ghost use Rattle.std.specs.Prelude.{◌≡◌, get_or, set};
ghost use Rattle.rules.specs.Tables.{with_records};
ghost use Rattle.rules.specs.Zero.{zero_record};
ghost use Rattle.table_records.specs.Numbers.{record_number};

use rules::{Record, Table};

// The number of a chunk's record of a block; where there is no such chunk or block, the one beyond the last.
pub fn record_number(chunk: u64, block: u64) -> u64
    ensures { result ≡ record_number chunk block }
{
    if chunk < rules::CHUNKS as u64 && block < rules::BLOCKS as u64 {
        chunk * rules::BLOCKS as u64 + block
    } else {
        rules::RECORDS as u64
    }
}

// Beyond the last record there is none: zero.
pub fn record_in(t: &Table, i: u64) -> Record
    ensures { result ≡ get_or t.now.records i zero_record }
{
    arrays::at(&t.records, i, table_zero::record())
}

// Beyond the last record nothing is written.
pub fn put_record(t: &mut Table, i: u64, x: Record)
    ensures { t.new ≡ with_records t.old (set t.old.records i x) }
{
    arrays::put(&mut t.records, i, x);
}
