// Event 11 of a lent table where it lies: the chunk fails, and what waits in it goes, block by block.
#![tactic(auto)]

ghost use Rattle.std.specs.Prelude.{◌≡◌};
ghost use Rattle.rules.specs.Chunks.{fail_refusals};
ghost use Rattle.rules.specs.Codes.{ruled};
ghost use Rattle.rules.specs.Events.{without_waiting};
ghost use Rattle.rules.specs.Tables.{chunk_of, with_records};
ghost use Rattle.chunk_fault.specs.Steps.{failed_to};

use rules::{Record, Refused, Table};

// "all its waiting entries .. go". The records are named as a slice: so it is known how many they are.
fn empty_in(t: &mut Table, chunk: u64)
    ensures { t.new ≡ with_records t.old (without_waiting t.old.records chunk) }
{
    let _records: &[Record] = &t.records;
    for b in 0..rules::BLOCKS as u64 {
        let i = table_records::record_number(chunk, b);
        let held = table_records::record_in(t, i);
        let emptied = Record {
            waiting: table_zero::waiting(),
            ..held
        };
        table_records::put_record(t, i, emptied);
    }
}

// Why it is refused; then the table stays as found.
pub fn fail_in(t: &mut Table, chunk: u64) -> Result<(), Refused>
    ensures { (result ≡ ruled (fail_refusals (chunk_of t.old chunk).state) tt) × (t.new ≡ failed_to chunk t.old) }
{
    let failed = chunk_alone::fail(table_chunks::chunk_in(t, chunk))?;
    table_chunks::put_chunk(t, chunk, failed);
    empty_in(t, chunk);
    Ok(())
}
