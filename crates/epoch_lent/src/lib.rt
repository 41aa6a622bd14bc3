// Event 15, the epoch change, of a lent table where it lies: the copies of a block are gathered, settled by value and stored back,
// block by block; then the chunks begin anew.
#![tactic(auto)]

ghost use Rattle.std.specs.Prelude.{◌≡◌};
ghost use Rattle.rules.specs.Codes.{ruled};
ghost use Rattle.rules.specs.Events.{settled_in, renewed, epoch_refusals};
ghost use Rattle.rules.specs.Limits.{chunk_limit};
ghost use Rattle.rules.specs.Tables.{set_of, with_records, with_chunks, with_epoch};
ghost use Rattle.rules.specs.Words.{each, numbers};
ghost use Rattle.rules.specs.Zero.{◌among◌};
ghost use Rattle.epoch_lent.specs.Steps.{copy_at, copies_at, changed_to};

use rules::{Copy, Creation, Epoch, Record, Refused, Table};

// The chunk has a copy of the block.
fn holds(k: &Creation, c: u64, b: u64) -> bool
    ensures { result ≡ (c among set_of k.now b) }
{
    k.sets
        .get(b as usize)
        .is_some_and(|set| table_sets::among(c, *set))
}

// A chunk's copy of a block, written where it is to stand. Beyond the table's end there is zero.
fn copy_in(copy: &mut Copy, t: &Table, c: u64, b: u64)
    ensures { copy.new ≡ copy_at t.now b c }
{
    copy.member = holds(&t.creation, c, b);
    copy.lost = table_chunks::chunk_in(t, c).lost;
    copy.held = match t.records.get(table_records::record_number(c, b) as usize) {
        Some(held) => *held,
        None => table_zero::record(),
    };
}

// The copies of one block, one a chunk.
fn gather(copies: &mut [Copy; rules::CHUNKS], t: &Table, b: u64)
    ensures { copies.new ≡ copies_at t.now b }
{
    for c in 0..rules::CHUNKS {
        copy_in(&mut copies[c], t, c as u64, b);
    }
}

// "Settling takes all copies of one block together", block by block.
fn settle_in(t: &mut Table)
    ensures { t.new ≡ with_records t.old (settled_in t.old.creation t.old.chunks t.old.records) }
{
    let _records: &[Record] = &t.records; // named as a slice: so its length is known
    let mut copies = [Copy {
        member: false,
        lost: false,
        held: table_zero::record(),
    }; rules::CHUNKS];
    for b in 0..rules::BLOCKS as u64 {
        gather(&mut copies, t, b);
        let settled = epoch_settle::settle(copies);
        for c in 0..rules::CHUNKS {
            let i = table_records::record_number(c as u64, b);
            table_records::put_record(t, i, settled[c].held);
        }
    }
}

// "the epoch grows by one in every chunk, and every chunk is normal".
fn renew_in(t: &mut Table, next: Epoch)
    ensures { t.new ≡ with_epoch (with_chunks t.old (each (renewed t.old.creation next t.old.chunks) (numbers chunk_limit))) next }
{
    t.chunks = epoch_change::renew(table_numbers::creation_in(t), next, t.chunks);
    table_numbers::put_epoch(t, next);
}

// Where it is refused the table stays as found. next is the epoch that begins.
#[tactic(auto, unfolding(rules::specs::Codes::code_of))]
pub fn change_in(t: &mut Table, next: Epoch) -> Result<(), Refused>
    ensures { (result ≡ ruled (epoch_refusals t.old.creation t.old.epoch t.old.chunks) tt) × (t.new ≡ changed_to next t.old) }
{
    epoch_change::change_code(
        table_numbers::creation_in(t),
        table_numbers::epoch_in(t),
        t.chunks,
    )?;
    settle_in(t);
    renew_in(t, next);
    Ok(())
}
