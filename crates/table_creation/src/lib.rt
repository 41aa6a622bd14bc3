// What a created store begins with: fresh parts, and zero in unused places.
#![tactic(auto)]

ghost use Rattle.std.specs.Prelude.{◌≡◌, ltb, if◌then◌else◌};
ghost use Rattle.rules.specs.Codes.{ruled};
ghost use Rattle.rules.specs.Creation.{creation_refusals, fresh};
ghost use Rattle.rules.specs.Words.{each, numbers};
ghost use Rattle.rules.specs.Zero.{zero_table};

use rules::{Chunk, Creation, Epoch, Host, Refused, State, Table};
use std::array;

// An array of which the first places are used, and hold one value; the others hold another.
fn used_of<T: Copy, const N: usize>(count: u64, used: T, unused: T) -> [T; N]
    ensures { result ≡ each (λ i. if ltb i count then used else unused) (numbers N) }
{
    array::from_fn(|i| if (i as u64) < count { used } else { unused })
}

// A refused creation "gives no store": a table of zeros.
pub fn no_store() -> Table
    ensures { result ≡ zero_table }
{
    Table {
        creation: table_zero::creation(),
        epoch: Epoch(0),
        hosts: [table_zero::host(); rules::HOSTS],
        chunks: [table_zero::chunk(); rules::CHUNKS],
        records: [table_zero::record(); rules::RECORDS],
        places: [None; rules::PLACES],
    }
}

// "Fresh: all values and timestamps 0, queues and network empty, epoch 1".
#[tactic(auto, unfolding(rules::specs::Creation::fresh))]
fn fresh(creation: Creation) -> Table
    ensures { result ≡ fresh creation }
{
    let host = table_zero::host();
    let chunk = table_zero::chunk();
    // "hosts working with map not current and epoch known 0".
    let new_host = Host {
        working: true,
        ..host
    };
    // "chunks nolease and not lost".
    let new_chunk = Chunk {
        state: State::Nolease,
        epoch: Epoch(1),
        ..chunk
    };
    Table {
        creation,
        epoch: Epoch(1),
        hosts: used_of(creation.hosts, new_host, host),
        chunks: used_of(creation.chunks, new_chunk, chunk),
        ..no_store()
    }
}

// "Any other creation is refused with code 1 and gives no store".
#[tactic(auto, unfolding(rules::specs::Codes::code_of))]
pub fn create(k: Creation) -> Result<Table, Refused>
    ensures { result ≡ ruled (creation_refusals k) (fresh k) }
{
    if !table_sound::is_creation(k) {
        return Err(Refused::OutOfRange);
    }
    Ok(fresh(k))
}
