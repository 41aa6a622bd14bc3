// One event that touches one host, one chunk, one record and the network, on a lent table: they are read where they lie, the event
// acts on them by value, and what it leaves is stored back. On any table: beyond an array's end there is zero, and nothing is stored.
#![tactic(auto)]

ghost use Rattle.std.specs.Prelude.{◌≡◌};
ghost use Rattle.rules.specs.Tables.{with_places};
ghost use Rattle.network_places.specs.Sending.{sent_all};
ghost use Rattle.event_parts.specs.Acts.{granting};
ghost use Rattle.event_lent.specs.Touches.{set_in, removed_at, here_in, parts_in, keeping, left_of, acted_on};

use event_operands::Step;
use event_parts::{Acted, Parts};
use rules::{Creation, Event, Message, Outcome, Refused, Set, Table};

// Whom an event is about: its place's slot, the numbers of the host, the chunk, the block and the record, and the place that is
// emptied, if any.
#[derive(Clone, Copy)]
pub struct Here {
    pub slot: Option<Message>,
    pub host: u64,
    pub chunk: u64,
    pub block: u64,
    pub record: u64,
    pub place: Option<u64>,
}

// ---- where the parts stand

// The chunks that hold a block; none, where there is no such block.
fn set_of(k: Creation, block: u64) -> Set
    ensures { result ≡ set_in k block }
{
    k.sets
        .get(block as usize)
        .copied()
        .unwrap_or(table_zero::set())
}

// "4 deliver (place), 5 drop (place)": the message goes. Any other event removes none.
fn removed_at(e: Event) -> Option<u64>
    ensures { result ≡ removed_at e }
{
    match Step::try_from(e.kind) {
        Ok(Step::Deliver | Step::Drop) => Some(e.a),
        _ => None,
    }
}

#[tactic(auto, unfolding(crate::specs::Touches::here_in))]
fn here_in(t: &Table, e: Event) -> Here
    ensures { result ≡ here_in t.now e }
{
    let slot = table_places::place_in(t, event_operands::place_at(e));
    let host = event_operands::host_at(e, slot);
    let chunk = event_operands::chunk_at(e, slot);
    let block = event_operands::block_at(e, slot, table_hosts::host_in(t, host));
    Here {
        slot,
        host,
        chunk,
        block,
        record: table_records::record_number(chunk, block),
        place: removed_at(e),
    }
}

// ---- the parts, gathered, and stored back

#[tactic(auto, unfolding(crate::specs::Touches::parts_in))]
fn parts_in(t: &Table, x: Here) -> Parts
    ensures { result ≡ parts_in t.now x }
{
    Parts {
        creation: t.creation,
        epoch: t.epoch,
        slot: x.slot,
        host: table_hosts::host_in(t, x.host),
        chunk: table_chunks::chunk_in(t, x.chunk),
        set: set_of(t.creation, x.block),
        held: table_records::record_in(t, x.record),
        free: table_places::free_in(t),
    }
}

// The parts, and the network without the message that is delivered or dropped.
#[tactic(auto, unfolding(crate::specs::Touches::keeping))]
fn keep_in(t: &mut Table, x: Here, a: Acted)
    ensures { t.new ≡ keeping t.old x a }
{
    table_hosts::put_host(t, x.host, a.host);
    table_chunks::put_chunk(t, x.chunk, a.chunk);
    table_records::put_record(t, x.record, a.held);
    if let Some(place) = x.place {
        table_places::remove_in(t, place);
    }
}

// "New messages go to the lowest free places, by ascending chunk".
fn send_each(t: &mut Table, messages: [Option<Message>; rules::CHUNKS])
    ensures { t.new ≡ with_places t.old (sent_all t.old.places messages) }
{
    for m in messages {
        table_places::send_in(t, m);
    }
}

// ---- the event

// The event, where the table lies. A refused one leaves it as it is.
#[tactic(auto, unfolding(crate::specs::Touches::acted_on, crate::specs::Touches::storing))]
pub fn act_in(t: &mut Table, e: Event) -> Result<Outcome, Refused>
    ensures { (result ≡ granting (λ x. x.outcome) (acted_on t.old e)) × (t.new ≡ left_of t.old (acted_on t.old e)) }
{
    let x = here_in(t, e);
    let a = event_parts::act(e, parts_in(t, x))?;
    keep_in(t, x, a);
    send_each(t, a.messages);
    Ok(a.outcome)
}
