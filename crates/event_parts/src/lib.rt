// One event on the parts of the table that it touches: a host, a chunk, a record, and the network as its place's slot, how many
// places are free, and new messages. Failure and epoch change touch more.
#![tactic(auto)]

ghost use Rattle.std.specs.Prelude.{◌≡◌};
ghost use Rattle.event_parts.specs.Acts.{unchanged, by_host, by_messages, by_chunk, by_arrived, delivered, acted};

use event_operands::Step;
use host_attempts::Sent;
use rules::{
    Action, Arrived, Chunk, Creation, Epoch, Event, Host, Message, Outcome, Record, Refused, Set,
};

// What an event looks at: what the store was created with, its epoch, the place's slot, the parts, how many places are free.
#[derive(Clone, Copy)]
pub struct Parts {
    pub creation: Creation,
    pub epoch: Epoch,
    pub slot: Option<Message>,
    pub host: Host,
    pub chunk: Chunk,
    pub set: Set,
    pub held: Record,
    pub free: u64,
}

// What it leaves: the parts after it and new messages, at most one a chunk. (A delivered or dropped message is not removed here.)
#[derive(Clone, Copy)]
pub struct Acted {
    pub host: Host,
    pub chunk: Chunk,
    pub held: Record,
    pub messages: [Option<Message>; rules::CHUNKS],
    pub outcome: Outcome,
}

// The parts as they were, no message and no outcome.
impl From<Parts> for Acted {
    ghost from_gives = { λ p left. left ≡ unchanged p };

    fn from(p: Parts) -> Acted {
        Acted {
            host: p.host,
            chunk: p.chunk,
            held: p.held,
            messages: network_places::only(None),
            outcome: Outcome::None,
        }
    }
}

// The host alone changes.
fn by_host(p: Parts, host: Host) -> Acted
    ensures { result ≡ by_host p host }
{
    Acted {
        host,
        ..Acted::from(p)
    }
}

// The host changes and sends, and there may be an outcome.
fn by_messages(p: Parts, s: Sent) -> Acted
    ensures { result ≡ by_messages p s }
{
    let Sent {
        host,
        messages,
        outcome,
    } = s;
    Acted {
        host,
        messages,
        outcome,
        ..Acted::from(p)
    }
}

// The chunk alone changes.
fn by_chunk(p: Parts, chunk: Chunk) -> Acted
    ensures { result ≡ by_chunk p chunk }
{
    Acted {
        chunk,
        ..Acted::from(p)
    }
}

// What a request or a run reaches changes, that is the chunk and its record, and there may be a reply.
fn by_arrived(p: Parts, a: Arrived) -> Acted
    ensures { result ≡ by_arrived p a }
{
    Acted {
        chunk: a.chunk,
        held: a.held,
        messages: network_places::only(a.reply),
        ..Acted::from(p)
    }
}

// A request is the chunk's, a reply the host's. An empty place has nothing for anybody.
fn deliver(p: Parts) -> Acted
    ensures { result ≡ delivered p p.slot }
{
    match p.slot {
        None => Acted::from(p),
        Some(m) if network_messages::is_for_chunk(m) => {
            by_arrived(
                p,
                chunk_arrival::arrive(p.creation.blocks, p.chunk, p.held, m),
            )
        }
        Some(m) => by_host(p, host_replies::at_host(p.host, m)),
    }
}

// The event's refusals and effect. A kind that is not done on parts is out of range.
#[tactic(auto, unfolding(crate::specs::Acts::acted))]
pub fn act(e: Event, p: Parts) -> Result<Acted, Refused>
    ensures { result ≡ acted e p }
{
    Ok(match Step::try_from(e.kind)? {
        Step::Read => by_host(
            p,
            host_alone::intake(p.host, table_zero::operation_of(e.b, Action::Read))?,
        ),
        Step::Write => by_host(
            p,
            host_alone::intake(p.host, table_zero::operation_of(e.b, Action::Write(e.c)))?,
        ),
        Step::Start => by_messages(
            p,
            host_attempts::start(e.a, e.b, e.c, p.set, p.host, p.free)?,
        ),
        Step::Deliver => {
            network_places::place_code(p.slot)?;
            deliver(p)
        }
        Step::Drop => {
            network_places::place_code(p.slot)?;
            Acted::from(p)
        }
        Step::Finish => by_messages(p, host_attempts::finish(e.a, p.set, p.host, p.free)?),
        Step::Timeout => by_host(p, host_alone::time_out(p.host)?),
        Step::Refresh => by_host(p, host_alone::refresh(p.host, p.epoch)?),
        Step::Run => by_arrived(p, chunk_head::run(e.a, e.b, p.chunk, p.held, p.free)?),
        Step::Stop => by_host(p, host_alone::stop(p.host)?),
        Step::Recover => by_chunk(p, chunk_alone::recover(p.chunk)?),
        Step::TakeLease => by_chunk(p, chunk_alone::take_lease(p.chunk)?),
        Step::GiveLease => by_chunk(p, chunk_alone::give_lease(p.chunk)?),
        Step::Overdue => by_chunk(
            p,
            chunk_head::overdue(p.chunk, e.b, p.held.waiting, e.c, p.creation.age)?,
        ),
        Step::Fail | Step::EpochChange => return Err(Refused::OutOfRange),
    })
}
