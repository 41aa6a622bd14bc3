// A message arrives at a chunk: what it makes of the chunk and its record of the block, and the reply.
#![tactic(auto)]

ghost use Rattle.std.specs.Prelude.{◌≡◌, ltb, if◌then◌else◌};
ghost use Rattle.rules.specs.Chunks.{with_waiting, arrived, arrives};
ghost use Rattle.rules.specs.Waiting.{marked};
ghost use Rattle.chunk_arrival.specs.Replies.{answered};

use rules::{Arrived, Chunk, Entry, Epoch, Header, Kind, Message, Record, Refusal, Sort};

// "Read or prewrite at a chunk, in this order": version mismatch, error, out of order, busy; "else it waits, after its equals".
#[tactic(auto, unfolding(rules::specs::Chunks::arrived))]
fn wait(
    blocks: u64,
    c: Chunk,
    r: Record,
    header: Header,
    epoch: Epoch,
    kind: Kind,
) -> Result<Record, Refusal>
    ensures { answered c r header kind result ≡ arrived blocks c r header epoch kind }
{
    let t = header.timestamp;
    if epoch != c.epoch {
        return Err(Refusal::Mismatch);
    }
    if header.block >= blocks {
        return Err(Refusal::Error);
    }
    if t < r.write || kind != Kind::Read && t < r.read {
        return Err(Refusal::OutOfOrder);
    }
    if r.waiting.count >= rules::WAITING as u64 {
        return Err(Refusal::Busy);
    }
    let entry = Entry {
        timestamp: t,
        sender: header.host,
        epoch,
        kind,
    };
    Ok(Record {
        waiting: chunk_waiting::insert(r.waiting, entry),
        ..r
    })
}

// "Commit and abort ignore the epoch"; "for a block outside, nothing changes".
fn decide(blocks: u64, r: Record, header: Header, commit: bool) -> Record
    ensures { result ≡ (if ltb header.block blocks then with_waiting r (marked commit header.timestamp r.waiting) else r) }
{
    if header.block >= blocks {
        return r;
    }
    Record {
        waiting: chunk_waiting::mark(r.waiting, header.timestamp, commit),
        ..r
    }
}

// A message at a chunk, with its record of the message's block. "A failed or nolease chunk .. take no notice". (Replies go to hosts.)
#[tactic(auto, unfolding(rules::specs::Chunks::at_chunk, rules::specs::Chunks::decides))]
pub fn arrive(blocks: u64, c: Chunk, r: Record, m: Message) -> Arrived
    ensures { result ≡ arrives blocks c r m }
{
    let header = network_messages::header_of(m);
    let (held, sort) = match m {
        _ if !table_kinds::is_normal(c.state) => (r, None),
        Message::Read { epoch, .. } => match wait(blocks, c, r, header, epoch, Kind::Read) {
            Ok(held) => (held, None),
            Err(why) => (r, Some(Sort::Refusal(why))),
        },
        Message::Prewrite { epoch, value, .. } => {
            match wait(blocks, c, r, header, epoch, Kind::Undecided(value)) {
                Ok(held) => (held, Some(Sort::PrewriteReply)),
                Err(why) => (r, Some(Sort::Refusal(why))),
            }
        }
        Message::Commit { .. } => (decide(blocks, r, header, true), None),
        Message::Abort { .. } => (decide(blocks, r, header, false), None),
        Message::Mismatch { .. }
        | Message::Error { .. }
        | Message::OutOfOrder { .. }
        | Message::Busy { .. }
        | Message::ReadReply { .. }
        | Message::PrewriteReply { .. } => (r, None),
    };
    Arrived {
        chunk: c,
        held,
        reply: sort.map(|sort| network_messages::message_of(header, sort)),
    }
}
