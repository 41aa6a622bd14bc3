// Tables handed in, one for each clause of document 01's sentence on well-formed tables and one on each limit just inside and just
// outside. Each is asked event 8 (refresh of host 0). A line has the part, the case and the answer's code: 0 inside, 8 outside.
#![tactic(auto)]

ghost use Rattle.std.specs.Prelude.{◌<◌};

use rules::{
    Action, Attempt, Chunk, Creation, Entry, Epoch, Event, Header, Host, Kind, Message, Operation,
    Queue, Record, Refusal, Request, Set, Sort, State, Table, Timestamp, Waiting,
};
use std::{array, io};

// The greatest timestamp, and the greatest clock and epoch.
const TIMESTAMP: u64 = rules::GREATEST_TIMESTAMP;

const CLOCK: u64 = rules::GREATEST_CLOCK;

const REFRESH: Event = Event {
    kind: 8,
    a: 0,
    b: 0,
    c: 0,
};

// ---- the store: 2 hosts, 2 chunks, 2 blocks, both blocks on both chunks

fn on(a: bool, b: bool, c: bool) -> Set {
    Set {
        chunks: [a, b, c, false, false, false, false, false],
    }
}

fn creation() -> Creation {
    let mut sets = [table_zero::set(); rules::BLOCKS];
    sets[..2].fill(on(true, true, false));
    table_zero::creation_of(2, 2, 2, 100, sets)
}

fn store() -> Table {
    engine::create(creation()).table
}

// ---- host 0, and host 2, which the store lacks

fn queue(count: u64, first: Operation, rest: Operation) -> Queue {
    let mut operations = [rest; rules::OPERATIONS];
    operations[0] = first;
    Queue { count, operations }
}

fn attempt(timestamp: u64, outstanding: Set, okay: bool, restart: bool, value: u64) -> Attempt {
    Attempt {
        timestamp: Timestamp(timestamp),
        outstanding,
        okay,
        restart,
        result: value,
    }
}

fn hosts() -> [Host; 20] {
    let none = table_zero::set();
    let no_operation = table_zero::operation();
    let w = table_zero::operation_of(1, Action::Write(7));
    let far = table_zero::operation_of(2, Action::Read);
    let idle = Host {
        working: true,
        ..table_zero::host()
    };
    let queued = |queue| Host { queue, ..idle };
    let one = queued(queue(1, w, no_operation));
    let trying = |attempt| Host { attempt, ..one };
    let known = |epoch, clock| Host {
        epoch: Epoch(epoch),
        clock,
        ..idle
    };
    [
        idle,
        // eight operations, and nine
        queued(queue(8, w, w)),
        queued(queue(9, w, w)),
        // an operation on a block that the store lacks
        queued(queue(1, far, no_operation)),
        // unused places of the queue
        queued(queue(0, w, no_operation)),
        queued(queue(1, w, w)),
        // the greatest timestamp, and one more
        trying(attempt(TIMESTAMP, none, true, true, 0)),
        trying(attempt(TIMESTAMP + 1, none, true, true, 0)),
        // a timestamp and no operation
        Host {
            attempt: attempt(8, none, true, true, 0),
            ..idle
        },
        // outstanding chunks of the store, and another
        trying(attempt(8, on(true, true, false), true, true, 0)),
        trying(attempt(8, on(false, false, true), true, true, 0)),
        // no current operation, and still outstanding, okay, restart, a result
        trying(attempt(0, on(true, false, false), false, false, 0)),
        trying(attempt(0, none, true, false, 0)),
        trying(attempt(0, none, false, true, 0)),
        trying(attempt(0, none, false, false, 1)),
        // the greatest epoch known and last clock, and one more
        known(CLOCK, 0),
        known(CLOCK + 1, 0),
        known(0, CLOCK),
        known(0, CLOCK + 1),
        // any result value
        trying(attempt(8, none, true, true, u64::MAX)),
    ]
}

fn spare_hosts() -> [Host; 7] {
    let none = table_zero::host();
    let no_operation = table_zero::operation();
    let w = table_zero::operation_of(1, Action::Write(7));
    [
        none,
        Host {
            working: true,
            ..none
        },
        Host {
            queue: queue(1, no_operation, no_operation),
            ..none
        },
        Host {
            queue: queue(0, w, no_operation),
            ..none
        },
        Host {
            attempt: attempt(8, table_zero::set(), false, false, 0),
            ..none
        },
        Host {
            epoch: Epoch(1),
            ..none
        },
        Host { clock: 1, ..none },
    ]
}

// ---- chunk 0, and chunk 2, which the store lacks

fn only(block: usize) -> [bool; rules::BLOCKS] {
    array::from_fn(|b| b == block)
}

fn chunks() -> [Chunk; 6] {
    let fresh = Chunk {
        state: State::Nolease,
        epoch: Epoch(1),
        ..table_zero::chunk()
    };
    let normal = Chunk {
        state: State::Normal,
        ..fresh
    };
    [
        fresh,
        // another epoch than the store's
        Chunk {
            epoch: Epoch(2),
            ..fresh
        },
        Chunk {
            epoch: Epoch(0),
            ..fresh
        },
        // reconciliation of a block of the store, and of another
        Chunk {
            reconcile: only(1),
            ..normal
        },
        Chunk {
            reconcile: only(2),
            ..normal
        },
        Chunk {
            state: State::Failed,
            lost: true,
            ..fresh
        },
    ]
}

fn spare_chunks() -> [Chunk; 5] {
    let none = table_zero::chunk();
    [
        none,
        Chunk {
            state: State::Nolease,
            ..none
        },
        Chunk { lost: true, ..none },
        Chunk {
            epoch: Epoch(1),
            ..none
        },
        Chunk {
            reconcile: only(0),
            ..none
        },
    ]
}

// ---- chunk 0's record of block 0, and its record of block 2, which the store lacks

fn entry(timestamp: u64, sender: u64, epoch: u64, kind: Kind) -> Entry {
    Entry {
        timestamp: Timestamp(timestamp),
        sender,
        epoch: Epoch(epoch),
        kind,
    }
}

fn read_at(timestamp: u64) -> Entry {
    entry(timestamp, 0, 1, Kind::Read)
}

// Eight places: two given ones, then as many as the last is repeated.
fn waiting(count: u64, a: Entry, b: Entry, rest: Entry) -> Waiting {
    Waiting {
        count,
        entries: [a, b, rest, rest, rest, rest, rest, rest],
    }
}

// So many waiting, by their count; the first place has e.
fn first(count: u64, e: Entry) -> Waiting {
    let none = table_zero::entry();
    waiting(count, e, none, none)
}

fn records() -> [Record; 18] {
    let empty = table_zero::record();
    let stamped = |read, write| Record {
        read: Timestamp(read),
        write: Timestamp(write),
        ..empty
    };
    let held = |waiting| Record { waiting, ..empty };
    let none = table_zero::entry();
    [
        // any value, with all else zero
        Record {
            value: u64::MAX,
            ..empty
        },
        // the greatest last read and last write, and one more
        stamped(TIMESTAMP, 0),
        stamped(TIMESTAMP + 1, 0),
        stamped(0, TIMESTAMP),
        stamped(0, TIMESTAMP + 1),
        // eight waiting, equal timestamps among them, and nine
        held(waiting(8, read_at(8), read_at(8), read_at(16))),
        held(waiting(9, read_at(8), read_at(8), read_at(16))),
        // descending order
        held(waiting(2, read_at(16), read_at(8), none)),
        // the greatest timestamp, and one more
        held(first(1, read_at(TIMESTAMP))),
        held(first(1, read_at(TIMESTAMP + 1))),
        // the last host as sender, and one that the store lacks
        held(first(1, entry(8, 1, 1, Kind::Undecided(7)))),
        held(first(1, entry(8, 2, 1, Kind::Undecided(7)))),
        // the greatest epoch, and one more
        held(first(1, entry(8, 0, CLOCK, Kind::Aborted(7)))),
        held(first(1, entry(8, 0, CLOCK + 1, Kind::Aborted(7)))),
        // unused places of the waiting list
        held(waiting(1, read_at(8), read_at(8), none)),
        held(first(0, entry(0, 1, 0, Kind::Read))),
        held(first(0, entry(0, 0, 1, Kind::Read))),
        held(first(0, entry(0, 0, 0, Kind::Committed(0)))),
    ]
}

fn spare_records() -> [Record; 6] {
    let none = table_zero::record();
    [
        none,
        Record { value: 1, ..none },
        Record {
            read: Timestamp(1),
            ..none
        },
        Record {
            write: Timestamp(1),
            ..none
        },
        Record {
            waiting: first(1, table_zero::entry()),
            ..none
        },
        Record {
            waiting: first(0, read_at(8)),
            ..none
        },
    ]
}

// ---- a message at place 0

fn header(host: u64, chunk: u64, block: u64, timestamp: u64) -> Header {
    Header {
        host,
        chunk,
        block,
        timestamp: Timestamp(timestamp),
    }
}

fn request(header: Header, epoch: u64, request: Request) -> Message {
    network_messages::message_of(header, Sort::Request(Epoch(epoch), request))
}

fn messages() -> [Message; 11] {
    [
        // the last host and one more, the last chunk and one more
        request(header(1, 1, 0, 8), 1, Request::Read),
        request(header(2, 1, 0, 8), 1, Request::Read),
        request(header(1, 2, 0, 8), 1, Request::Read),
        // a block up to 15, also one that the store lacks
        request(header(0, 0, 15, 8), 1, Request::Prewrite(7)),
        request(header(0, 0, 16, 8), 1, Request::Prewrite(7)),
        // the greatest timestamp, and one more
        request(header(0, 0, 0, TIMESTAMP), 1, Request::Commit),
        request(header(0, 0, 0, TIMESTAMP + 1), 1, Request::Commit),
        // the greatest epoch, and one more
        request(header(0, 0, 0, 8), CLOCK, Request::Abort),
        request(header(0, 0, 0, 8), CLOCK + 1, Request::Abort),
        // replies
        network_messages::message_of(header(1, 1, 15, 0), Sort::ReadReply(u64::MAX)),
        network_messages::message_of(header(1, 2, 0, 8), Sort::Refusal(Refusal::Busy)),
    ]
}

// ---- what the store was created with

fn counted(hosts: u64, chunks: u64, blocks: u64, age: u64) -> Creation {
    table_zero::creation_of(hosts, chunks, blocks, age, creation().sets)
}

fn mapped(block: usize, s: Set) -> Creation
    requires { block < 16 }
{
    let mut k = creation();
    k.sets[block] = s;
    k
}

fn creations() -> [Creation; 15] {
    [
        // 1 to 8 hosts: a host of zeros is a stopped host
        counted(0, 2, 2, 100),
        counted(8, 2, 2, 100),
        counted(9, 2, 2, 100),
        // 1 to 8 chunks: a chunk of zeros has not the store's epoch
        counted(2, 0, 2, 100),
        counted(2, 3, 2, 100),
        counted(2, 9, 2, 100),
        // 1 to 16 blocks: a block of the store has a set
        counted(2, 2, 0, 100),
        counted(2, 2, 3, 100),
        counted(2, 2, 17, 100),
        // the greatest age limit, and one more
        counted(2, 2, 2, CLOCK),
        counted(2, 2, 2, CLOCK + 1),
        // no chunk, one that the store lacks, one of the two
        mapped(0, on(false, false, false)),
        mapped(0, on(true, false, true)),
        mapped(1, on(false, true, false)),
        // a set of a block that the store lacks
        mapped(2, on(true, false, false)),
    ]
}

// ---- the lines

// The store with one part changed, for each case of it.
fn lines<T: Copy, F: Fn(&mut Table, T)>(
    rt: &impl Print,
    part: &str,
    cases: &[T],
    change: F,
) -> io::Result<()>
    requires { F.IsAlwaysCallable change }
{
    for (n, case) in cases.iter().enumerate() {
        let mut t = store();
        change(&mut t, *case);
        let code = engine::step(t, REFRESH).code;
        println!(rt; "{part} {n} {code}")?;
    }
    Ok(())
}

fn main(rt: HostRuntime) -> io::Result<()> {
    lines(&rt, "host", &hosts(), |t, h| t.hosts[0] = h)?;
    lines(&rt, "spare host", &spare_hosts(), |t, h| t.hosts[2] = h)?;
    lines(&rt, "chunk", &chunks(), |t, c| t.chunks[0] = c)?;
    lines(&rt, "spare chunk", &spare_chunks(), |t, c| t.chunks[2] = c)?;
    lines(&rt, "record", &records(), |t, r| t.records[0] = r)?;
    let spare = spare_records();
    lines(&rt, "spare block's record", &spare, |t, r| t.records[2] = r)?;
    lines(
        &rt,
        "spare chunk's record",
        &spare,
        |t, r| t.records[32] = r,
    )?;
    lines(&rt, "message", &messages(), |t, m| t.places[0] = Some(m))?;
    lines(&rt, "creation", &creations(), |t, k| t.creation = k)?;
    // the store's epoch, and the chunks'
    let epochs = [(CLOCK, CLOCK), (CLOCK + 1, CLOCK + 1), (2, 1)];
    lines(&rt, "epoch", &epochs, |t, (stores, chunks)| {
        t.epoch = Epoch(stores);
        t.chunks[0].epoch = Epoch(chunks);
        t.chunks[1].epoch = Epoch(chunks);
    })
}
