// The types of the table, its events and its answers. They are the definitions' types too (specs/).
// In each enum the first case is the one that an unused place holds: the machine's zero is the definitions' zero.
#![tactic(auto)]

// Limits, named once.
pub const HOSTS: usize = 8;

pub const CHUNKS: usize = 8;

pub const BLOCKS: usize = 16;

pub const OPERATIONS: usize = 8;

pub const WAITING: usize = 8;

pub const PLACES: usize = 64;

pub const RECORDS: usize = 128;

// "Clocks and epochs go up to 4,294,967,295".
pub const GREATEST_CLOCK: u64 = 4294967295;

// "A timestamp is clock x 8 + host number".
pub const CLOCK_FACTOR: u64 = 8;

pub const GREATEST_TIMESTAMP: u64 = 34359738367;

// The code of what is done; a refusal has its own.
pub const DONE: u64 = 0;

// Why an event or a creation is refused, with the code that document 01 gives it.
#[derive(Clone, Copy, PartialEq, Eq)]
pub enum Refused {
    // "number outside its range, unknown kind, unused operand not 0, or a read's chosen copy not in the block's set"
    OutOfRange = 1,
    // "the party isn't in the state that the step names"
    NotInState = 2,
    // "clock not above the host's last drawn"
    ClockNotAbove = 3,
    // "host already has 8 operations"
    QueueFull = 4,
    // "the step's messages exceed the free places"
    NoRoom = 5,
    // "for some block every chunk of its set is lost"
    AllLost = 6,
    // "epoch is 4,294,967,295"
    LastEpoch = 7,
    // "table not well formed"
    NotFormed = 8,
}

// 0 means "never".
#[derive(Clone, Copy, PartialEq, Eq, PartialOrd, Ord)]
pub struct Timestamp(pub u64);

#[derive(Clone, Copy, PartialEq, Eq, PartialOrd, Ord)]
pub struct Epoch(pub u64);

// A set of chunks.
#[derive(Clone, Copy)]
pub struct Set {
    pub chunks: [bool; CHUNKS],
}

// What a store is created with: counts, age limit, and for each block the set of chunks that hold its copies.
#[derive(Clone, Copy)]
pub struct Creation {
    pub hosts: u64,
    pub chunks: u64,
    pub blocks: u64,
    pub age: u64,
    pub sets: [Set; BLOCKS],
}

// A waiting entry is a read, an undecided write, a committed write or an aborted write; a write has its value.
#[derive(Clone, Copy, PartialEq, Eq)]
pub enum Kind {
    Read,
    Undecided(u64),
    Committed(u64),
    Aborted(u64),
}

#[derive(Clone, Copy)]
pub struct Entry {
    pub timestamp: Timestamp,
    pub sender: u64,
    pub epoch: Epoch,
    pub kind: Kind,
}

// Up to 8 waiting entries in timestamp order.
#[derive(Clone, Copy)]
pub struct Waiting {
    pub count: u64,
    pub entries: [Entry; WAITING],
}

// What a chunk has of one block: its value, last read, last write, and the waiting entries.
#[derive(Clone, Copy)]
pub struct Record {
    pub value: u64,
    pub read: Timestamp,
    pub write: Timestamp,
    pub waiting: Waiting,
}

#[derive(Clone, Copy, PartialEq, Eq)]
pub enum State {
    Normal,
    Nolease,
    Failed,
}

// A chunk without its records; reconcile is the set of blocks that need reconciliation.
#[derive(Clone, Copy)]
pub struct Chunk {
    pub state: State,
    pub lost: bool,
    pub epoch: Epoch,
    pub reconcile: [bool; BLOCKS],
}

#[derive(Clone, Copy, PartialEq, Eq)]
pub enum Action {
    Read,
    Write(u64),
}

#[derive(Clone, Copy)]
pub struct Operation {
    pub block: u64,
    pub action: Action,
}

// Up to 8 operations. The front one is the current one while the host has an attempt.
#[derive(Clone, Copy)]
pub struct Queue {
    pub count: u64,
    pub operations: [Operation; OPERATIONS],
}

// One attempt at the current operation; a host without a current operation has zeros here.
#[derive(Clone, Copy)]
pub struct Attempt {
    pub timestamp: Timestamp,
    pub outstanding: Set,
    pub okay: bool,
    pub restart: bool,
    pub result: u64,
}

// epoch is the epoch known, mapped says that the map is current, clock is the last clock drawn.
#[derive(Clone, Copy)]
pub struct Host {
    pub working: bool,
    pub queue: Queue,
    pub attempt: Attempt,
    pub epoch: Epoch,
    pub mapped: bool,
    pub clock: u64,
}

// What every message has. A reply has its request's.
#[derive(Clone, Copy)]
pub struct Header {
    pub host: u64,
    pub chunk: u64,
    pub block: u64,
    pub timestamp: Timestamp,
}

// A message carries only its own kind's numbers; epoch is the one that the host knows.
#[derive(Clone, Copy)]
pub enum Message {
    Read {
        host: u64,
        chunk: u64,
        block: u64,
        timestamp: Timestamp,
        epoch: Epoch,
    },
    Prewrite {
        host: u64,
        chunk: u64,
        block: u64,
        timestamp: Timestamp,
        epoch: Epoch,
        value: u64,
    },
    Commit {
        host: u64,
        chunk: u64,
        block: u64,
        timestamp: Timestamp,
        epoch: Epoch,
    },
    Abort {
        host: u64,
        chunk: u64,
        block: u64,
        timestamp: Timestamp,
        epoch: Epoch,
    },
    Mismatch {
        host: u64,
        chunk: u64,
        block: u64,
        timestamp: Timestamp,
    },
    Error {
        host: u64,
        chunk: u64,
        block: u64,
        timestamp: Timestamp,
    },
    OutOfOrder {
        host: u64,
        chunk: u64,
        block: u64,
        timestamp: Timestamp,
    },
    Busy {
        host: u64,
        chunk: u64,
        block: u64,
        timestamp: Timestamp,
    },
    ReadReply {
        host: u64,
        chunk: u64,
        block: u64,
        timestamp: Timestamp,
        value: u64,
    },
    PrewriteReply {
        host: u64,
        chunk: u64,
        block: u64,
        timestamp: Timestamp,
    },
}

// What a host asks of a chunk.
#[derive(Clone, Copy)]
pub enum Request {
    Read,
    Prewrite(u64),
    Commit,
    Abort,
}

// Why a chunk does not take a read or a prewrite, or cannot answer a read.
#[derive(Clone, Copy)]
pub enum Refusal {
    Mismatch,
    Error,
    OutOfOrder,
    Busy,
}

// Of which sort a message is, with the numbers that it has beside its header: a request, a plain refusal, a read reply or a
// prewrite reply.
#[derive(Clone, Copy)]
pub enum Sort {
    Request(Epoch, Request),
    Refusal(Refusal),
    ReadReply(u64),
    PrewriteReply,
}

// The record of chunk c and block b stands at c x 16 + b; a place of the network holds a message or nothing.
#[derive(Clone, Copy)]
pub struct Table {
    pub creation: Creation,
    pub epoch: Epoch,
    pub hosts: [Host; HOSTS],
    pub chunks: [Chunk; CHUNKS],
    pub records: [Record; RECORDS],
    pub places: [Option<Message>; PLACES],
}

// The answer to a creation; a refused one gives no store, that is a table of zeros.
#[derive(Clone, Copy)]
pub struct Created {
    pub table: Table,
    pub code: u64,
}

// What a message or a run makes of a chunk and its record, and the reply, if any.
#[derive(Clone, Copy)]
pub struct Arrived {
    pub chunk: Chunk,
    pub held: Record,
    pub reply: Option<Message>,
}

// One chunk's copy of the block that is settled.
#[derive(Clone, Copy)]
pub struct Copy {
    pub member: bool,
    pub lost: bool,
    pub held: Record,
}

// An event's number and three operands; an operand that its kind does not use is 0.
#[derive(Clone, Copy)]
pub struct Event {
    pub kind: u64,
    pub a: u64,
    pub b: u64,
    pub c: u64,
}

// What an operand is: the number of a host, a chunk, a block or a place, a clock, a time, a value; unused; of an unknown kind.
#[derive(Clone, Copy, PartialEq, Eq)]
pub enum Operand {
    Unknown,
    Unused,
    Host,
    Chunk,
    Block,
    Place,
    Clock,
    Now,
    Value,
}

// What the three operands of a kind are.
#[derive(Clone, Copy)]
pub struct Operands(pub Operand, pub Operand, pub Operand);

#[derive(Clone, Copy)]
pub enum Outcome {
    None,
    ReadDone { host: u64, block: u64, value: u64 },
    WriteDone { host: u64, block: u64 },
    ReadFailed { host: u64, block: u64 },
    WriteFailed { host: u64, block: u64 },
}

#[derive(Clone, Copy)]
pub struct Answer {
    pub table: Table,
    pub code: u64,
    pub outcome: Outcome,
}

// An answer without its table: what the caller of an event is told.
#[derive(Clone, Copy)]
pub struct Reply {
    pub code: u64,
    pub outcome: Outcome,
}

impl From<Refused> for u64 {
    ghost use Rattle.std.specs.Prelude.{◌≡◌};
    ghost use Rattle.rules.specs.Codes.{number_of};

    ghost from_gives = { λ why code. code ≡ number_of why };

    fn from(why: Refused) -> u64 {
        why as u64
    }
}

// A refusal has no outcome.
impl From<Result<Outcome, Refused>> for Reply {
    ghost use Rattle.std.specs.Prelude.{◌≡◌};
    ghost use Rattle.rules.specs.Codes.{reply_by};

    ghost from_gives = { λ answer reply. reply ≡ reply_by answer };

    fn from(answer: Result<Outcome, Refused>) -> Reply {
        match answer {
            Ok(outcome) => Reply {
                code: DONE,
                outcome,
            },
            Err(why) => Reply {
                code: u64::from(why),
                outcome: Outcome::None,
            },
        }
    }
}
