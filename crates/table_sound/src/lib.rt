// Code 8: the whole table is looked at. A part of the store's must be formed, an unused one zero.
#![tactic(auto)]

ghost use Rattle.std.specs.Prelude.{ℕ, ◌<◌, ◌≡◌, ◌&&◌, not, length, ltb, if◌then◌else◌};
ghost use Rattle.rules.specs.Creation.{is_creation, is_set_of, of_store};
ghost use Rattle.rules.specs.Formed.{queue_formed, attempt_formed, host_formed, chunk_formed, entry_formed, waiting_formed, record_formed, host_at, chunk_at, record_at, header_formed, sort_formed, message_formed, hosts_formed, chunks_formed, records_formed, places_formed, well_formed};
ghost use Rattle.rules.specs.Limits.{block_limit};
ghost use Rattle.rules.specs.Words.{every, numbers};
ghost use Rattle.rules.specs.Zero.{is_empty, is_zero_entry, is_zero_record, is_zero_chunk, is_zero_operation, is_zero_attempt, is_zero_host};
ghost use Rattle.table_sound.specs.Parts.{counted, record_of_number};
ghost use Rattle.table_sound.specs.Places.{LooksAtEvery};

use rules::{
    Action, Attempt, Chunk, Creation, Entry, Epoch, Header, Host, Kind, Message, Operation, Queue,
    Record, Set, Sort, State, Table, Timestamp, Waiting,
};

// Every place of an array is formed, as a test says of its number and what stands there. All are looked at, with no way out of the
// loop: so it is unrolled.
fn every_place<T, F: Fn(u64, &T) -> bool>(places: &[T], formed: F) -> bool
    requires { (i : ℕ) (x : _) → i < length places.now → F.pre formed i x }
    ensures { LooksAtEvery F.Fn formed places.now result }
{
    let mut ok = true;
    for (i, x) in places.iter().enumerate() {
        ok &= formed(i as u64, x);
    }
    ok
}

// ---- an unused place is zero

fn is_zero_operation(o: &Operation) -> bool
    ensures { result ≡ is_zero_operation o.now }
{
    (o.block == 0) & (o.action == Action::Read)
}

// "current timestamp, outstanding chunks, okay, restart and result value all zero or false"
fn is_zero_attempt(a: &Attempt) -> bool
    ensures { result ≡ is_zero_attempt a.now }
{
    (a.timestamp == Timestamp(0))
        & table_sets::is_empty(a.outstanding)
        & !a.okay
        & !a.restart
        & (a.result == 0)
}

fn is_zero_host(h: &Host) -> bool
    ensures { result ≡ is_zero_host h.now }
{
    !h.working
        & (h.queue.count == 0)
        & every_place(&h.queue.operations, |_, o| is_zero_operation(o))
        & is_zero_attempt(&h.attempt)
        & (h.epoch == Epoch(0))
        & !h.mapped
        & (h.clock == 0)
}

fn is_zero_chunk(c: &Chunk) -> bool
    ensures { result ≡ is_zero_chunk c.now }
{
    (c.state == State::Normal) & !c.lost & (c.epoch == Epoch(0)) & !c.reconcile.contains(&true)
}

fn is_zero_entry(e: &Entry) -> bool
    ensures { result ≡ is_zero_entry e.now }
{
    (e.timestamp == Timestamp(0)) & (e.sender == 0) & (e.epoch == Epoch(0)) & (e.kind == Kind::Read)
}

fn is_zero_record(r: &Record) -> bool
    ensures { result ≡ is_zero_record r.now }
{
    (r.value == 0)
        & (r.read == Timestamp(0))
        & (r.write == Timestamp(0))
        & (r.waiting.count == 0)
        & every_place(&r.waiting.entries, |_, e| is_zero_entry(e))
}

// ---- a part of the store's

// "the first four also the epoch the host knows"
fn sort_formed(s: Sort) -> bool
    ensures { result ≡ sort_formed s }
{
    match s {
        Sort::Request(epoch, _) => epoch.0 <= rules::GREATEST_CLOCK,
        Sort::Refusal(_) | Sort::ReadReply(_) | Sort::PrewriteReply => true,
    }
}

// The store's counts: all that its parts are held to.
#[derive(Clone, Copy)]
struct Counts {
    hosts: u64,
    chunks: u64,
    blocks: u64,
}

impl From<&Creation> for Counts {
    ghost use Rattle.std.specs.Prelude.{◌≡◌};
    ghost use Rattle.table_sound.specs.Parts.{counts_of};

    ghost from_gives = { λ k n. n ≡ counts_of k.now };

    fn from(k: &Creation) -> Counts {
        Counts {
            hosts: k.hosts,
            chunks: k.chunks,
            blocks: k.blocks,
        }
    }
}

impl Counts {
    // Every chunk in the set is one of the store's.
    fn of_store(self, s: &Set) -> bool
        ensures { result ≡ of_store (counted self) s.now }
    {
        every_place(&s.chunks, |c, held| !held | (c < self.chunks))
    }

    // "Each block has a non-empty set of chunks that hold its copies"; a block that the store lacks has none.
    fn is_set_of(self, block: u64, s: &Set) -> bool
        ensures { result ≡ if ltb block self.blocks then not (is_empty s.now) && of_store (counted self) s.now else is_empty s.now }
    {
        let empty = table_sets::is_empty(*s);
        if block < self.blocks {
            !empty & self.of_store(s)
        } else {
            empty
        }
    }

    // "up to 8 operations, counting the current one"
    fn queue_formed(self, q: &Queue) -> bool
        ensures { result ≡ queue_formed (counted self) q.now }
    {
        (q.count <= rules::OPERATIONS as u64)
            & every_place(
                &q.operations,
                |i, o| if i < q.count {
                    o.block < self.blocks
                } else {
                    is_zero_operation(o)
                },
            )
    }

    // "A host without a current operation has [its attempt] zero .. With one, the current timestamp is above 0"
    fn attempt_formed(self, count: u64, a: &Attempt) -> bool
        ensures { result ≡ attempt_formed (counted self) count a.now }
    {
        if a.timestamp > Timestamp(0) {
            (1 <= count)
                & (a.timestamp.0 <= rules::GREATEST_TIMESTAMP)
                & self.of_store(&a.outstanding)
        } else {
            is_zero_attempt(a)
        }
    }

    // "epoch known; .. last clock drawn", with the queue and the attempt.
    fn host_formed(self, h: &Host) -> bool
        ensures { result ≡ host_formed (counted self) h.now }
    {
        self.queue_formed(&h.queue)
            & self.attempt_formed(h.queue.count, &h.attempt)
            & (h.epoch.0 <= rules::GREATEST_CLOCK)
            & (h.clock <= rules::GREATEST_CLOCK)
    }

    // "all chunks have one epoch, the store's"; every block in the reconciliation set is one of the store's.
    fn chunk_formed(self, epoch: Epoch, c: &Chunk) -> bool
        ensures { result ≡ chunk_formed (counted self) epoch c.now }
    {
        (c.epoch == epoch) & every_place(&c.reconcile, |b, held| !held | (b < self.blocks))
    }

    // "Beside its timestamp, sender and epoch": a kind, of which any is right.
    fn entry_formed(self, e: &Entry) -> bool
        ensures { result ≡ entry_formed (counted self) e.now }
    {
        (e.timestamp.0 <= rules::GREATEST_TIMESTAMP)
            & (e.sender < self.hosts)
            & (e.epoch.0 <= rules::GREATEST_CLOCK)
    }

    // "up to 8 waiting entries in timestamp order". Mostly nothing waits: so that is looked at first.
    fn waiting_formed(self, w: &Waiting) -> bool
        ensures { result ≡ waiting_formed (counted self) w.now }
    {
        if w.count == 0 {
            return every_place(&w.entries, |_, e| is_zero_entry(e));
        }
        (w.count <= rules::WAITING as u64)
            & every_place(
                &w.entries,
                |i, e| if i < w.count {
                    let ahead = w.entries[i.saturating_sub(1) as usize].timestamp;
                    self.entry_formed(e) & (ahead <= e.timestamp)
                } else {
                    is_zero_entry(e)
                },
            )
    }

    // "a value, last read, last write": a value is any 64-bit number.
    fn record_formed(self, r: &Record) -> bool
        ensures { result ≡ record_formed (counted self) r.now }
    {
        (r.read.0 <= rules::GREATEST_TIMESTAMP)
            & (r.write.0 <= rules::GREATEST_TIMESTAMP)
            & self.waiting_formed(&r.waiting)
    }

    // "a message's block may be 0 to 15 and a timestamp anything up to 34,359,738,367"
    fn header_formed(self, h: Header) -> bool
        ensures { result ≡ header_formed (counted self) h }
    {
        (h.host < self.hosts)
            & (h.chunk < self.chunks)
            & (h.block < rules::BLOCKS as u64)
            & (h.timestamp.0 <= rules::GREATEST_TIMESTAMP)
    }

    fn message_formed(self, m: Message) -> bool
        ensures { result ≡ message_formed (counted self) m }
    {
        self.header_formed(network_messages::header_of(m))
            & sort_formed(network_messages::sort_of(m))
    }

    // ---- the arrays

    fn host_at(self, i: u64, h: &Host) -> bool
        ensures { result ≡ host_at (counted self) i h.now }
    {
        if i < self.hosts {
            self.host_formed(h)
        } else {
            is_zero_host(h)
        }
    }

    fn chunk_at(self, epoch: Epoch, i: u64, c: &Chunk) -> bool
        ensures { result ≡ chunk_at (counted self) epoch i c.now }
    {
        if i < self.chunks {
            self.chunk_formed(epoch, c)
        } else {
            is_zero_chunk(c)
        }
    }

    // Record i is of a chunk and a block: it stands at chunk x 16 + block.
    fn record_at(self, i: u64, r: &Record) -> bool
        ensures { result ≡ record_of_number self i r.now }
    {
        let blocks = rules::BLOCKS as u64;
        if (i / blocks < self.chunks) & (i % blocks < self.blocks) {
            self.record_formed(r)
        } else {
            is_zero_record(r)
        }
    }

    fn hosts_formed(self, hosts: &[Host; rules::HOSTS]) -> bool
        ensures { result ≡ hosts_formed (counted self) hosts.now }
    {
        every_place(hosts, |i, h| self.host_at(i, h))
    }

    fn chunks_formed(self, epoch: Epoch, chunks: &[Chunk; rules::CHUNKS]) -> bool
        ensures { result ≡ chunks_formed (counted self) epoch chunks.now }
    {
        every_place(chunks, |i, c| self.chunk_at(epoch, i, c))
    }

    fn records_formed(self, records: &[Record; rules::RECORDS]) -> bool
        ensures { result ≡ records_formed (counted self) records.now }
    {
        every_place(records, |i, r| self.record_at(i, r))
    }

    fn places_formed(self, places: &[Option<Message>; rules::PLACES]) -> bool
        ensures { result ≡ places_formed (counted self) places.now }
    {
        every_place(places, |_, p| p.is_none_or(|m| self.message_formed(m)))
    }
}

// ---- the creation, and the table

// The set of every block, and of every place for one.
fn sets_formed(k: &Creation) -> bool
    ensures { result ≡ every (is_set_of k.now) (numbers block_limit) }
{
    let n = Counts::from(k);
    every_place(&k.sets, |b, s| n.is_set_of(b, s))
}

// "1 to 8 hosts, 1 to 8 chunks, 1 to 16 blocks .. with the age limit (0 to 4,294,967,295)"
#[tactic(auto, unfolding(rules::specs::Creation::is_creation))]
pub fn is_creation(k: Creation) -> bool
    ensures { result ≡ is_creation k }
{
    ((1 <= k.hosts) & (k.hosts <= rules::HOSTS as u64))
        & ((1 <= k.chunks) & (k.chunks <= rules::CHUNKS as u64))
        & ((1 <= k.blocks) & (k.blocks <= rules::BLOCKS as u64))
        & sets_formed(&k)
        & (k.age <= rules::GREATEST_CLOCK)
}

// Each part is read where it lies, and none of the table's arrays is copied.
pub fn sound_in(t: &Table) -> bool
    ensures { result ≡ well_formed t.now }
{
    let n = Counts::from(&t.creation);
    is_creation(t.creation)
        & (t.epoch.0 <= rules::GREATEST_CLOCK)
        & n.hosts_formed(&t.hosts)
        & n.chunks_formed(t.epoch, &t.chunks)
        & n.records_formed(&t.records)
        & n.places_formed(&t.places)
}
