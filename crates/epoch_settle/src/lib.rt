// Settlement of one block: "Settling takes all copies of one block together".
#![tactic(auto)]

ghost use Rattle.std.specs.Prelude.{◌≡◌};
ghost use Rattle.std.specs.List.{list_any};
ghost use Rattle.rules.specs.Chunks.{emptied};
ghost use Rattle.rules.specs.Settlement.{write_with, aborted_with, settled, settled_record};
ghost use Rattle.rules.specs.Waiting.{in_order};
ghost use Rattle.epoch_settle.specs.Steps.{agrees, all_agree, is_committed, with_entry, latest_of, value_with, candidates, greatest_write, greatest_read, value_beside, settled_copy};

use rules::{Copy, Entry, Record, Timestamp, Waiting};

// ---- what waits in one chunk

#[tactic(auto, using(rules::proofs::Loops::take_min))]
fn in_order(q: &Waiting) -> &[Entry]
    ensures { result.now ≡ in_order q.now }
{
    let entries: &[Entry] = &q.entries; // named as a slice: so its length is known
    &entries[..rules::WAITING.min(q.count as usize)]
}

fn is_write_with(e: &Entry, t: Timestamp) -> bool
    ensures { result ≡ write_with t e.now }
{
    e.timestamp == t && !table_kinds::is_read(e.kind)
}

fn holds(entries: &[Entry], t: Timestamp) -> bool
    ensures { result ≡ list_any (write_with t) entries.now }
{
    entries.iter().any(|e| is_write_with(e, t))
}

fn holds_aborted(entries: &[Entry], t: Timestamp) -> bool
    ensures { result ≡ list_any (aborted_with t) entries.now }
{
    entries
        .iter()
        .any(|e| e.timestamp == t && table_kinds::is_aborted(e.kind))
}

// The value of the first write with t.
fn value_with(entries: &[Entry], t: Timestamp) -> u64
    ensures { result ≡ value_with t entries.now }
{
    entries
        .iter()
        .find(|e| is_write_with(e, t))
        .map_or(0, |e| table_kinds::value_of(e.kind))
}

// ---- the latest committed write

// What one copy says of t: a chunk not lost holds a write with it and no aborted one, a lost chunk's last read is below it.
fn agrees(c: &Copy, t: Timestamp) -> bool
    ensures { result ≡ agrees t c.now }
{
    if !c.member {
        return true;
    }
    if c.lost {
        return c.held.read < t;
    }
    let entries = in_order(&c.held.waiting);
    holds(entries, t) && !holds_aborted(entries, t)
}

fn agreed(copies: &[Copy], t: Timestamp) -> bool
    ensures { result ≡ all_agree copies.now t }
{
    copies.iter().all(|c| agrees(c, t))
}

// "A write timestamp above W is committed when .."
fn committed(copies: &[Copy], w: Timestamp, t: Timestamp) -> bool
    ensures { result ≡ is_committed copies.now w t }
{
    w < t && agreed(copies, t)
}

// What waits in the lowest chunk of the set that is not lost. A committed write waits in every chunk not lost, so these are all
// that can be committed.
fn candidates(copies: &[Copy]) -> &[Entry]
    ensures { result.now ≡ candidates copies.now }
{
    match copies.iter().find(|c| c.member && !c.lost) {
        Some(c) => in_order(&c.held.waiting),
        None => &[],
    }
}

// The entry's timestamp where it is a write that is committed and later than m, else m.
fn later_committed(copies: &[Copy], m: Timestamp, e: &Entry) -> Timestamp
    ensures { result ≡ with_entry copies.now m e.now }
{
    if !table_kinds::is_read(e.kind) && committed(copies, m, e.timestamp) {
        return e.timestamp;
    }
    m
}

// The latest committed of the entries, else w: from the last one, behind which few have to be looked at.
fn latest(copies: &[Copy], w: Timestamp, entries: &[Entry]) -> Timestamp
    ensures { result ≡ latest_of copies.now w entries.now }
{
    entries
        .iter()
        .rev()
        .fold(w, |m, e| later_committed(copies, m, e))
}

// ---- the settled block

// "W is the greatest last write over the set".
fn last_write(copies: &[Copy]) -> Timestamp
    ensures { result ≡ greatest_write copies.now }
{
    copies
        .iter()
        .filter(|c| c.member)
        .map(|c| c.held.write)
        .fold(Timestamp(0), Ord::max)
}

fn last_read(copies: &[Copy]) -> Timestamp
    ensures { result ≡ greatest_read copies.now }
{
    copies
        .iter()
        .filter(|c| c.member)
        .map(|c| c.held.read)
        .fold(Timestamp(0), Ord::max)
}

// "V the value beside it (lowest chunk if several)".
fn value_beside(copies: &[Copy], w: Timestamp) -> u64
    ensures { result ≡ value_beside w copies.now }
{
    copies
        .iter()
        .find(|c| c.member && c.held.write == w)
        .map_or(0, |c| c.held.value)
}

// "The latest committed one, else V and W, .. last read becomes the greatest over the set".
fn settled_record(copies: &[Copy]) -> Record
    ensures { result ≡ settled_record copies.now }
{
    let w = last_write(copies);
    let entries = candidates(copies);
    let write = latest(copies, w, entries);
    Record {
        value: if w < write {
            value_with(entries, write)
        } else {
            value_beside(copies, w)
        },
        read: last_read(copies),
        write,
        waiting: table_zero::waiting(),
    }
}

// A copy of the set becomes the settled block; what waits in another goes too.
fn settle_copy(c: &mut Copy, settled: &Record)
    ensures { c.new ≡ settled_copy (emptied settled.now) c.old }
{
    if c.member {
        c.held.value = settled.value;
        c.held.read = settled.read;
        c.held.write = settled.write;
    }
    c.held.waiting = table_zero::waiting();
}

// Each copy where it lies: `map` hands them on by value, and took several times as long.
pub fn settle(copies: [Copy; rules::CHUNKS]) -> [Copy; rules::CHUNKS]
    ensures { result ≡ settled copies }
{
    let settled = settled_record(&copies);
    let mut out = copies;
    for c in out.iter_mut() {
        settle_copy(c, &settled);
    }
    out
}
