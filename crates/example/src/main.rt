// The engine called from Rattle: host 0 writes 77 to a block that two chunks mirror, and reads it back from chunk 1.
// It writes a line an event.
#![tactic(auto)]

use rules::{Creation, Event, Outcome, Reply, Set};
use std::io;

const EVENTS: usize = 18;

// One host, two chunks, one block that both hold; the age limit is 100.
fn mirrored() -> Creation {
    let none = Set {
        chunks: [false; rules::CHUNKS],
    };
    let mut both = none;
    both.chunks[..2].fill(true);
    let mut sets = [none; rules::BLOCKS];
    sets[0] = both;
    Creation {
        hosts: 1,
        chunks: 2,
        blocks: 1,
        age: 100,
        sets,
    }
}

fn event(kind: u64, a: u64, b: u64, c: u64) -> Event {
    Event { kind, a, b, c }
}

fn session() -> [Event; EVENTS] {
    [
        event(14, 0, 0, 0), // give lease: chunk 0
        event(14, 1, 0, 0), // give lease: chunk 1
        event(8, 0, 0, 0), // refresh: host 0 learns the epoch
        event(2, 0, 0, 77), // write: host 0, block 0, value 77
        event(3, 0, 5, 0), // start: host 0 draws clock 5 and sends a prewrite to both chunks
        event(4, 0, 0, 0), // deliver: chunk 0 answers
        event(4, 1, 0, 0), // deliver: chunk 1 answers
        event(4, 0, 0, 0), // deliver: host 0 hears chunk 0
        event(4, 1, 0, 0), // deliver: host 0 hears chunk 1
        event(6, 0, 0, 0), // finish: write done; commits go to both chunks
        event(4, 1, 0, 0), // deliver: chunk 1 has the commit
        event(9, 1, 0, 0), // run: chunk 1 sets the value
        event(1, 0, 0, 0), // read: host 0, block 0
        event(3, 0, 6, 1), // start: host 0 draws clock 6 and asks chunk 1
        event(4, 1, 0, 0), // deliver: the read waits
        event(9, 1, 0, 0), // run: chunk 1 answers it
        event(4, 1, 0, 0), // deliver: host 0 hears it
        event(6, 0, 0, 0), // finish: read done
    ]
}

// The code, and what has come of an operation.
fn say(rt: &impl Print, code: u64, outcome: Outcome) -> io::Result<()> {
    match outcome {
        Outcome::None => println!(rt; "{code}"),
        Outcome::ReadDone { value, .. } => println!(rt; "{code} read done {value}"),
        Outcome::WriteDone { .. } => println!(rt; "{code} write done"),
        Outcome::ReadFailed { .. } => println!(rt; "{code} read failed"),
        Outcome::WriteFailed { .. } => println!(rt; "{code} write failed"),
    }
}

fn main(rt: HostRuntime) -> io::Result<()> {
    let made = engine::create(mirrored());
    if made.code != rules::DONE {
        return Ok(());
    }
    let mut table = made.table;
    for e in session() {
        let Reply { code, outcome } = engine::step_in(&mut table, e);
        say(&rt, code, outcome)?;
    }
    Ok(())
}
