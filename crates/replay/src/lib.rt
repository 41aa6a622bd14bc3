// Events replayed through the engine, for programs in other languages that time it (bench/): exported as C functions, a slice as
// a pointer and then a length. Each event is a step, on the table by value or where it lies; what comes back stands for every answer.
#![tactic(auto)]

ghost use Rattle.std.specs.Prelude.{◌≡◌, ◌/◌, length};
ghost use Rattle.replay.specs.Replay.{Steps, mixed, mixed_with, replayed, store_of, sum_after, table_bytes};

use rules::{Answer, Event, Reply, Table};

// Two to the power 56.
const TOP: u64 = 1 << 56;

const TABLE_BYTES: u64 = 51688;

// One number more in the checksum: a few machine instructions, and no sum overflows.
#[tactic(auto, unfolding(crate::specs::Replay::mixed))]
fn mix(sum: u64, x: u64) -> u64
    ensures { result ≡ mixed sum x }
{
    (sum / TOP + sum % TOP * 31).wrapping_add(x)
}

// "code, outcome, host, block, value"
#[tactic(auto, unfolding(crate::specs::Replay::mixed_with))]
fn mix_reply(sum: u64, r: Reply) -> u64
    ensures { result ≡ mixed_with sum r.code r.outcome }
{
    let [kind, host, block, value] = text_lines::numbers_of(r.outcome);
    mix(mix(mix(mix(mix(sum, r.code), kind), host), block), value)
}

// The events one after another, each on the table that the one before it left. An event is four numbers: kind, a, b, c.
#[tactic(auto, unfolding(crate::specs::Replay::table_after, crate::specs::Replay::sum_after))]
fn run<F: FnMut(&mut Table, Event) -> Reply>(mut table: Table, events: &[u64], mut act: F) -> u64
    requires callable { F.IsAlwaysCallable act }
    requires steps { Steps F.FnMut }
    ensures { result ≡ sum_after table events.now (length events.now / 4) }
{
    let mut sum = 0;
    let (events, _) = events.as_chunks::<4>();
    for &[kind, a, b, c] in events {
        sum = mix_reply(sum, act(&mut table, Event { kind, a, b, c }));
    }
    sum
}

// The store that a session's first two lines name; a table of zeros where they name none.
#[tactic(auto, unfolding(crate::specs::Replay::store_of))]
fn store_of(first: &[u8], second: &[u8]) -> Table
    ensures { result ≡ store_of first.now second.now }
{
    match text_meanings::creation_of(text_numbers::parse(first), text_numbers::parse(second)) {
        Some(k) => engine::create(k).table,
        None => table_creation::no_store(),
    }
}

// The events on the store that a session's first two lines name.
#[tactic(auto, unfolding(crate::specs::Replay::replayed))]
#[unsafe(no_mangle)]
pub extern "C" fn kerzubian_replay(first: &[u8], second: &[u8], events: &[u64]) -> u64
    ensures { result ≡ replayed first.now second.now events.now }
{
    run(store_of(first, second), events, |t, e| {
        let Answer {
            table,
            code,
            outcome,
        } = engine::step(*t, e);
        *t = table;
        Reply { code, outcome }
    })
}

// The same, each event where the table lies.
#[tactic(auto, unfolding(crate::specs::Replay::replayed))]
#[unsafe(no_mangle)]
pub extern "C" fn kerzubian_replay_in(first: &[u8], second: &[u8], events: &[u64]) -> u64
    ensures { result ≡ replayed first.now second.now events.now }
{
    run(store_of(first, second), events, engine::step_in)
}

// How many bytes a table takes, for those who time a copy of it.
#[unsafe(no_mangle)]
pub extern "C" fn kerzubian_table_bytes() -> u64
    ensures { result ≡ table_bytes }
{
    TABLE_BYTES
}
