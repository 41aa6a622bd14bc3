// A host's clock keeper, lent for each draw: "drawing updates it or refuses".
#![tactic(auto, unfolding(rules::specs::Codes::code_of))]

ghost use Rattle.std.specs.Prelude.{◌≡◌};
ghost use Rattle.host_keeper.specs.Keeper.{handed, kept, drawn};

use rules::{Refused, Timestamp};

// "each host's clock keeper hands out a number and remembers it".
#[derive(Clone, Copy)]
pub struct Keeper {
    pub host: u64,
    pub last: u64,
}

// The keeper after a draw by value, and what was handed out.
#[derive(Clone, Copy)]
pub struct Drawn {
    pub keeper: Keeper,
    pub timestamp: Timestamp,
}

// "lent by `&mut`; drawing updates it or refuses": a number too large for a timestamp is outside its range (1), then "clock not
// above the host's last drawn" (3). A refused draw leaves the keeper as it was; a granted one hands out "clock x 8 + host number".
pub fn draw(k: &mut Keeper, clock: u64) -> Result<Timestamp, Refused>
    ensures { (result ≡ handed k.old clock) × (k.new ≡ kept k.old clock) }
{
    if k.host >= rules::HOSTS as u64 || clock > rules::GREATEST_CLOCK {
        return Err(Refused::OutOfRange);
    }
    if clock <= k.last {
        return Err(Refused::ClockNotAbove);
    }
    k.last = clock;
    Ok(Timestamp(clock * rules::CLOCK_FACTOR + k.host))
}

// A draw for a caller that holds the keeper by value: it lends its own.
pub fn draw_from(mut keeper: Keeper, clock: u64) -> Result<Drawn, Refused>
    ensures { result ≡ drawn keeper clock }
{
    let timestamp = draw(&mut keeper, clock)?;
    Ok(Drawn { keeper, timestamp })
}
