// The network's places of a lent table, read and written where they lie.
#![tactic(auto)]

ghost use Rattle.std.specs.Prelude.{◌≡◌, get_or, position};
ghost use Rattle.rules.specs.Network.{is_free, free_places, removed, replied};
ghost use Rattle.rules.specs.Tables.{with_places};
ghost use Rattle.rules.specs.Zero.{zero_place};

use rules::{Message, Table};

// Beyond the last place there is none: empty.
pub fn place_in(t: &Table, i: u64) -> Option<Message>
    ensures { result ≡ get_or t.now.places i zero_place }
{
    arrays::at(&t.places, i, None)
}

// "The message is removed"; beyond the last place there is none.
pub fn remove_in(t: &mut Table, i: u64)
    ensures { t.new ≡ with_places t.old (removed t.old.places i) }
{
    arrays::put(&mut t.places, i, None);
}

// How much room there is for a step's messages.
pub fn free_in(t: &Table) -> u64
    ensures { result ≡ free_places t.now.places }
{
    t.places.iter().filter(|p| p.is_none()).count() as u64
}

// The lowest free place, if there is one.
fn lowest_in(t: &Table) -> Option<usize>
    ensures { result ≡ position is_free t.now.places }
{
    t.places.iter().position(Option::is_none)
}

// "Its reply, if any, takes the lowest free place"; a full network stays as it is.
#[tactic(auto, using(table_sets::proofs::Chains::position_or), unfolding(rules::specs::Network::replied, rules::specs::Network::sent))]
pub fn send_in(t: &mut Table, s: Option<Message>)
    ensures { t.new ≡ with_places t.old (replied t.old.places s) }
{
    if s.is_some() {
        let at = lowest_in(t).unwrap_or(rules::PLACES);
        arrays::put(&mut t.places, at as u64, s);
    }
}
