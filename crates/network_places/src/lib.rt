// The network, of an event: why an empty place is refused, and its new messages.
#![tactic(auto)]

ghost use Rattle.std.specs.Prelude.{◌≡◌};
ghost use Rattle.rules.specs.Codes.{ruled};
ghost use Rattle.rules.specs.Network.{place_refusals};
ghost use Rattle.network_places.specs.Sending.{only_reply};

use rules::{Message, Refused};

// "4 deliver (place), 5 drop (place). Empty place: 2".
#[tactic(auto, unfolding(rules::specs::Codes::code_of))]
pub fn place_code(s: Option<Message>) -> Result<(), Refused>
    ensures { result ≡ ruled (place_refusals s) tt }
{
    if s.is_none() {
        return Err(Refused::NotInState);
    }
    Ok(())
}

// The new messages of an event that sends a reply at most: the reply comes first, and is the only one.
pub fn only(s: Option<Message>) -> [Option<Message>; rules::CHUNKS]
    ensures { result ≡ only_reply s }
{
    let mut out = [None; rules::CHUNKS];
    out[0] = s;
    out
}
