// One chunk by itself: it fails, recovers, takes and gives its lease. Each event gives the chunk after it, or why it is refused.
#![tactic(auto, unfolding(rules::specs::Codes::code_of))]

ghost use Rattle.std.specs.Prelude.{◌≡◌};
ghost use Rattle.rules.specs.Chunks.{fail_refusals, failed, recover_refusals, recovered, take_lease_refusals, lease_taken, give_lease_refusals, lease_given};
ghost use Rattle.rules.specs.Codes.{ruled};

use rules::{Chunk, Refused, State};

// "from normal or nolease. .. its reconciliation set go, lost is set; .. epoch persist". (The waiting entries are the records'.)
pub fn fail(c: Chunk) -> Result<Chunk, Refused>
    ensures { result ≡ ruled (fail_refusals c.state) (failed c) }
{
    if c.state == State::Failed {
        return Err(Refused::NotInState);
    }
    Ok(Chunk {
        state: State::Failed,
        lost: true,
        reconcile: [false; rules::BLOCKS],
        ..c
    })
}

// "failed to nolease": what it lost stays lost.
pub fn recover(c: Chunk) -> Result<Chunk, Refused>
    ensures { result ≡ ruled (recover_refusals c.state) (recovered c) }
{
    if c.state != State::Failed {
        return Err(Refused::NotInState);
    }
    Ok(Chunk {
        state: State::Nolease,
        ..c
    })
}

// "normal to nolease".
pub fn take_lease(c: Chunk) -> Result<Chunk, Refused>
    ensures { result ≡ ruled (take_lease_refusals c.state) (lease_taken c) }
{
    if c.state != State::Normal {
        return Err(Refused::NotInState);
    }
    Ok(Chunk {
        state: State::Nolease,
        ..c
    })
}

// "nolease to normal, if not lost. Else 2".
pub fn give_lease(c: Chunk) -> Result<Chunk, Refused>
    ensures { result ≡ ruled (give_lease_refusals c.state c.lost) (lease_given c) }
{
    match c.state {
        State::Nolease if !c.lost => Ok(Chunk {
            state: State::Normal,
            ..c
        }),
        _ => Err(Refused::NotInState),
    }
}
