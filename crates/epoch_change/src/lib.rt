// Event 15, the epoch change, in its parts: why it is refused, every chunk renewed.
#![tactic(auto)]

ghost use Rattle.std.specs.Prelude.{◌≡◌, ◌&&◌, get_or};
ghost use Rattle.rules.specs.Codes.{ruled};
ghost use Rattle.rules.specs.Events.{renewed, all_lost, epoch_refusals};
ghost use Rattle.rules.specs.Kinds.{is_failed};
ghost use Rattle.rules.specs.Limits.{chunk_limit, block_limit};
ghost use Rattle.rules.specs.Tables.{is_block, set_of};
ghost use Rattle.rules.specs.Words.{some, each, numbers};
ghost use Rattle.rules.specs.Zero.{no_chunk};

use rules::{Chunk, Creation, Epoch, Refused, Set, State};

// "no chunk failed"; an unused place is normal.
fn any_failed(chunks: &[Chunk; rules::CHUNKS]) -> bool
    ensures { result ≡ some (λ c. is_failed (get_or chunks.now c no_chunk).state) (numbers chunk_limit) }
{
    chunks.iter().any(|c| c.state == State::Failed)
}

// "every chunk of its set is lost".
fn all_lost(set: &Set, chunks: &[Chunk; rules::CHUNKS]) -> bool
    ensures { result ≡ all_lost set.now chunks.now }
{
    set.chunks
        .iter()
        .zip(chunks)
        .all(|(member, chunk)| !*member || chunk.lost)
}

// "for some block every chunk of its set is lost"; a block that the store lacks has no set to lose.
fn any_all_lost(k: &Creation, chunks: &[Chunk; rules::CHUNKS]) -> bool
    ensures { result ≡ some (λ b. is_block k.now b && all_lost (set_of k.now b) chunks.now) (numbers block_limit) }
{
    k.sets
        .iter()
        .take(k.blocks as usize)
        .any(|set| all_lost(set, chunks))
}

// "15 epoch change: no chunk failed (2), then 7, then 6".
#[tactic(auto, unfolding(rules::specs::Codes::code_of))]
pub fn change_code(k: Creation, epoch: Epoch, chunks: [Chunk; rules::CHUNKS]) -> Result<(), Refused>
    ensures { result ≡ ruled (epoch_refusals k epoch chunks) tt }
{
    if any_failed(&chunks) {
        return Err(Refused::NotInState);
    }
    if epoch == Epoch(rules::GREATEST_CLOCK) {
        return Err(Refused::LastEpoch);
    }
    if any_all_lost(&k, &chunks) {
        return Err(Refused::AllLost);
    }
    Ok(())
}

// "reconciliation sets and lost marks cleared, the epoch grows by one in every chunk, and every chunk is normal". An unused place
// stays.
pub fn renew(k: Creation, next: Epoch, mut chunks: [Chunk; rules::CHUNKS]) -> [Chunk; rules::CHUNKS]
    ensures { result ≡ each (renewed k next chunks) (numbers chunk_limit) }
{
    let used = rules::CHUNKS.min(k.chunks as usize);
    chunks[..used].fill(Chunk {
        state: State::Normal,
        lost: false,
        epoch: next,
        reconcile: [false; rules::BLOCKS],
    });
    chunks
}
