// The access engine: creation and the single event, on a lent table or one by value. It works where the table lies; what it calls is
// lent the table, or handed parts.
#![tactic(auto)]

ghost use Rattle.std.specs.Prelude.{◌≡◌};
ghost use Rattle.rules.specs.Codes.{reply_by};
ghost use Rattle.rules.specs.Creation.{created};
ghost use Rattle.rules.specs.Events.{step, reply_of};

use event_operands::Step;
use rules::{
    Answer, Chunk, Created, Creation, Epoch, Event, Host, Message, Outcome, Record, Refused, Reply,
    Table,
};

// "Any other creation is refused with code 1 and gives no store".
#[tactic(auto, unfolding(rules::specs::Creation::created, rules::specs::Codes::code_of))]
pub fn create(k: Creation) -> Created
    ensures { result ≡ created k }
{
    match table_creation::create(k) {
        Ok(table) => Created {
            table,
            code: rules::DONE,
        },
        Err(why) => Created {
            table: table_creation::no_store(),
            code: u64::from(why),
        },
    }
}

// ---- the event, where the table lies

// "Code 8 is looked for first, then ranges (1), then the order in each event". Failure and epoch change touch more than one record.
fn try_step(t: &mut Table, e: Event) -> Result<Outcome, Refused>
    ensures { (reply_by result ≡ reply_of (step t.old e)) × (t.new ≡ (step t.old e).table) }
{
    if !table_sound::sound_in(t) {
        return Err(Refused::NotFormed);
    }
    if !event_operands::in_range(t.creation, e) {
        return Err(Refused::OutOfRange);
    }
    match Step::try_from(e.kind)? {
        Step::Fail => {
            chunk_fault::fail_in(t, e.a)?;
            Ok(Outcome::None)
        }
        Step::EpochChange => {
            let next = Epoch(t.epoch.0 + 1);
            epoch_lent::change_in(t, next)?;
            Ok(Outcome::None)
        }
        _ => {
            // That act_in is the rules' step asks for the arrays' lengths: a proof knows them where they are named as slices (tried without).
            let _hosts: &[Host] = &t.hosts;
            let _chunks: &[Chunk] = &t.chunks;
            let _records: &[Record] = &t.records;
            let _places: &[Option<Message>] = &t.places;
            event_lent::act_in(t, e)
        }
    }
}

// One event, with any numbers, on any table. A refused one leaves the table as it is.
pub fn step_in(t: &mut Table, e: Event) -> Reply
    ensures { (result ≡ reply_of (step t.old e)) × (t.new ≡ (step t.old e).table) }
{
    Reply::from(try_step(t, e))
}

// ---- the event, by value

// The same: its own table is lent.
pub fn step(mut t: Table, e: Event) -> Answer
    ensures { result ≡ step t e }
{
    let Reply { code, outcome } = step_in(&mut t, e);
    Answer {
        table: t,
        code,
        outcome,
    }
}
