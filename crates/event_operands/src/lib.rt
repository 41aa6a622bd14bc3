// An event's operands: are they in their ranges, how many has it, and which place, host, chunk and block is it about?
#![tactic(auto)]

ghost use Rattle.std.specs.Prelude.{◌≡◌, [], ◌∷◌, length};
ghost use Rattle.rules.specs.Events.{kind_of, ranges};
ghost use Rattle.rules.specs.Operands.{in_range, is_own, own_of};
ghost use Rattle.event_operands.specs.Steps.{number_of_step, step_named};
ghost use Rattle.event_operands.specs.Address.{operands_of, has_a, the, address_of, place_at, host_at, chunk_at, block_at};

use rules::{Creation, Event, Header, Host, Message, Operand, Operands, Refused, Timestamp};

// The step that an event's kind names, with document 01's number.
#[derive(Clone, Copy, PartialEq, Eq)]
pub enum Step {
    Read = 1,
    Write,
    Start,
    Deliver,
    Drop,
    Finish,
    Timeout,
    Refresh,
    Run,
    Stop,
    Fail,
    Recover,
    TakeLease,
    GiveLease,
    EpochChange,
    Overdue,
}

// "unknown kind"
impl TryFrom<u64> for Step {
    type Error = Refused;

    ghost try_from_gives = { λ kind step. step ≡ step_named kind };

    #[tactic(auto, unfolding(rules::specs::Words::place))]
    fn try_from(kind: u64) -> Result<Step, Refused> {
        match kind {
            1 => Ok(Step::Read),
            2 => Ok(Step::Write),
            3 => Ok(Step::Start),
            4 => Ok(Step::Deliver),
            5 => Ok(Step::Drop),
            6 => Ok(Step::Finish),
            7 => Ok(Step::Timeout),
            8 => Ok(Step::Refresh),
            9 => Ok(Step::Run),
            10 => Ok(Step::Stop),
            11 => Ok(Step::Fail),
            12 => Ok(Step::Recover),
            13 => Ok(Step::TakeLease),
            14 => Ok(Step::GiveLease),
            15 => Ok(Step::EpochChange),
            16 => Ok(Step::Overdue),
            _ => Err(Refused::OutOfRange),
        }
    }
}

impl Step {
    #[tactic(auto, unfolding(rules::specs::Events::kind_of, rules::specs::Words::place))]
    fn operands(self) -> Operands
        ensures { result ≡ (kind_of (number_of_step self)).operands }
    {
        match self {
            Step::Read => Operands(Operand::Host, Operand::Block, Operand::Unused),
            Step::Write => Operands(Operand::Host, Operand::Block, Operand::Value),
            Step::Start => Operands(Operand::Host, Operand::Clock, Operand::Chunk),
            Step::Deliver | Step::Drop => {
                Operands(Operand::Place, Operand::Unused, Operand::Unused)
            }
            Step::Finish | Step::Timeout | Step::Refresh | Step::Stop => {
                Operands(Operand::Host, Operand::Unused, Operand::Unused)
            }
            Step::Run => Operands(Operand::Chunk, Operand::Block, Operand::Unused),
            Step::Fail | Step::Recover | Step::TakeLease | Step::GiveLease => {
                Operands(Operand::Chunk, Operand::Unused, Operand::Unused)
            }
            Step::EpochChange => Operands(Operand::Unused, Operand::Unused, Operand::Unused),
            Step::Overdue => Operands(Operand::Chunk, Operand::Block, Operand::Now),
        }
    }
}

// What the operands of a kind are; no number is in the range of an unknown one's.
fn operands_of(kind: u64) -> Operands
    ensures { result ≡ (kind_of kind).operands }
{
    match Step::try_from(kind) {
        Ok(step) => step.operands(),
        Err(_) => Operands(Operand::Unknown, Operand::Unknown, Operand::Unknown),
    }
}

// Each operand of an event with its number.
#[tactic(auto, unfolding(crate::specs::Address::operands_of))]
fn operands_in(e: Event) -> [(Operand, u64); 3]
    ensures { result ≡ operands_of e }
{
    let Operands(a, b, c) = operands_of(e.kind);
    [(a, e.a), (b, e.b), (c, e.c)]
}

// ---- ranges

fn fits(k: Creation, o: Operand, n: u64) -> bool
    ensures { result ≡ in_range k o n }
{
    match o {
        Operand::Unknown => false,
        Operand::Unused => n == 0,
        Operand::Host => n < k.hosts,
        Operand::Chunk => n < k.chunks,
        Operand::Block => n < k.blocks,
        Operand::Place => n < rules::PLACES as u64,
        Operand::Clock => (1..=rules::GREATEST_CLOCK).contains(&n),
        Operand::Now => n <= rules::GREATEST_CLOCK,
        Operand::Value => true,
    }
}

// "number outside its range, unknown kind, unused operand not 0".
pub fn in_range(k: Creation, e: Event) -> bool
    ensures { result ≡ ranges k e }
{
    operands_in(e).iter().all(|&(o, n)| fits(k, o, n))
}

// ---- how many operands a line has

fn is_own(o: Operand) -> bool
    ensures { result ≡ is_own o }
{
    !matches!(o, Operand::Unknown | Operand::Unused)
}

// "its number and then only its own operands".
pub fn count(kind: u64) -> u64
    ensures { result ≡ length (own_of (kind_of kind).operands) }
{
    let Operands(a, b, c) = operands_of(kind);
    [a, b, c].iter().filter(|&&o| is_own(o)).count() as u64
}

// ---- the operand of a sort

fn has_a(e: Event, sort: Operand) -> bool
    ensures { result ≡ has_a e sort }
{
    operands_in(e).iter().any(|&(o, _)| o == sort)
}

// 0 where the event has none.
fn the(sort: Operand, e: Event) -> u64
    ensures { result ≡ the sort e }
{
    operands_in(e)
        .iter()
        .find(|&&(o, _)| o == sort)
        .map_or(0, |&(_, n)| n)
}

// ---- whom an event is about: an event of a place is about whom its message names

// An empty place names nobody, that is zeros.
fn address(s: Option<Message>) -> Header
    ensures { result ≡ address_of s }
{
    let nobody = Header {
        host: 0,
        chunk: 0,
        block: 0,
        timestamp: Timestamp(0),
    };
    s.map_or(nobody, network_messages::header_of)
}

pub fn place_at(e: Event) -> u64
    ensures { result ≡ place_at e }
{
    the(Operand::Place, e)
}

// (Three functions for three promises: one would take the field as a closure.)
pub fn host_at(e: Event, s: Option<Message>) -> u64
    ensures { result ≡ host_at e s }
{
    if has_a(e, Operand::Place) {
        address(s).host
    } else {
        the(Operand::Host, e)
    }
}

pub fn chunk_at(e: Event, s: Option<Message>) -> u64
    ensures { result ≡ chunk_at e s }
{
    if has_a(e, Operand::Place) {
        address(s).chunk
    } else {
        the(Operand::Chunk, e)
    }
}

// An event that names no block is about the block of the host's front operation.
pub fn block_at(e: Event, s: Option<Message>, h: Host) -> u64
    ensures { result ≡ block_at e s h }
{
    if has_a(e, Operand::Place) {
        address(s).block
    } else if has_a(e, Operand::Block) {
        the(Operand::Block, e)
    } else {
        host_operations::front(h).block
    }
}
