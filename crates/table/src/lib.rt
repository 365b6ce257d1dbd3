// The table of messages: who may send which, in which phase, and which phase and n follow.
#![tactic(auto)]

ghost use Rattle.std.specs.Prelude.{◌≡◌, Ok, Err, cond};
ghost use Rattle.table.specs.Table.{begun as Table·begun, open_row, ready_row, data_row, noop_row, close_row, row_of, not_allowed, above_offer, other as Table·other, at_row, moved as Table·moved};

use control::MessageType;
use endpoint::Endpoint;

// The phase and the n that follow a message.
#[derive(Clone, Copy, Debug, PartialEq, Eq)]
pub struct Step {
    pub phase: u8,
    pub n: u16,
}

// Why the table has no step for a message. One that is heard is refused by another number than one that is sent, so a refusal has none of its own.
#[derive(Clone, Copy, Debug, PartialEq, Eq)]
pub enum Refusal {
    // 17 for one that is received, 30 for an own one.
    NotAllowed,
    // 23, or 31.
    AboveOffer,
}

fn demand(test: bool, refusal: Refusal) -> Result<(), Refusal>
    ensures { result ≡ cond test (Ok tt) (Err refusal) }
{
    if test {
        return Ok(());
    }
    Err(refusal)
}

// Idle with a count of 0, else this phase with the count.
#[tactic(auto, unfolding(crate::specs::Table::begun))]
fn begun(phase: u8, count: u16) -> Step
    ensures { Ok result ≡ Table·begun phase count }
{
    if count == 0 {
        return Step { phase: 2, n: 0 };
    }
    Step { phase, n: count }
}

#[tactic(auto, unfolding(crate::specs::Table::open_row))]
fn open_row(role: u8, phase: u8) -> Result<Step, Refusal>
    ensures { result ≡ open_row role phase }
{
    demand((role == 1) & (phase == 0), Refusal::NotAllowed)?;
    Ok(Step { phase: 1, n: 0 })
}

#[tactic(auto, unfolding(crate::specs::Table::ready_row))]
fn ready_row(role: u8, phase: u8, n: u16, count: u16) -> Result<Step, Refusal>
    ensures { result ≡ ready_row role phase n count }
{
    if role == 1 {
        demand(phase == 3, Refusal::NotAllowed)?;
        demand(count <= n, Refusal::AboveOffer)?;
        return Ok(begun(4, count));
    }
    demand((phase == 1) | (phase == 2), Refusal::NotAllowed)?;
    Ok(begun(3, count))
}

#[tactic(auto, unfolding(crate::specs::Table::data_row))]
fn data_row(flow: u8, phase: u8, n: u16) -> Result<Step, Refusal>
    ensures { result ≡ data_row flow phase n }
{
    demand((flow == 1) & (phase == 4), Refusal::NotAllowed)?;
    Ok(begun(4, n.saturating_sub(1)))
}

#[tactic(auto, unfolding(crate::specs::Table::noop_row))]
fn noop_row(phase: u8, n: u16) -> Result<Step, Refusal>
    ensures { result ≡ noop_row phase n }
{
    demand((2 <= phase) & (phase <= 4), Refusal::NotAllowed)?;
    Ok(Step { phase, n })
}

#[tactic(auto, unfolding(crate::specs::Table::close_row))]
fn close_row(phase: u8) -> Result<Step, Refusal>
    ensures { result ≡ close_row phase }
{
    demand((1 <= phase) & (phase <= 4), Refusal::NotAllowed)?;
    Ok(Step { phase: 5, n: 0 })
}

// The row for a message that an end of this role and flow sends in this phase with this n; only READY looks at the type-data. They stay
// numbers apart, as a hearer asks with the other role and flow, and a record holds what any block says.
pub fn row_of(
    role: u8,
    flow: u8,
    phase: u8,
    n: u16,
    message: MessageType,
    type_data: u16,
) -> Result<Step, Refusal>
    ensures { result ≡ row_of role flow phase n message type_data }
{
    match message {
        MessageType::Open => open_row(role, phase),
        MessageType::Ready => ready_row(role, phase, n, type_data),
        MessageType::Noop => noop_row(phase, n),
        MessageType::Data => data_row(flow, phase, n),
        MessageType::Close => close_row(phase),
    }
}

pub fn not_allowed(row: Result<Step, Refusal>) -> bool
    ensures { result ≡ not_allowed row }
{
    matches!(row, Err(Refusal::NotAllowed))
}

pub fn above_offer(row: Result<Step, Refusal>) -> bool
    ensures { result ≡ above_offer row }
{
    matches!(row, Err(Refusal::AboveOffer))
}

// The other role, or the other flow.
pub fn other(number: u8) -> u8
    ensures { result ≡ Table·other number }
{
    if number == 1 {
        return 2;
    }
    1
}

#[tactic(auto, unfolding(crate::specs::Table::at_row))]
fn at_row(e: Endpoint, step: Step) -> Endpoint
    ensures { result ≡ at_row e step.phase step.n }
{
    if step.phase == 5 {
        return e.closed();
    }
    e.at_phase(step.phase, step.n)
}

// The endpoint after a message of this row.
pub fn moved(e: Endpoint, row: Result<Step, Refusal>) -> Endpoint
    ensures { result ≡ Table·moved e row }
{
    match row {
        Ok(step) => at_row(e, step),
        Err(_) => e,
    }
}
