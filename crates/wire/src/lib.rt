// Wire: the run of a shop, slot by slot, on plain numbers and a lent list of messages (docs/RULES.md, section 10).
// `run_list` is what the calls over records make: it takes whatever it is given and refuses what is bad. The call over
// fields asks the same tests itself, in two parts, and makes `run_granted`.
// Uses refusals, rows, trees, messages, phases, contention, inputs and events.
#![tactic(auto)]

ghost use Rattle.std.specs.Prelude.{◌≡◌, true, length};
ghost use Rattle.refusals.specs.Numbers.{granted};
ghost use Rattle.messages.specs.Lists.{Runnable, Timed};
ghost use Rattle.inputs.specs.Inputs.{run_verdict};
ghost use Rattle.wire.specs.Run.{was_late, sent_count, late_count};
ghost use Rattle.wire.specs.Promise.{ListPromise, GrantedPromise};
ghost use Rattle.wire.specs.Work.{RunReady, Ran};

use messages::Message;
use phases::{Shop, Standing, State};
use refusals::Refusal;

// The closing figures: events, present slot, messages sent, and how many of them ended late.
#[derive(Clone, Copy, Debug, Default, PartialEq, Eq)]
pub struct Figures {
    pub events: u32,
    pub slot: u32,
    pub sent: u32,
    pub late: u32,
}

// How a run ends: every message sent, or the budget spent.
#[derive(Clone, Copy, Debug, PartialEq, Eq)]
pub enum Outcome {
    Done(Figures),
    Spent(Figures),
}

// Whether the message was sent and ended after its absolute deadline.
fn was_late(message: Message) -> bool
    requires { Timed message }
    ensures { result ≡ was_late message }
{
    let end = u64::from(message.sent) + u64::from(message.length);
    message.is_sent() && u64::from(message.deadline()) < end
}

// How many messages were sent.
fn sent_count(list: &[Message]) -> u32
    requires { Runnable list.now }
    ensures { result ≡ sent_count list.now }
{
    list.iter().filter(|message| message.is_sent()).count() as u32
}

// How many messages were sent and ended late.
fn late_count(list: &[Message]) -> u32
    requires { Runnable list.now }
    ensures { result ≡ late_count list.now }
{
    list.iter().filter(|message| was_late(**message)).count() as u32
}

// The events of a run, each written as a row: how many, and the slot after them. It stops where every message is
// sent or the budget is spent.
fn run_events(
    shop: Shop,
    table: &[u8; 1024],
    list: &mut [Message],
    log: &mut [u8],
    budget: u32,
) -> (u32, u32)
    requires { RunReady shop list.old log.old budget }
    ensures { Ran shop table.now list.old log.old budget result.0 result.1 list.new log.new }
{
    let mut state = State {
        reference: 0,
        slot: 0,
        sent: false,
        standing: Standing::Free,
    };
    for events in 0..budget {
        if messages::all_sent(list) {
            return (events, state.slot);
        }
        let tally = contention::contenders_of(shop, table, list, state);
        let step = events::one_event(shop, list, tally, state);
        rows::put_row(log, events as usize, step.row);
        state = step.state;
    }
    (budget, state.slot)
}

// A run that no test refuses: a row for each event in the log, the slot of sending of each message that was sent, and
// the closing figures.
pub fn run_granted(
    shop: Shop,
    owners: &[u32],
    list: &mut [Message],
    log: &mut [u8],
    budget: u32,
) -> Outcome
    requires { run_verdict shop owners.now true list.old budget (length log.old) ≡ granted }
    ensures { GrantedPromise shop owners.now list.old log.old budget result list.new log.new }
{
    let table = inputs::owner_table(owners);
    messages::clear_sent(list);
    let (events, slot) = run_events(shop, &table, list, log, budget);
    let figures = Figures {
        events,
        slot,
        sent: sent_count(list),
        late: late_count(list),
    };
    let done = messages::all_sent(list);
    if done {
        Outcome::Done(figures)
    } else {
        Outcome::Spent(figures)
    }
}

// A run of the shop: a row for each event in the log, the slot of sending of each message that was sent, and the
// closing figures; or a refusal, and list and log as they came.
// `whole` is whether the list of messages came whole: one that did not is refused in its turn, behind other refusals.
pub fn run_list(
    shop: Shop,
    owners: &[u32],
    whole: bool,
    list: &mut [Message],
    log: &mut [u8],
    budget: u32,
) -> Result<Outcome, Refusal>
    ensures { ListPromise shop owners.now whole list.old log.old budget result list.new log.new }
{
    inputs::run_verdict(shop, owners, whole, list, budget, log.len())?;
    Ok(run_granted(shop, owners, list, log, budget))
}
