// Events: what one slot of the wire comes to (docs/RULES.md, section 10): the channel's state by the number of
// contenders, the row, the mark on a message that is sent, and the state after it. A run writes the row.
// Uses rows, messages, phases and contention.
#![tactic(auto)]

ghost use Rattle.std.specs.Prelude.{◌≡◌, ◌≤◌};
ghost use Rattle.events.specs.Event.{channel_of, used_by, message_by, marked, row_of};
ghost use Rattle.events.specs.Work.{SendReady, RowReady, StepReady, Stepped};

use contention::Tally;
use messages::Message;
use phases::{Shop, Standing, State};
use rows::{Channel, Phase, Row};

// An event: the state after it, and its row.
#[derive(Clone, Copy)]
pub struct Step {
    pub state: State,
    pub row: Row,
}

// What the wire shows, by the number of contenders.
fn channel_of(count: u32) -> Channel
    requires { count ≤ 32 }
    ensures { result ≡ channel_of count }
{
    match count {
        0 => Channel::Silence,
        1 => Channel::Busy,
        2..=32 => Channel::Collision,
        // A match must name every number; 2..=32 is the range that is asked for.
        _ => Channel::Collision,
    }
}

// The message of the event's row and the slots that the event lasts. A message that is sent gets its slot and lasts its
// length; silence and collision last one slot.
fn send(list: &mut [Message], channel: Channel, i: u32, slot: u32) -> (u32, u32)
    requires { SendReady channel list.old i }
    ensures message { result.0 ≡ message_by channel i }
    ensures used { result.1 ≡ used_by channel list.old i }
    ensures marks { list.new ≡ marked channel list.old i slot }
{
    match channel {
        Channel::Busy => {
            let message = &mut list[i as usize];
            message.sent = slot;
            (i, message.length)
        }
        Channel::Silence | Channel::Collision => (messages::NO_MESSAGE, 1),
    }
}

// The event's row.
fn row_of(state: State, channel: Channel, message: u32, used: u32) -> Row
    requires { RowReady state message used }
    ensures { result ≡ row_of state channel message used }
{
    let (phase, first, width) = match state.standing {
        Standing::Free => (Phase::Free, 0, 0),
        Standing::Time { first, width } => (Phase::Time, first, width),
        Standing::Static { first, width, .. } => (Phase::Static, first, width),
    };
    Row {
        slot: state.slot,
        phase,
        state: channel,
        first: first as u16,
        width: width as u16,
        message: message as u16,
        used: used as u16,
    }
}

// One event, by its contenders.
pub fn one_event(shop: Shop, list: &mut [Message], tally: Tally, state: State) -> Step
    requires { StepReady shop list.old tally state }
    ensures { Stepped shop list.old tally state result list.new }
{
    let channel = channel_of(tally.count);
    let (message, used) = send(list, channel, tally.message, state.slot);
    let row = row_of(state, channel, message, used);
    let state = phases::after_event(shop, state, state.slot + used, channel);
    Step { state, row }
}
