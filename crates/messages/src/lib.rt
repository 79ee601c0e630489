// Messages: one message, and which of a station's waiting messages goes first (docs/RULES.md, section 8).
// A list of messages is a slice of records; a message's number is its place there.
// Uses nothing.
#![tactic(auto)]

ghost use Rattle.std.specs.Prelude.{◌≡◌, ◌<◌, IfSome, eqb, length, not, unwrap_or};
ghost use Rattle.messages.specs.Message.{none, unsent, deadline_of, waits, goes_before, first_message, fresh, all_sent};
ghost use Rattle.messages.specs.Lists.{Timed, Runnable};

// The slot of sending of a message that has not been sent.
// A number, not an Option: a lent record holds it, as C reads it.
pub const UNSENT: u32 = 4294967295;

// What a row holds in place of a message's number where there is none.
// A number, not an Option: it is what a row's two bytes hold, and the tally keeps the row's number.
pub const NO_MESSAGE: u32 = 65535;

#[repr(C)]
#[derive(Clone, Copy)]
pub struct Message {
    pub station: u32,
    pub arrival: u32,
    pub relative: u32,
    pub length: u32,
    pub sent: u32,
}

// A record that is all zero.
pub const BLANK: Message = Message {
    station: 0,
    arrival: 0,
    relative: 0,
    length: 0,
    sent: 0,
};

impl Message {
    // The absolute deadline.
    pub fn deadline(self) -> u32
        requires { Timed self }
        ensures { result ≡ deadline_of self }
    {
        self.arrival + self.relative
    }

    // Whether the message was sent.
    pub fn is_sent(self) -> bool
        ensures { result ≡ not (eqb self.sent unsent) }
    {
        self.sent != UNSENT
    }

    // Whether the message has arrived by the slot and is unsent.
    fn is_waiting(self, slot: u32) -> bool
        ensures { result ≡ waits slot self }
    {
        self.arrival <= slot && !self.is_sent()
    }

    // Whether the message goes before the other of the same station, which has the lower number.
    fn goes_before(self, other: Message) -> bool
        requires { Timed self × Timed other }
        ensures { result ≡ goes_before self other }
    {
        (self.deadline(), self.arrival) < (other.deadline(), other.arrival)
    }
}

// The number of the station's first message in the slot.
pub fn first_message(list: &[Message], station: u32, slot: u32) -> Option<u32>
    requires { Runnable list.now }
    ensures first { unwrap_or result none ≡ first_message list.now slot station }
    ensures numbered { IfSome result (λ i. i < length list.now) }
{
    let mut best: Option<usize> = None;
    for (i, message) in list.iter().enumerate() {
        if message.station == station && message.is_waiting(slot) {
            best = match best {
                Some(holder) if !message.goes_before(list[holder]) => best,
                _ => Some(i),
            };
        }
    }
    best.map(|i| i as u32)
}

// Whether no unsent message remains, arrived or not.
pub fn all_sent(list: &[Message]) -> bool
    ensures { result ≡ all_sent list.now }
{
    list.iter().all(|message| message.is_sent())
}

// As a run begins: every slot of sending becomes UNSENT, whatever it held.
#[tactic(auto, using(crate::proofs::ListLaws::cleared_more))]
pub fn clear_sent(list: &mut [Message])
    ensures { list.new ≡ fresh list.old }
{
    for message in list.iter_mut() {
        message.sent = UNSENT;
    }
}
