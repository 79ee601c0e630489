// Contention: which stations send in a slot (docs/RULES.md, section 10). A station contends with its first message,
// taken afresh in each slot, where the phase lets it enter.
// Uses classes, messages and phases.
#![tactic(auto)]

ghost use Rattle.std.specs.Prelude.{◌≡◌, ◌+◌, ◌≤◌, ◌==◌, option_to_list};
ghost use Rattle.std.specs.List.{list_any};
ghost use Rattle.messages.specs.Message.{first_message};
ghost use Rattle.messages.specs.Lists.{Runnable};
ghost use Rattle.contention.specs.Contenders.{owns, enters, entry, contenders, tally_of};
ghost use Rattle.contention.specs.Work.{Open};

use messages::Message;
use phases::{Shop, Standing, State};

// How many stations contend, and the message of the last of them.
// A number, not an Option: where nobody contends, the message is what a row holds.
#[derive(Clone, Copy)]
pub struct Tally {
    pub count: u32,
    pub message: u32,
}

// Whether the station is among the owners.
fn is_among(owners: &[u8], station: u32) -> bool
    ensures { result ≡ list_any (λ owner. owner == station) owners.now }
{
    owners.iter().any(|owner| u32::from(*owner) == station)
}

// Whether the station owns one of the width indices from first on.
#[tactic(auto, using(crate::proofs::OwnLaws::owns_part))]
fn owns_part(table: &[u8; 1024], station: u32, first: u32, width: u32) -> bool
    requires { first + width ≤ 1024 }
    ensures { result ≡ owns table.now station first width }
{
    is_among(&table[first as usize..(first + width) as usize], station)
}

// Whether the station, whose first message has the absolute deadline, may enter.
fn may_enter(shop: Shop, table: &[u8; 1024], state: State, station: u32, deadline: u32) -> bool
    requires { Open shop table.now state }
    ensures { result ≡ enters shop table.now state station deadline }
{
    let is_below = |end| classes::is_below(deadline, shop.offset, state.reference, shop.width, end);
    match state.standing {
        Standing::Free => true,
        Standing::Time { first, width } => is_below(first + width),
        Standing::Static { first, width, leaf } => {
            owns_part(table, station, first, width) && is_below(leaf + 1)
        }
    }
}

// The station's first message, where it may enter.
#[tactic(auto, unfolding(crate::specs::Contenders::entry))]
fn entry_of(
    shop: Shop,
    table: &[u8; 1024],
    list: &[Message],
    state: State,
    station: u32,
) -> Option<u32>
    requires { Open shop table.now state × Runnable list.now }
    ensures { option_to_list result ≡ entry shop table.now list.now state station
        (first_message list.now state.slot station) }
{
    let i = messages::first_message(list, station, state.slot)?;
    may_enter(shop, table, state, station, list[i as usize].deadline()).then_some(i)
}

// The stations that contend at the slot's start.
pub fn contenders_of(shop: Shop, table: &[u8; 1024], list: &[Message], state: State) -> Tally
    requires { Open shop table.now state × Runnable list.now }
    ensures { result ≡ tally_of (contenders shop table.now list.now state) }
{
    let mut tally = Tally {
        count: 0,
        message: messages::NO_MESSAGE,
    };
    for station in 0..shop.stations {
        if let Some(message) = entry_of(shop, table, list, state, station) {
            tally = Tally {
                count: tally.count + 1,
                message,
            };
        }
    }
    tally
}
