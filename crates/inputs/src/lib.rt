// Inputs: what a run asks of its numbers and lists, checked in the order of the refusals, and the index table
// that it works with (docs/RULES.md, sections 2 and 10).
// Uses refusals, rows, trees, classes, messages and phases.
#![tactic(auto)]

ghost use Rattle.std.specs.Prelude.{◌≡◌, ◌≤◌, length};
ghost use Rattle.inputs.specs.Inputs.{class_numbers, is_owner, are_owners, holds, all_own, table_fits};
ghost use Rattle.inputs.specs.Inputs.{message_fits, all_fit, messages_fit, shop_verdict, budget_verdict};
ghost use Rattle.inputs.specs.Inputs.{setup_verdict, list_verdict, run_verdict, table_of, SmallOwners};

use messages::Message;
use phases::Shop;
use refusals::{Refusal, Verdict};

// An index that no station owns.
const FREE: u8 = 255;

// 1,024 places, all free, with the owners copied in.
pub fn owner_table(owners: &[u32]) -> [u8; 1024]
    requires { (length owners.now ≤ 1024) × SmallOwners owners.now }
    ensures { result ≡ table_of owners.now }
{
    let mut table = [FREE; 1024];
    for (i, owner) in owners.iter().enumerate() {
        table[i] = *owner as u8;
    }
    table
}

// Whether class width, offset and compression factor are in range.
fn class_numbers(shop: Shop) -> bool
    ensures { result ≡ class_numbers shop }
{
    classes::class_fits(shop.width, shop.offset) && shop.compression <= 8
}

// Whether an entry of the table is a station or free.
fn is_owner(owner: u32, stations: u32) -> bool
    ensures { result ≡ is_owner stations owner }
{
    owner < stations || owner == u32::from(FREE)
}

// Whether each entry is a station or free.
fn are_owners(owners: &[u32], stations: u32) -> bool
    ensures { result ≡ are_owners stations owners.now }
{
    owners.iter().all(|owner| is_owner(*owner, stations))
}

// Whether the station has an entry.
fn has_entry(owners: &[u32], station: u32) -> bool
    ensures { result ≡ holds owners.now station }
{
    owners.contains(&station)
}

// Whether each station has an entry.
fn all_own(owners: &[u32], stations: u32) -> bool
    ensures { result ≡ all_own owners.now stations }
{
    (0..stations).all(|station| has_entry(owners, station))
}

// Refusal 8: an entry for each index, stations and free places only, no station without an entry.
fn table_fits(shop: Shop, owners: &[u32]) -> bool
    ensures { result ≡ table_fits shop owners.now }
{
    owners.len() == shop.index.leaves as usize
        && are_owners(owners, shop.stations)
        && all_own(owners, shop.stations)
}

// Whether the message's station exists, and each of its numbers is in range.
fn message_fits(message: Message, stations: u32) -> bool
    ensures { result ≡ message_fits stations message }
{
    message.station < stations
        && message.arrival <= 1_000_000_000
        && (1..=1_000_000_000).contains(&message.relative)
        && (1..=1_000).contains(&message.length)
}

// Whether each message of the list fits.
fn all_fit(list: &[Message], stations: u32) -> bool
    ensures { result ≡ all_fit stations list.now }
{
    list.iter().all(|message| message_fits(*message, stations))
}

// Refusal 9: at most 512 messages, each of which fits.
fn messages_fit(list: &[Message], stations: u32) -> bool
    ensures { result ≡ messages_fit stations list.now }
{
    list.len() <= 512 && all_fit(list, stations)
}

// Refusals 6, 7 and 8.
fn shop_verdict(shop: Shop, owners: &[u32]) -> Verdict
    ensures { result ≡ shop_verdict shop owners.now }
{
    if !(1..=32).contains(&shop.stations) {
        return Err(Refusal::Stations);
    }
    if !class_numbers(shop) {
        return Err(Refusal::ClassNumbers);
    }
    if !table_fits(shop, owners) {
        return Err(Refusal::IndexTable);
    }
    Ok(())
}

// Refusals 10 and 11.
fn budget_verdict(budget: u32, room: usize) -> Verdict
    ensures { result ≡ budget_verdict budget room }
{
    if !(1..=1_000_000).contains(&budget) {
        return Err(Refusal::Budget);
    }
    if room < 16 * budget as usize {
        return Err(Refusal::LogRoom);
    }
    Ok(())
}

// The refusals of the trees, and then 6, 7 and 8: those that ask nothing of the messages.
pub fn setup_verdict(shop: Shop, owners: &[u32]) -> Verdict
    ensures { result ≡ setup_verdict shop owners.now }
{
    trees::tree_verdict(shop.time.branches, shop.time.leaves)?;
    trees::tree_verdict(shop.index.branches, shop.index.leaves)?;
    shop_verdict(shop, owners)
}

// Refusals 9, 10 and 11, of a list that came whole.
pub fn list_verdict(stations: u32, list: &[Message], budget: u32, room: usize) -> Verdict
    ensures { result ≡ list_verdict stations list.now budget room }
{
    if !messages_fit(list, stations) {
        return Err(Refusal::Messages);
    }
    budget_verdict(budget, room)
}

// The refusals of a run, in their order; `whole` is whether the list of messages came whole.
pub fn run_verdict(
    shop: Shop,
    owners: &[u32],
    whole: bool,
    list: &[Message],
    budget: u32,
    room: usize,
) -> Verdict
    ensures { result ≡ run_verdict shop owners.now whole list.now budget room }
{
    setup_verdict(shop, owners)?;
    if !whole {
        return Err(Refusal::Messages);
    }
    list_verdict(shop.stations, list, budget, room)
}
