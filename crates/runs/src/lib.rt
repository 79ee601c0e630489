// Runs: a run over messages that are lent field by field (docs/RULES.md, section 10).
// The fields are copied into a table of records, the run is made on these, and the slots of sending are copied back.
// A list of at most 128 messages has a smaller table, so that its run wants no more stack than a small thread has.
// What is refused before the messages is refused before they are copied.
// Uses refusals, messages, records, phases, inputs and wire.
#![tactic(auto)]

ghost use Rattle.std.specs.Prelude.{◌≡◌, ◌&&◌, ◌≤◌, true, nat_le, length};
ghost use Rattle.refusals.specs.Numbers.{granted};
ghost use Rattle.inputs.specs.Inputs.{same_lengths, setup_verdict};
ghost use Rattle.wire.specs.Promise.{RunPromise};

use messages::{BLANK, Message};
use phases::Shop;
use refusals::Refusal;
use wire::Outcome;

// Whether the fields make a list that a run can take: at most 512 messages, and every number of each.
fn is_whole(
    stations: &[u32],
    arrivals: &[u32],
    relatives: &[u32],
    lengths: &[u32],
    sent: &[u32],
) -> bool
    ensures { result ≡ (nat_le (length stations.now) 512
        && same_lengths stations.now arrivals.now relatives.now lengths.now sent.now) }
{
    let count = stations.len();
    count <= 512
        && arrivals.len() == count
        && relatives.len() == count
        && lengths.len() == count
        && sent.len() == count
}

// The run over fields that make a list, copied into a table that has room for it.
fn run_in(
    table: &mut [Message],
    shop: Shop,
    owners: &[u32],
    stations: &[u32],
    arrivals: &[u32],
    relatives: &[u32],
    lengths: &[u32],
    sent: &mut [u32],
    log: &mut [u8],
    budget: u32,
) -> Result<Outcome, Refusal>
    requires set { setup_verdict shop owners.now ≡ granted }
    requires whole { true ≡ (nat_le (length stations.now) 512
        && same_lengths stations.now arrivals.now relatives.now lengths.now sent.old) }
    requires room { length stations.now ≤ length table.old }
    ensures { RunPromise shop owners.now stations.now arrivals.now
        relatives.now lengths.now sent.old log.old budget result
        sent.new log.new }
{
    // As many of each as there are stations, which is all of it: the copy is quicker for knowing that.
    let count = stations.len();
    records::put_records(
        table,
        stations,
        &arrivals[..count],
        &relatives[..count],
        &lengths[..count],
        &sent[..count],
    );
    let list = &mut table[..count];
    inputs::list_verdict(shop.stations, list, budget, log.len())?;
    let outcome = wire::run_granted(shop, owners, list, log, budget);
    records::put_slots(sent, table);
    Ok(outcome)
}

// The same with a table of N records.
// Never inlined: each size of the table has a frame of its own, and a call that is refused before it has none.
#[inline(never)]
fn run_copied<const N: usize>(
    shop: Shop,
    owners: &[u32],
    stations: &[u32],
    arrivals: &[u32],
    relatives: &[u32],
    lengths: &[u32],
    sent: &mut [u32],
    log: &mut [u8],
    budget: u32,
) -> Result<Outcome, Refusal>
    requires set { setup_verdict shop owners.now ≡ granted }
    requires whole { true ≡ (nat_le (length stations.now) 512
        && same_lengths stations.now arrivals.now relatives.now lengths.now sent.old) }
    requires room { (length stations.now ≤ N) × (N ≤ 512) }
    ensures { RunPromise shop owners.now stations.now arrivals.now
        relatives.now lengths.now sent.old log.old budget result
        sent.new log.new }
{
    run_in(
        &mut [BLANK; N],
        shop,
        owners,
        stations,
        arrivals,
        relatives,
        lengths,
        sent,
        log,
        budget,
    )
}

// A run of the shop: a row for each event in the log, the slot of sending of each message that was sent, and the
// closing figures; or a refusal, and every lent slice as it came.
pub fn run_fields(
    shop: Shop,
    owners: &[u32],
    stations: &[u32],
    arrivals: &[u32],
    relatives: &[u32],
    lengths: &[u32],
    sent: &mut [u32],
    log: &mut [u8],
    budget: u32,
) -> Result<Outcome, Refusal>
    ensures { RunPromise shop owners.now stations.now arrivals.now
        relatives.now lengths.now sent.old log.old budget result
        sent.new log.new }
{
    inputs::setup_verdict(shop, owners)?;
    if !is_whole(stations, arrivals, relatives, lengths, sent) {
        return Err(Refusal::Messages);
    }
    if stations.len() <= 128 {
        run_copied::<128>(
            shop, owners, stations, arrivals, relatives, lengths, sent, log, budget,
        )
    } else {
        run_copied::<512>(
            shop, owners, stations, arrivals, relatives, lengths, sent, log, budget,
        )
    }
}
