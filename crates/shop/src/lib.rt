// Shop: the calls that a shop script makes, over its lent list of messages (docs/RULES.md, sections 10 and 11).
// Each works on the list in place.
// Uses refusals, messages, withdrawals, phases, inputs and wire.
#![tactic(auto)]

ghost use Rattle.shop.specs.Promise.{WithdrawalPromise, ShopPromise};

use messages::Message;
use phases::Shop;
use refusals::Refusal;
use wire::Outcome;
use withdrawals::Withdrawn;

// Withdraws a station's messages: the records of other stations move to the front in their order, the places behind
// them become all zero, and the counts are answered; or a refusal, and the list as it came.
pub fn withdraw(messages: &mut [Message], station: u32) -> Result<Withdrawn, Refusal>
    ensures { WithdrawalPromise station messages.old result messages.new }
{
    withdrawals::withdraw(messages, station)
}

// Runs the shop: a row for each event in the log, the slot of sending of each message that was sent, and the closing
// figures; or a refusal, and the list and the log as they came.
pub fn run_shop(
    shop: Shop,
    owners: &[u32],
    messages: &mut [Message],
    log: &mut [u8],
    budget: u32,
) -> Result<Outcome, Refusal>
    ensures { ShopPromise shop owners.now messages.old log.old budget result
        messages.new log.new }
{
    wire::run_list(shop, owners, true, messages, log, budget)
}
