// Exports: the public calls for C, Rust and scripts (include/mirvuttu.h says how they are called).
// Each makes the call and gives its answer as numbers.
// Uses the crates of the calls, figures for the numbers, and messages and phases for what is lent.
#![tactic(auto)]

ghost use Rattle.lines.specs.Promise.{AnswerPromise};
ghost use Rattle.exports.specs.Promise.{
  SearchExported,
  CountExported,
  PlacementExported,
  ClassExported,
  RunExported,
  ShopExported,
  WithdrawalExported,
};

use figures::{ClassNumbers, CountNumbers, RunNumbers, SearchNumbers, WithdrawalNumbers};
use messages::Message;
use phases::Shop;

// A bare search: the rows in the log.
#[unsafe(no_mangle)]
pub extern "C" fn mirvuttu_search(m: u32, t: u32, leaves: &[u8], log: &mut [u8]) -> SearchNumbers
    ensures { SearchExported m t leaves.now log.old result log.new }
{
    SearchNumbers::from(searches::search(m, t, leaves, log))
}

// The worst count of k active leaves.
#[unsafe(no_mangle)]
pub extern "C" fn mirvuttu_worst_count(m: u32, t: u32, k: u32) -> CountNumbers
    ensures { CountExported m t k result }
{
    CountNumbers::from(counts::worst_count(m, t, k))
}

// A placement of k active leaves in the lent list; the answer is a refusal's number, 0 for none.
#[unsafe(no_mangle)]
pub extern "C" fn mirvuttu_place(m: u32, t: u32, k: u32, leaves: &mut [u8]) -> u32
    ensures { PlacementExported m t k leaves.old result leaves.new }
{
    figures::placement_number(placements::place(m, t, k, leaves))
}

// The class of a message.
#[unsafe(no_mangle)]
pub extern "C" fn mirvuttu_class(
    deadline: u32,
    offset: u32,
    reference: u64,
    width: u32,
) -> ClassNumbers
    ensures { ClassExported deadline offset reference width result }
{
    ClassNumbers::from(classes::class_answer(deadline, offset, reference, width))
}

// A run over messages that are held field by field.
#[unsafe(no_mangle)]
pub extern "C" fn mirvuttu_run_fields(
    shop: Shop,
    owners: &[u32],
    stations: &[u32],
    arrivals: &[u32],
    relatives: &[u32],
    lengths: &[u32],
    sent: &mut [u32],
    log: &mut [u8],
    budget: u32,
) -> RunNumbers
    ensures { RunExported shop owners.now stations.now arrivals.now
        relatives.now lengths.now sent.old log.old budget result
        sent.new log.new }
{
    let answer = runs::run_fields(
        shop, owners, stations, arrivals, relatives, lengths, sent, log, budget,
    );
    RunNumbers::from(answer)
}

// A run over the lent list of records.
#[unsafe(no_mangle)]
pub extern "C" fn mirvuttu_run(
    shop: Shop,
    owners: &[u32],
    messages: &mut [Message],
    log: &mut [u8],
    budget: u32,
) -> RunNumbers
    ensures { ShopExported shop owners.now messages.old log.old budget result
        messages.new log.new }
{
    RunNumbers::from(shop::run_shop(shop, owners, messages, log, budget))
}

// A withdrawal from the lent list of records.
#[unsafe(no_mangle)]
pub extern "C" fn mirvuttu_withdraw(messages: &mut [Message], station: u32) -> WithdrawalNumbers
    ensures { WithdrawalExported station messages.old result messages.new }
{
    WithdrawalNumbers::from(shop::withdraw(messages, station))
}

// The program's answer to a text: how many bytes were written into the output.
#[unsafe(no_mangle)]
pub extern "C" fn mirvuttu_answer(input: &[u8], output: &mut [u8]) -> usize
    ensures { AnswerPromise input.now output.old result output.new }
{
    lines::answer(input, output)
}
