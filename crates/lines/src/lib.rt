// Lines: the program as a function from the bytes of its input to the bytes of its output (docs/RULES.md, section 12).
// `answer` reads the shop's text, runs the shop and writes its log and closing figures, or the line of a refusal.
// Uses messages, phases and refusals, and reading, wire and printing, which do the work. Its definitions use those of
// inputs, rows, contention and numbers too; its proofs cite trees.
#![tactic(auto)]

ghost use Rattle.std.specs.Prelude.{◌≤◌, length};
ghost use Rattle.lines.specs.Promise.{AnswerPromise};
ghost use Rattle.lines.specs.Work.{run_text, Printed};

use messages::{BLANK, Message};
use phases::Shop;
use refusals::Refusal;

// Every text fits into this.
pub const OUTPUT_ROOM: usize = 262144;

const BUDGET: u32 = 4096;

// 16 bytes for each event of the budget.
const LOG_ROOM: usize = 65536;

// One owner more than a static tree can have: a longer list is refused all the same.
const OWNERS_KEPT: usize = 1025;

// One message more than a run takes: a longer list is refused all the same.
const MESSAGES_KEPT: usize = 513;

// The run of the shop, printed.
fn print_run(shop: Shop, owners: &[u32], list: &mut [Message], output: &mut [u8]) -> usize
    requires { 262144 ≤ length output.old }
    ensures { Printed output.old (run_text shop owners.now list.old) result output.new }
{
    let mut log = [0; LOG_ROOM];
    let outcome = wire::run_list(shop, owners, true, list, &mut log, BUDGET);
    printing::put_report(output, &log, outcome)
}

// The whole program. An output without room for every text is left as it was, and 0 is the answer.
pub fn answer(input: &[u8], output: &mut [u8]) -> usize
    ensures { AnswerPromise input.now output.old result output.new }
{
    if output.len() < OUTPUT_ROOM {
        return 0;
    }
    let mut owners = [0; OWNERS_KEPT];
    let mut list = [BLANK; MESSAGES_KEPT];
    let Some(given) = reading::read_shop(input, &mut owners, &mut list) else {
        return printing::put_refusal(output, Refusal::Text);
    };
    print_run(
        given.shop,
        &owners[..given.owners.min(OWNERS_KEPT)],
        &mut list[..given.messages.min(MESSAGES_KEPT)],
        output,
    )
}
