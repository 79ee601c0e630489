// Withdrawals: a station's messages are taken out of a lent list (docs/RULES.md, section 11).
// What is kept moves to the front, in its order, and the places behind it become all zero.
// Uses refusals and messages.
#![tactic(auto)]

ghost use Rattle.std.specs.Prelude.{◌≡◌, ◌≤◌, length, take};
ghost use Rattle.withdrawals.specs.Withdrawal.{kept_of};
ghost use Rattle.withdrawals.specs.Answer.{withdrawal_verdict, figures, figures_of, list_of};

use messages::{BLANK, Message};
use refusals::{Refusal, Verdict};

// How many records are kept and how many are withdrawn.
#[derive(Clone, Copy, Debug, Default, PartialEq, Eq)]
pub struct Withdrawn {
    pub kept: u32,
    pub withdrawn: u32,
}

// Refusals 6 and 9, in this order; of 9 the count alone.
fn withdrawal_verdict(station: u32, count: usize) -> Verdict
    ensures { result ≡ withdrawal_verdict station count }
{
    if 31 < station {
        return Err(Refusal::Stations);
    }
    if 512 < count {
        return Err(Refusal::Messages);
    }
    Ok(())
}

// The records of other stations move to the front, in their order; the result is how many they are.
// By a loop: a slice has no `retain`, and nothing is allocated.
fn move_kept(messages: &mut [Message], station: u32) -> usize
    ensures front { take result messages.new ≡ kept_of station messages.old }
    ensures within { result ≤ length messages.old }
{
    let mut kept = 0;
    for i in 0..messages.len() {
        let message = messages[i];
        if message.station != station {
            messages[kept] = message;
            kept += 1;
        }
    }
    kept
}

// Withdraws a station's messages; a refusal leaves the list as it came.
pub fn withdraw(messages: &mut [Message], station: u32) -> Result<Withdrawn, Refusal>
    ensures figured { figures result ≡ figures_of station messages.old }
    ensures left { messages.new ≡ list_of station messages.old }
{
    let count = messages.len();
    withdrawal_verdict(station, count)?;
    let kept = move_kept(messages, station);
    messages[kept..].fill(BLANK);
    Ok(Withdrawn {
        kept: kept as u32,
        withdrawn: (count - kept) as u32,
    })
}
