// Classes: how far a message's deadline lies from the reference time, in classes of some slots each
// (docs/RULES.md, section 9). A class is rounded down, so that late messages have negative classes.
// `class_answer` is the public call, since tills show "late by n classes"; runs ask `is_below`.
// Uses refusals.
#![tactic(auto)]

ghost use Rattle.std.specs.Prelude.{◌≡◌, ◌<◌, ◌≤◌};
ghost use Rattle.classes.specs.Class.{floor_of, class_of, class_below, class_fits};
ghost use Rattle.classes.specs.Answer.{class_verdict};
ghost use Rattle.classes.specs.Promise.{ClassPromise};

use refusals::{Refusal, Verdict};

// distance / width, rounded down towards minus infinity: the machine's quotient goes towards zero.
fn floor_div(distance: i64, width: u32) -> i64
    requires { 0 < width }
    ensures { result ≡ floor_of distance width }
{
    let divisor = i64::from(width);
    let quotient = distance / divisor;
    if distance % divisor < 0 {
        quotient - 1
    } else {
        quotient
    }
}

// The class of a message with the absolute deadline.
fn class_of(deadline: u32, offset: u32, reference: u64, width: u32) -> i64
    requires { (0 < width) × (reference ≤ 9000000000000) }
    ensures { result ≡ class_of deadline offset reference width }
{
    let start = u64::from(offset) + reference;
    floor_div(i64::from(deadline) - start as i64, width)
}

// Whether the class lies below the leaf b.
pub fn is_below(deadline: u32, offset: u32, reference: u64, width: u32, b: u32) -> bool
    requires { (0 < width) × (reference ≤ 9000000000000) }
    ensures { result ≡ class_below deadline offset reference width b }
{
    class_of(deadline, offset, reference, width) < i64::from(b)
}

// Whether class width and offset are in range.
pub fn class_fits(width: u32, offset: u32) -> bool
    ensures { result ≡ class_fits width offset }
{
    (1..=1_000_000).contains(&width) && offset <= 1_000_000
}

// Refusals 7, 9 and 12, in this order.
fn class_verdict(deadline: u32, offset: u32, reference: u64, width: u32) -> Verdict
    ensures { result ≡ class_verdict deadline offset reference width }
{
    if !class_fits(width, offset) {
        return Err(Refusal::ClassNumbers);
    }
    if deadline > 2_000_000_000 {
        return Err(Refusal::Messages);
    }
    if reference > 5_000_000_000_000 {
        return Err(Refusal::ReferenceTime);
    }
    Ok(())
}

// The class of a message with the absolute deadline, or a refusal.
pub fn class_answer(deadline: u32, offset: u32, reference: u64, width: u32) -> Result<i64, Refusal>
    ensures { ClassPromise deadline offset reference width result }
{
    class_verdict(deadline, offset, reference, width)?;
    Ok(class_of(deadline, offset, reference, width))
}
