// Script: what a shop's evening looks like. Four messages are queued and run, a station is withdrawn, its places are
// queued anew, and the list is run again. What it prints is held to docs/RULES.md by the file stdout.
// Uses refusals, messages, phases, wire, withdrawals and shop.
#![tactic(auto)]

ghost use Rattle.shop.specs.Promise.{WithdrawalPromise, ShopPromise};

use messages::Message;
use phases::{Shape, Shop};
use refusals::Refusal;
use std::fmt::Display;
use wire::Outcome;
use withdrawals::Withdrawn;

// Two stations, classes of 10 slots, four time leaves and two static indices.
const TWO_TILLS: Shop = Shop {
    stations: 2,
    width: 10,
    offset: 0,
    compression: 1,
    time: Shape {
        branches: 2,
        leaves: 4,
    },
    index: Shape {
        branches: 2,
        leaves: 2,
    },
};

// A message that has not been run yet.
fn queued(station: u32, arrival: u32, relative: u32, length: u32) -> Message {
    Message {
        station,
        arrival,
        relative,
        length,
        sent: 0,
    }
}

// A piece of a line, by a write of its own: one that fails is passed over, and costs this piece alone.
fn put<D: Display + Drop>(rt: &impl Print, piece: D) {
    let _ = rt.print(piece);
}

// Some numbers, a space between each two, and the line's end.
fn put_line(rt: &impl Print, numbers: &[u32]) {
    for (i, number) in numbers.iter().enumerate() {
        if i > 0 {
            put(rt, " ");
        }
        put(rt, *number);
    }
    put(rt, "\n");
}

fn put_refusal(rt: &impl Print, refusal: Refusal) {
    put(rt, "refused ");
    put_line(rt, &[refusals::number(refusal)]);
}

// Station, arrival, relative deadline, length and slot of sending.
fn show_list(rt: &impl Print, list: &[Message]) {
    for message in list {
        put_line(
            rt,
            &[
                message.station,
                message.arrival,
                message.relative,
                message.length,
                message.sent,
            ],
        );
    }
}

// How the run ended, with its events, present slot, sent and late.
fn show_outcome(rt: &impl Print, answer: Result<Outcome, Refusal>) {
    let (ending, figures) = match answer {
        Ok(Outcome::Done(figures)) => ("done ", figures),
        Ok(Outcome::Spent(figures)) => ("budget ", figures),
        Err(refusal) => return put_refusal(rt, refusal),
    };
    put(rt, ending);
    put_line(
        rt,
        &[figures.events, figures.slot, figures.sent, figures.late],
    );
}

fn show_withdrawal(rt: &impl Print, answer: Result<Withdrawn, Refusal>) {
    match answer {
        Ok(Withdrawn { kept, withdrawn }) => {
            put(rt, "kept ");
            put(rt, kept);
            put(rt, " ");
            put(rt, "withdrawn ");
            put_line(rt, &[withdrawn]);
        }
        Err(refusal) => put_refusal(rt, refusal),
    }
}

// The list lent to the run, and what the run answers and leaves.
fn run_over(
    shop: Shop,
    owners: &[u32],
    list: &mut [Message],
    log: &mut [u8],
    budget: u32,
) -> Result<Outcome, Refusal>
    ensures { ShopPromise shop owners.now list.old log.old budget result list.new log.new }
{
    shop::run_shop(shop, owners, list, log, budget)
}

// The list lent to the withdrawal, and what the withdrawal answers and leaves.
fn withdraw_from(list: &mut [Message], station: u32) -> Result<Withdrawn, Refusal>
    ensures { WithdrawalPromise station list.old result list.new }
{
    shop::withdraw(list, station)
}

fn run_and_show(rt: &impl Print, list: &mut [Message]) {
    let mut log = [0; 512];
    let answer = run_over(TWO_TILLS, &[0, 1], list, &mut log, 32);
    show_outcome(rt, answer);
    show_list(rt, list);
}

fn withdraw_and_show(rt: &impl Print, list: &mut [Message], station: u32) {
    let answer = withdraw_from(list, station);
    show_withdrawal(rt, answer);
    show_list(rt, list);
}

fn main(rt: HostRuntime) {
    let mut list = [
        queued(0, 0, 25, 3),
        queued(1, 0, 28, 2),
        queued(0, 0, 100, 1),
        queued(1, 0, 200, 2),
    ];
    let _ = println!(rt; "a run: two tills, four messages");
    run_and_show(&rt, &mut list);
    let _ = println!(rt; "\ntill 1 is withdrawn");
    withdraw_and_show(&rt, &mut list, 1);
    let _ = println!(rt; "\na run: the kept messages, and two further ones of till 0");
    list[2] = queued(0, 2, 2, 2);
    list[3] = queued(0, 8, 20, 1);
    run_and_show(&rt, &mut list);
    let _ = println!(rt; "\na till 32 is withdrawn");
    withdraw_and_show(&rt, &mut list, 32);
}
