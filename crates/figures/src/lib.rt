// Figures: the answers of the calls as structs of numbers, as they cross to C: a refusal's number, 0 for none, and the
// figures, 0 where it is refused. Each struct is made by `From` of its call's answer.
// Uses refusals, searches, counts, placements, classes, wire and withdrawals for the answers.
#![tactic(auto)]

ghost use Rattle.std.specs.Prelude.{◌≡◌};
ghost use Rattle.searches.specs.Answer.{figures as figures_of_search};
ghost use Rattle.counts.specs.Answer.{figures as figures_of_count};
ghost use Rattle.classes.specs.Answer.{figures as figures_of_class};
ghost use Rattle.placements.specs.Answer.{figures as number_of_placement};
ghost use Rattle.withdrawals.specs.Answer.{figures as figures_of_withdrawal};
ghost use Rattle.wire.specs.Answer.{reading_of};
ghost use Rattle.figures.specs.Numbers.{
  refusal_told,
  search_numbers,
  count_numbers,
  class_numbers,
  withdrawal_numbers,
  run_reading,
};

use refusals::Refusal;
use searches::Searched;
use wire::{Figures, Outcome};
use withdrawals::Withdrawn;

// The answer of a bare search.
#[repr(C)]
#[derive(Clone, Copy)]
pub struct SearchNumbers {
    pub refusal: u32,
    pub rows: u32,
    pub silences: u32,
    pub collisions: u32,
}

// The answer to a question for a worst count.
#[repr(C)]
#[derive(Clone, Copy)]
pub struct CountNumbers {
    pub refusal: u32,
    pub slots: u32,
}

// The answer to a question for a class.
#[repr(C)]
#[derive(Clone, Copy)]
pub struct ClassNumbers {
    pub class: i64,
    pub refusal: u32,
}

// The answer of a run.
#[repr(C)]
#[derive(Clone, Copy)]
pub struct RunNumbers {
    pub refusal: u32,
    pub done: bool,
    pub events: u32,
    pub slot: u32,
    pub sent: u32,
    pub late: u32,
}

// The answer of a withdrawal.
#[repr(C)]
#[derive(Clone, Copy)]
pub struct WithdrawalNumbers {
    pub refusal: u32,
    pub kept: u32,
    pub withdrawn: u32,
}

// The number of the answer's refusal, 0 for none.
fn refusal_number<T>(answer: &Result<T, Refusal>) -> u32
    ensures { result ≡ refusal_told answer.now }
{
    match answer {
        Ok(_) => 0,
        Err(refusal) => refusals::number(*refusal),
    }
}

impl From<Result<Searched, Refusal>> for SearchNumbers {
    ghost from_gives = { λ answer numbers. search_numbers numbers ≡ figures_of_search answer };

    fn from(answer: Result<Searched, Refusal>) -> SearchNumbers {
        let searched = answer.unwrap_or_default();
        SearchNumbers {
            refusal: refusal_number(&answer),
            rows: searched.rows,
            silences: searched.silences,
            collisions: searched.collisions,
        }
    }
}

impl From<Result<u32, Refusal>> for CountNumbers {
    ghost from_gives = { λ answer numbers. count_numbers numbers ≡ figures_of_count answer };

    fn from(answer: Result<u32, Refusal>) -> CountNumbers {
        CountNumbers {
            refusal: refusal_number(&answer),
            slots: answer.unwrap_or(0),
        }
    }
}

impl From<Result<i64, Refusal>> for ClassNumbers {
    ghost from_gives = { λ answer numbers. class_numbers numbers ≡ figures_of_class answer };

    fn from(answer: Result<i64, Refusal>) -> ClassNumbers {
        ClassNumbers {
            class: answer.unwrap_or(0),
            refusal: refusal_number(&answer),
        }
    }
}

pub fn placement_number(answer: Result<(), Refusal>) -> u32
    ensures { result ≡ number_of_placement answer }
{
    refusal_number(&answer)
}

impl From<Result<Outcome, Refusal>> for RunNumbers {
    ghost from_gives = { λ answer numbers. run_reading numbers ≡ reading_of answer };

    fn from(answer: Result<Outcome, Refusal>) -> RunNumbers {
        let (done, figures) = match answer {
            Ok(Outcome::Done(figures)) => (true, figures),
            Ok(Outcome::Spent(figures)) => (false, figures),
            Err(_) => (false, Figures::default()),
        };
        RunNumbers {
            refusal: refusal_number(&answer),
            done,
            events: figures.events,
            slot: figures.slot,
            sent: figures.sent,
            late: figures.late,
        }
    }
}

impl From<Result<Withdrawn, Refusal>> for WithdrawalNumbers {
    ghost from_gives = { λ answer numbers. withdrawal_numbers numbers ≡ figures_of_withdrawal answer };

    fn from(answer: Result<Withdrawn, Refusal>) -> WithdrawalNumbers {
        let counts = answer.unwrap_or_default();
        WithdrawalNumbers {
            refusal: refusal_number(&answer),
            kept: counts.kept,
            withdrawn: counts.withdrawn,
        }
    }
}
