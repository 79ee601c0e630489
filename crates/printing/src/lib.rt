// Printing: what the program writes of a run (docs/RULES.md, section 12): a line for each row of the log and a closing
// line, or the one line of a refusal. `put_report` writes it all.
// Uses refusals, rows, wire for how a run ends, numbers, and readback for the rows of a log.
#![tactic(auto)]

ghost use Rattle.std.specs.Prelude.{◌≡◌, true, [], ◌∷◌, ◌++◌, ◌+◌, ◌*◌, ◌≤◌, length};
ghost use Rattle.refusals.specs.Numbers.{number_of};
ghost use Rattle.wire.specs.Answer.{ended, reading_of};
ghost use Rattle.numbers.specs.Decimal.{decimal};
ghost use Rattle.printing.specs.Report.{column, phase_letter, state_letter, message_text, row_text};
ghost use Rattle.printing.specs.Report.{end_text, figures_text, refused_text};
ghost use Rattle.printing.specs.Work.{Put, Grown, RowsPut, TablePut, RunPut, ReportReady, Reported};

use refusals::Refusal;
use rows::{Channel, Phase, Row};
use wire::{Figures, Outcome};

// The letters are the report's own, so they stand here and not with the types.
fn phase_letter(phase: Phase) -> u8
    ensures { result ≡ phase_letter phase }
{
    match phase {
        Phase::Free => b'f',
        Phase::Time => b't',
        Phase::Static => b's',
        Phase::Bare => b'b',
    }
}

// The report's own letters, as above.
fn state_letter(state: Channel) -> u8
    ensures { result ≡ state_letter state }
{
    match state {
        Channel::Silence => b'-',
        Channel::Busy => b'B',
        Channel::Collision => b'X',
    }
}

// A text in the making: it ends at place `at` of the lent buffer.
#[derive(Drop)]
struct Text<'a> {
    output: &'a mut [u8],
    at: usize,
}

impl Text<'_> {
    fn put(&mut self, bytes: &[u8])
        requires { self.old.at + length bytes.now ≤ length self.old.output.now }
        ensures grown { Grown self.old bytes.now self.new }
    {
        rows::put_bytes(self.output, self.at, bytes);
        self.at += bytes.len();
    }

    // A letter and the space behind it.
    fn put_letter(&mut self, letter: u8)
        requires { self.old.at + 2 ≤ length self.old.output.now }
        ensures grown { Grown self.old (column (letter ∷ [])) self.new }
    {
        self.put(&[letter, b' ']);
    }

    // A number and the mark behind it, a space or a line feed: at most 11 bytes.
    #[tactic(auto, using(numbers::proofs::WriteLaws::digits_ten, crate::proofs::PutLaws::grown_then))]
    fn put_number(&mut self, n: u32, mark: u8)
        requires { self.old.at + 11 ≤ length self.old.output.now }
        ensures grown { Grown self.old (decimal n ++ (mark ∷ [])) self.new }
        ensures short { self.new.at ≤ self.old.at + 11 }
    {
        self.at = numbers::put_number(self.output, self.at, n);
        self.put(&[mark]);
    }

    // A message's number or `-`, and a space.
    fn put_message(&mut self, message: u16)
        requires { self.old.at + 11 ≤ length self.old.output.now }
        ensures grown { Grown self.old (column (message_text message)) self.new }
        ensures short { self.new.at ≤ self.old.at + 11 }
    {
        if message == rows::NO_MESSAGE {
            self.put_letter(b'-');
        } else {
            self.put_number(u32::from(message), b' ');
        }
    }

    // A row as a line: at most 60 bytes.
    fn put_row(&mut self, row: Row)
        requires { self.old.at + 60 ≤ length self.old.output.now }
        ensures grown { Grown self.old (row_text row) self.new }
        ensures short { self.new.at ≤ self.old.at + 60 }
    {
        self.put_number(row.slot, b' ');
        self.put_letter(phase_letter(row.phase));
        self.put_number(u32::from(row.first), b' ');
        self.put_number(u32::from(row.width), b' ');
        self.put_letter(state_letter(row.state));
        self.put_message(row.message);
        self.put_number(u32::from(row.used), b'\n');
    }

    // A line for each row of the log.
    fn put_rows(&mut self, log: &[u8], rows: usize)
        requires { (self.old.at + 60 * rows ≤ length self.old.output.now) × (16 * rows ≤ length log.now) }
        ensures lines { RowsPut self.old log.now rows self.new }
    {
        for row in 0..rows {
            self.put_row(readback::row_at(log, row));
        }
    }

    // The word that says how a run ended: at most 7 bytes.
    // Each word has a length of its own, so that no archive for C calls for a copy of unknown length.
    fn put_end(&mut self, done: bool)
        requires { self.old.at + 7 ≤ length self.old.output.now }
        ensures grown { Grown self.old (end_text done) self.new }
        ensures short { self.new.at ≤ self.old.at + 7 }
    {
        if done {
            self.put(b"done ");
        } else {
            self.put(b"budget ");
        }
    }

    // The closing figures: at most 44 bytes.
    fn put_figures(&mut self, figures: Figures)
        requires { self.old.at + 44 ≤ length self.old.output.now }
        ensures grown { Grown self.old (figures_text (ended true figures)) self.new }
        ensures short { self.new.at ≤ self.old.at + 44 }
    {
        self.put_number(figures.events, b' ');
        self.put_number(figures.slot, b' ');
        self.put_number(figures.sent, b' ');
        self.put_number(figures.late, b'\n');
    }
}

// The table of a log: the names of the columns, and a line for each of its first rows.
pub fn put_table(output: &mut [u8], log: &[u8], rows: usize) -> usize
    requires { (44 + 60 * rows ≤ length output.old) × (16 * rows ≤ length log.now) }
    ensures { TablePut output.old log.now rows result output.new }
{
    let mut text = Text { output, at: 0 };
    text.put(b"slot phase first width state message length\n");
    text.put_rows(log, rows);
    text.at
}

// A run that was not refused: the table of its log and the closing line.
fn put_run(output: &mut [u8], log: &[u8], done: bool, figures: Figures) -> usize
    requires { (100 + 60 * figures.events ≤ length output.old) × (16 * figures.events ≤ length log.now) }
    ensures { RunPut output.old log.now (end_text done) figures result output.new }
{
    let at = put_table(output, log, figures.events as usize);
    let mut text = Text { output, at };
    text.put_end(done);
    text.put_figures(figures);
    text.at
}

// A refusal: one line.
pub fn put_refusal(output: &mut [u8], refusal: Refusal) -> usize
    requires { 100 ≤ length output.old }
    ensures { Put output.old 0 (refused_text (number_of refusal)) result output.new × (result ≤ 20) }
{
    let mut text = Text { output, at: 0 };
    text.put(b"refused ");
    text.put_number(refusals::number(refusal), b'\n');
    text.at
}

// The whole text that a run's answer and its log make.
pub fn put_report(output: &mut [u8], log: &[u8], outcome: Result<Outcome, Refusal>) -> usize
    requires { ReportReady output.old log.now (reading_of outcome).events }
    ensures { Reported output.old log.now outcome result output.new }
{
    match outcome {
        Ok(Outcome::Done(figures)) => put_run(output, log, true, figures),
        Ok(Outcome::Spent(figures)) => put_run(output, log, false, figures),
        Err(refusal) => put_refusal(output, refusal),
    }
}
