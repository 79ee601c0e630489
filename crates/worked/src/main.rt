// Worked: the calls on trees by themselves. It searches the tree with two branches and four leaves, leaves 0 and 1
// active, and prints the log; then some worst counts; then two trees that are refused.
// What it prints is held to docs/RULES.md by the file stdout, which was written from the rules and not from a run.
// Uses refusals, searches, counts and printing.
#![tactic(auto)]

ghost use Rattle.std.specs.Prelude.{◌*◌, ◌≤◌, length};

use refusals::Refusal;
use std::fmt::Display;

// A piece of a line, by a write of its own: one that fails is passed over, and costs this piece alone.
fn put<D: Display + Drop>(rt: &impl Print, piece: D) {
    let _ = rt.print(piece);
}

fn put_refusal(rt: &impl Print, refusal: Refusal) {
    put(rt, "refused ");
    put(rt, refusals::number(refusal));
}

// The table of a log with at most seven rows.
fn show_log(rt: &impl Print, log: &[u8], rows: u32)
    requires { (rows ≤ 7) × (16 * rows ≤ length log.now) }
{
    let mut table = [0u8; 512];
    let written = printing::put_table(&mut table, log, rows as usize);
    let _ = rt.write_all(&table[..written]);
}

// Two branches, four leaves, leaves 0 and 1 active; the log has room for a row of each of the 7 nodes.
fn show_search(rt: &impl Print) {
    let leaves = [1u8, 1, 0, 0];
    let mut log = [0u8; 112];
    match searches::search(2, 4, &leaves, &mut log) {
        Ok(found) => {
            show_log(rt, &log, found.rows);
            put(rt, "rows ");
            put(rt, found.rows);
            put(rt, ", silences ");
            put(rt, found.silences);
            put(rt, ", collisions ");
            put(rt, found.collisions);
            put(rt, "\n");
        }
        Err(refusal) => put_refusal(rt, refusal),
    }
}

fn show_count(rt: &impl Print, m: u32, t: u32, k: u32) {
    for (word, number) in [("m ", m), (", t ", t), (", k ", k)] {
        put(rt, word);
        put(rt, number);
    }
    put(rt, ": ");
    match counts::worst_count(m, t, k) {
        Ok(slots) => put(rt, slots),
        Err(refusal) => put_refusal(rt, refusal),
    }
    put(rt, "\n");
}

fn main(rt: HostRuntime) {
    let _ = println!(rt; "a search: m 2, t 4, leaves 0 and 1 active");
    show_search(&rt);
    let _ = println!(rt; "\nworst counts");
    for (t, k) in [(64, 2), (64, 32), (64, 64), (256, 2), (256, 256)] {
        show_count(&rt, 4, t, k);
    }
    let _ = println!(rt; "\nleaves that are no power of m");
    for t in [1, 6] {
        show_count(&rt, 2, t, 1);
    }
}
