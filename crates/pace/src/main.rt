// Pace: one public call, a thousand times over, for bench/trees to time (docs/PERFORMANCE.md).
// The first byte of standard input picks the job. What is printed is a sum over the answers, 0 where a call refused.
// Each kind of job has several trees, so that no recursive function is compiled for the numbers of one; the checks
// that come first in a call may be.
// Uses searches, counts and placements.
#![tactic(auto)]

ghost use Rattle.std.specs.Prelude.{◌≤◌};

use std::io::Read;

const TURNS: u32 = 1000;

// The answers of all turns, added up.
fn sum_of_turns<F: FnMut(u32) -> u64>(mut answer: F) -> u64
    requires { F.IsAlwaysCallable answer }
{
    let mut sum: u64 = 0;
    for turn in 0..TURNS {
        sum = sum.wrapping_add(answer(turn));
    }
    sum
}

// A search of every leaf, or of every second one.
fn search_job(m: u32, t: u32, all: bool) -> u64
    requires { t ≤ 1024 }
{
    let mut leaves = [0u8; 1024];
    for (i, leaf) in leaves.iter_mut().enumerate() {
        *leaf = u8::from(all || i % 2 == 0);
    }
    let tree = &leaves[..t as usize];
    let mut log = [0u8; 32752];
    sum_of_turns(|_| {
        searches::search(m, t, tree, &mut log).map_or(0, |searched| u64::from(searched.rows))
    })
}

// The count is asked for k and for the next k in turn, so that no answer can be kept.
fn count_job(m: u32, t: u32, k: u32) -> u64 {
    sum_of_turns(|turn| {
        counts::worst_count(m, t, k.wrapping_add(turn % 2)).map_or(0, u64::from)
    })
}

// So is the placement.
fn place_job(m: u32, t: u32, k: u32) -> u64
    requires { t ≤ 1024 }
{
    let mut leaves = [0u8; 1024];
    let tree = &mut leaves[..t as usize];
    sum_of_turns(|turn| {
        u64::from(placements::place(m, t, k.wrapping_add(turn % 2), tree).is_ok())
    })
}

fn sum_of(letter: u8) -> u64 {
    match letter {
        b's' => search_job(2, 1024, false),
        b'S' => search_job(2, 1024, true),
        b'q' => search_job(4, 256, true),
        b'a' => count_job(2, 1024, 512),
        b'b' => count_job(4, 1024, 512),
        b'c' => count_job(10, 1000, 500),
        b'd' => count_job(4, 256, 128),
        b'p' => place_job(2, 1024, 300),
        b'P' => place_job(4, 256, 100),
        _ => 0,
    }
}

// A read or a write that fails is passed over.
fn main(rt: HostRuntime) {
    let mut letter = [0u8; 1];
    let _ = rt.stdin().read(&mut letter);
    let _ = rt.println(sum_of(letter[0]));
}
