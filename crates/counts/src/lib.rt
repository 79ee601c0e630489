// Counts: the worst count X(k, t), what a search with k active leaves costs at most (docs/RULES.md, section 6).
// It is counted for trees m times smaller first: the counts of m of them together, and the root's slot.
// The tills' own tree, four branches and 256 leaves, stands as a table.
// Uses refusals and trees.
#![tactic(auto)]

mod tills; // tills.rt: the table

ghost use Rattle.std.specs.Prelude.{◌≡◌, List, [], ◌∷◌, ℕ, ◌+◌, ◌≤◌, ◌<◌, length, get_or, take};
ghost use Rattle.trees.specs.Shape.{height_of, Tree};
ghost use Rattle.trees.specs.Worst.{pairs, parts, rooted, worst_of};
ghost use Rattle.refusals.specs.Numbers.{granted};
ghost use Rattle.counts.specs.Counting.{Together, Fits, PartsReady, Holds};
ghost use Rattle.counts.specs.Answer.{count_verdict};
ghost use Rattle.counts.specs.Promise.{CountPromise};

use refusals::{Refusal, Verdict};
use std::marker::Model;

// What trees cost at most, for each number of active leaves from 0 on: `len` counts, which are what clauses see.
// Nothing is allocated: there is a place for each count of the largest tree.
#[derive(Drop)]
struct Counts {
    len: usize,
    places: [u16; 1025],
}

impl Model for Counts {
    ghost Value = { List ℕ };

    ghost view = { λ c. take c.len c.places };

    ghost invariant = { λ c. c.len ≤ 1025 };
}

impl Counts {
    // Without a tree no leaf is active, and nothing costs.
    fn of_no_tree() -> Counts
        ensures { result ≡ 0 ∷ [] }
    {
        Counts {
            len: 1,
            places: [0; 1025],
        }
    }

    // X(0, 1) and X(1, 1).
    fn of_leaf() -> Counts
        ensures { result ≡ 1 ∷ 0 ∷ [] }
    {
        let mut places = [0; 1025];
        places[0] = 1;
        Counts { len: 2, places }
    }

    fn as_slice(&self) -> &[u16]
        ensures { result.now ≡ self.now }
    {
        &self.places[..self.len]
    }
}

// The largest one[i] + rest[k - i], over all i for which both are there.
fn best_pair(one: &[u16], rest: &[u16], k: usize) -> u32
    requires { Together one.now rest.now × (k + 1 < length one.now + length rest.now) }
    ensures { result ≡ get_or (pairs one.now rest.now) k 0 }
{
    let from = (k + 1).saturating_sub(rest.len());
    let to = one.len().min(k + 1);
    (from..to)
        .map(|i| u32::from(one[i]) + u32::from(rest[k - i]))
        .max()
        .unwrap_or(0)
}

// What some trees and some others cost at most together.
fn paired(one: &[u16], rest: &[u16]) -> Counts
    requires { Together one.now rest.now × Fits (pairs one.now rest.now) }
    ensures { result ≡ pairs one.now rest.now }
{
    let len = one.len() + rest.len() - 1;
    let mut places = [0; 1025];
    for (k, place) in places[..len].iter_mut().enumerate() {
        *place = best_pair(one, rest, k) as u16;
    }
    Counts { len, places }
}

// What j trees cost at most together.
// A loop: an array of 2 KB is handed from turn to turn, and as a fold that is no plainer.
fn all_parts(small: &[u16], j: usize) -> Counts
    requires { PartsReady small.now j }
    ensures { result ≡ parts small.now j }
{
    let mut counts = Counts::of_no_tree();
    for _ in 0..j {
        counts = paired(small, counts.as_slice());
    }
    counts
}

// The root over its parts: from 2 on its slot comes to the parts' cost, X(0) is 1 and X(1) is 0.
#[tactic(auto, using(crate::proofs::CountLaws::raised))]
fn add_root(counts: &mut [u16])
    requires { (2 ≤ length counts.old) × Fits (rooted counts.old) }
    ensures { counts.new ≡ rooted counts.old }
{
    for count in &mut counts[2..] {
        *count += 1;
    }
    counts[0] = 1;
    counts[1] = 0;
}

// One level up: the counts of a tree, from those of its m subtrees.
// A function of its own, so that the recursion below holds no array of parts at each level: 50 KB of stack in all.
fn level_up(small: &Counts, m: usize) -> Counts
    requires { PartsReady small.now m × (2 ≤ length (parts small.now m)) × Fits (rooted (parts small.now m)) }
    ensures { result ≡ rooted (parts small.now m) }
{
    let Counts { len, mut places } = all_parts(small.as_slice(), m);
    add_root(&mut places[..len]);
    Counts { len, places }
}

// X(0, t) to X(t, t); the leaf count falls at each call.
#[tactic(auto, using(crate::proofs::CountLaws::smaller_tree))]
fn counts_of(m: usize, t: usize) -> Counts
    requires { Tree m t }
    ensures { Holds m t result }
{
    if t == 1 {
        return Counts::of_leaf();
    }
    level_up(&counts_of(m, t / m), m)
}

// Refusals 1 and 2, then 5.
fn count_verdict(m: u32, t: u32, k: u32) -> Verdict
    ensures { result ≡ count_verdict m t k }
{
    trees::tree_verdict(m, t)?;
    if k > t {
        return Err(Refusal::ActiveCount);
    }
    Ok(())
}

// X(k, t) where nothing is refused: read from the table for the tills' tree, else counted.
fn granted_count(m: usize, t: usize, k: usize) -> u32
    requires { count_verdict m t k ≡ granted }
    ensures { result ≡ worst_of m (height_of m t) k }
{
    if m == 4 && t == 256 {
        return u32::from(tills::tills_count(k));
    }
    let counts = counts_of(m, t);
    u32::from(counts.as_slice()[k])
}

// The worst count X(k, t) of a tree with m branches and t leaves.
pub fn worst_count(m: u32, t: u32, k: u32) -> Result<u32, Refusal>
    ensures { CountPromise m t k result }
{
    count_verdict(m, t, k)?;
    Ok(granted_count(m as usize, t as usize, k as usize))
}
