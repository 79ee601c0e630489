// Trees: the shape of a tree, and in specs/ and proofs/ what a search of one is and what it costs
// (docs/RULES.md, sections 3, 5 and 6). The search rule is stated for any rule of who contends,
// so that bare searches, time searches and static searches stand on one law.
// Uses refusals and rows.
//
//   m 2, t 4, leaves 0 and 1 active:          (0,4) X            slot 0
//                                        (0,2) X     (2,2) -     slots 1 and 4
//                                     (0,1) 0  (1,1) 1           slots 2 and 3
#![tactic(auto)]

ghost use Rattle.std.specs.Prelude.{◌≡◌, ◌≤◌, ltb};
ghost use Rattle.trees.specs.Shape.{height_of, tree_verdict, Tree};
ghost use Rattle.trees.specs.Wire.{next_width};

use refusals::{Refusal, Verdict};

// No tree has more leaves.
pub const LEAVES_MAX: u32 = 1024;

// Whether t is a power of m, from m on, within the limit: the largest power of m that is not above t is t.
// No `ilog`: it divides at each step, and took five times as long as all else that many a call on trees does.
#[tactic(auto, using(crate::proofs::ShapeLaws::height_outside))]
fn is_leaf_count(m: u32, t: u32) -> bool
    requires { (2 ≤ m) × (m ≤ 16) }
    ensures { result ≡ ltb 0 (height_of m t) }
{
    if t < m || LEAVES_MAX < t {
        return false;
    }
    let mut power = m;
    while power * m <= t {
        power *= m;
    }
    power == t
}

// Refusals 1 and 2 of a tree with m branches and t leaves.
pub fn tree_verdict(m: u32, t: u32) -> Verdict
    ensures { result ≡ tree_verdict m t }
{
    if !(2..=16).contains(&m) {
        return Err(Refusal::Branching);
    }
    if is_leaf_count(m, t) {
        Ok(())
    } else {
        Err(Refusal::LeafCount)
    }
}

// The subtree that follows one ending at b is the widest that can start there, short of the whole tree.
pub fn next_width(m: u32, t: u32, b: u32) -> u32
    requires { Tree m t × (2 ≤ t) }
    ensures { result ≡ next_width m (height_of m t) b }
{
    let mut width = t / m;
    while b % width != 0 {
        width = width / m;
    }
    width
}
