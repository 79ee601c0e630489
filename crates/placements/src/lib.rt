// Placements: k active leaves whose bare search costs exactly the worst count X(k, t) (docs/RULES.md, section 6).
// The leaves are shared out among the m subtrees as the theorem on worst counts says, down to subtrees with one
// active leaf or none; no counts are computed and no memory is wanted. X does not grow with k: few leaves go in
// pairs, which collide far down, many leaves are spread evenly.
// Uses refusals and trees.
#![tactic(auto)]

ghost use Rattle.std.specs.Prelude.{◌≡◌, ℕ, ◌^◌, ◌≤◌, length};
ghost use Rattle.trees.specs.Shape.{Tree};
ghost use Rattle.trees.proofs.Shares.{equal_share, share as share_of};
ghost use Rattle.trees.proofs.PlaceLaws.{Placed};
ghost use Rattle.placements.specs.Answer.{placement_verdict};
ghost use Rattle.placements.specs.Promise.{PlacementPromise};

use refusals::{Refusal, Verdict};

// Share j of some units of one or two leaves in m shares: the last `units` mod m shares have a unit more.
fn equal_share(m: usize, unit: usize, units: usize, j: usize) -> usize
    requires { (2 ≤ m) × (unit ≤ 2) × (units ≤ 1024) }
    ensures { (result ≡ equal_share m unit units j) × (result ≤ 2050) }
{
    let low = unit * (units / m);
    if m - units % m <= j { low + unit } else { low }
}

// Share j of k leaves in m subtrees of `width` leaves. From twice the width on each further leaf saves a slot and
// equal shares serve; below that pairs cost the most, and an odd leaf goes to share 0.
fn share(m: usize, width: usize, k: usize, j: usize) -> usize
    requires { (2 ≤ m) × (width ≤ 1024) × (k ≤ 1024) }
    ensures { result ≡ share_of m width k j }
{
    if 2 * width <= k {
        return equal_share(m, 1, k, j);
    }
    let pairs = equal_share(m, 2, k / 2, j);
    if j == 0 { pairs + k % 2 } else { pairs }
}

// A tree with k active leaves: none or one by itself, more as shares of the subtrees, each in its part of the list.
fn fill_tree(m: usize, k: usize, leaves: &mut [u8])
    requires { Tree m (length leaves.old) × (k ≤ length leaves.old) }
    ensures { (n : ℕ) → length leaves.old ≡ m ^ n → Placed m n k leaves.new }
{
    if k < 2 {
        leaves.fill(0);
        leaves[..k].fill(1);
        return;
    }
    let width = leaves.len() / m;
    // No `chunks_exact_mut`: behind it a proof knows the lengths of the parts and not their place in the list.
    for j in (0..m).rev() {
        let from = j * width;
        fill_tree(m, share(m, width, k, j), &mut leaves[from..from + width]);
    }
}

// Refusals 1, 2, 3 and 5, the first in this order.
fn placement_verdict(m: u32, t: u32, k: u32, len: usize) -> Verdict
    ensures { result ≡ placement_verdict m t k len }
{
    trees::tree_verdict(m, t)?;
    if len != t as usize {
        return Err(Refusal::LeafList);
    }
    if k > t {
        return Err(Refusal::ActiveCount);
    }
    Ok(())
}

// Writes a placement of k active leaves that costs X(k, t), 1 for active and 0 for not.
pub fn place(m: u32, t: u32, k: u32, leaves: &mut [u8]) -> Result<(), Refusal>
    ensures { PlacementPromise m t k leaves.old result leaves.new }
{
    placement_verdict(m, t, k, leaves.len())?;
    fill_tree(m as usize, k as usize, leaves);
    Ok(())
}
