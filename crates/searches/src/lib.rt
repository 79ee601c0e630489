// Searches: the bare search of a tree with fixed active leaves, written slot by slot into a lent log
// (docs/RULES.md, section 5). `search` is the public call: it takes whatever it is given and refuses what is bad.
// The rest visits one subtree at a time, as the definition does.
// Uses refusals, rows and trees.
#![tactic(auto)]

ghost use Rattle.std.specs.Prelude.{◌≡◌, ◌+◌, ◌≤◌, length, [], ◌∷◌, position};
ghost use Rattle.trees.specs.Shape.{Tree, rows_room};
ghost use Rattle.trees.specs.Search.{all_bits, active_in, bare_row};
ghost use Rattle.searches.specs.Answer.{search_verdict};
ghost use Rattle.searches.specs.Promise.{SearchPromise};
ghost use Rattle.searches.specs.Work.{is_active, seen_of, NoteReady, Wrote, VisitReady, Visited};

use refusals::{Refusal, Verdict};
use rows::{Channel, NO_MESSAGE, Phase, Row};

// What a bare search has written: its rows, and how many of their slots were silent and how many collided.
#[derive(Clone, Copy, Debug, Default, PartialEq, Eq)]
pub struct Searched {
    pub rows: u32,
    pub silences: u32,
    pub collisions: u32,
}

// A subtree: its first leaf, and how many leaves it has.
#[derive(Clone, Copy)]
struct Subtree {
    first: usize,
    width: usize,
}

// How many active leaves a subtree has, as far as the wire can tell: the one leaf is heard.
#[derive(Clone, Copy)]
enum Seen {
    Nobody,
    One(u16),
    Several,
}

// Whether each byte is 0 or 1.
fn are_bits(leaves: &[u8]) -> bool
    ensures { result ≡ all_bits leaves.now }
{
    leaves.iter().all(|leaf| *leaf <= 1)
}

// The bytes of a log with a row for each node of the tree.
fn rows_room(m: u32, t: u32) -> usize
    requires { Tree m t }
    ensures { result ≡ rows_room m t }
{
    let nodes = (m * t - 1) / (m - 1);
    16 * nodes as usize
}

// The refusals of a bare search, in their order.
fn search_verdict(m: u32, t: u32, leaves: &[u8], room: usize) -> Verdict
    ensures { result ≡ search_verdict m t leaves.now room }
{
    trees::tree_verdict(m, t)?;
    if leaves.len() != t as usize {
        return Err(Refusal::LeafList);
    }
    if !are_bits(leaves) {
        return Err(Refusal::LeafByte);
    }
    if room < rows_room(m, t) {
        return Err(Refusal::LogRoom);
    }
    Ok(())
}

// The place of the first active leaf.
fn first_active(leaves: &[u8]) -> Option<usize>
    ensures { result ≡ position is_active leaves.now }
{
    leaves.iter().position(|leaf| *leaf != 0)
}

impl Subtree {
    // The subtree as its stations make it sound.
    #[tactic(auto, using(crate::proofs::LookLaws::heard_nobody, crate::proofs::LookLaws::heard_one, crate::proofs::LookLaws::heard_several))]
    fn look(self, leaves: &[u8]) -> Seen
        requires { (self.first + self.width ≤ length leaves.now) × (length leaves.now ≤ 1024) }
        ensures { result ≡ seen_of (active_in leaves.now self.first self.width) }
    {
        let part = &leaves[self.first..self.first + self.width];
        let Some(at) = first_active(part) else {
            return Seen::Nobody;
        };
        match first_active(&part[at + 1..]) {
            None => Seen::One((self.first + at) as u16),
            Some(_) => Seen::Several,
        }
    }
}

impl Searched {
    // One slot: its row is written behind the others, and counted.
    fn note(self, log: &mut [u8], state: Channel, subtree: Subtree, message: u16) -> Searched
        requires { NoteReady log.old self subtree.first subtree.width }
        ensures { Wrote self log.old (bare_row self.rows state subtree.first subtree.width message ∷ []) result log.new }
    {
        let row = Row {
            slot: self.rows,
            phase: Phase::Bare,
            state,
            first: subtree.first as u16,
            width: subtree.width as u16,
            message,
            used: 1,
        };
        rows::put_row(log, self.rows as usize, row);
        Searched {
            rows: self.rows + 1,
            silences: self.silences + u32::from(state == Channel::Silence),
            collisions: self.collisions + u32::from(state == Channel::Collision),
        }
    }
}

// The search of a subtree, its rows written behind those that were; the width falls with each call.
fn visit(leaves: &[u8], log: &mut [u8], m: usize, subtree: Subtree, before: Searched) -> Searched
    requires { VisitReady leaves.now log.old m subtree.first subtree.width before }
    ensures { Visited leaves.now m subtree.first subtree.width before log.old result log.new }
{
    match subtree.look(leaves) {
        Seen::Nobody => before.note(log, Channel::Silence, subtree, NO_MESSAGE),
        Seen::One(leaf) => before.note(log, Channel::Busy, subtree, leaf),
        Seen::Several => {
            let mut searched = before.note(log, Channel::Collision, subtree, NO_MESSAGE);
            let width = subtree.width / m;
            for j in 0..m {
                let child = Subtree {
                    first: subtree.first + j * width,
                    width,
                };
                searched = visit(leaves, log, m, child, searched);
            }
            searched
        }
    }
}

// A bare search from the root: every slot's row in the log, and how many there were; or a refusal, and the log as it
// came.
#[tactic(auto, using(crate::proofs::VerdictLaws::root_ready))]
pub fn search(m: u32, t: u32, leaves: &[u8], log: &mut [u8]) -> Result<Searched, Refusal>
    ensures { SearchPromise m t leaves.now log.old result log.new }
{
    search_verdict(m, t, leaves, log.len())?;
    let tree = Subtree {
        first: 0,
        width: t as usize,
    };
    Ok(visit(leaves, log, m as usize, tree, Searched::default()))
}
