//! What a walk has seen, so that it doesn't look again where it can find nothing cheaper.

ghost use Rattle.std.specs.Prelude.{◌≡◌, ◌<◌, []};

use onfi_problem::Problem;
use std::alloc::{AllocError, Global};
use std::collections::HashMap;

/// How many nodes with the same left are looked at.
const MOST_LOOKS: u32 = 64;

/// A node: from when on each LUN may go on, in ns, and what the posts before it cost.
#[derive(Clone, Copy)]
pub struct Node {
    /// A number that is the same where the same is left, and hardly else.
    key: u64,
    times: [u64; 8],
    cost: u128,
    /// The node before it with the same left.
    older: Option<u32>,
}

impl Node {
    /// The node of a problem as it stands, before which posts cost `cost`.
    pub fn of(problem: &Problem, cost: u128) -> Node {
        Node {
            key: key_of(problem),
            times: times_of(problem),
            cost,
            older: None,
        }
    }
}

/// The nodes that a walk has opened.
#[derive(Drop)]
pub struct Seen {
    nodes: Vec<Node>,
    /// The last node to which the same is left, by its key.
    newest: HashMap<u64, u32>,
}

impl Seen {
    /// No node yet.
    pub fn new(alloc: Global) -> Seen
        ensures { result.nodes.items ≡ [] }
    {
        Seen {
            nodes: Vec::new(alloc),
            newest: HashMap::new(alloc),
        }
    }

    /// Whether a node was seen that no run from this one can be better than.
    pub fn has_better(&self, than: &Node) -> bool {
        let mut next = self.newest.get(&than.key).copied();
        for _ in 0..MOST_LOOKS {
            let Some(number) = next else {
                return false;
            };
            let Some(node) = self.nodes.get(number as usize) else {
                return false;
            };
            if node.cost <= than.cost && are_no_later(&node.times, &than.times) {
                return true;
            }
            next = node.older;
        }
        false
    }

    /// Keeps a node.
    ///
    /// # Errors
    /// Only where memory was refused.
    pub fn keep(&mut self, node: Node) -> Result<(), AllocError> {
        let Ok(number) = u32::try_from(self.nodes.len()) else {
            return Err(AllocError);
        };
        let Ok(older) = self.newest.insert(node.key, number) else {
            return Err(AllocError);
        };
        self.nodes.push(Node { older, ..node })?;
        Ok(())
    }
}

// Whether each of the times is no later than the other.
fn are_no_later(times: &[u64; 8], others: &[u64; 8]) -> bool {
    for lun in 0..8usize {
        if times[lun] > others[lun] {
            return false;
        }
    }
    true
}

// From when on each LUN may go on, in ns; 0 where nothing is left to it.
fn times_of(problem: &Problem) -> [u64; 8] {
    let wanted = luns_of_wants(problem);
    let mut times = [0; 8];
    for (lun, state) in problem.luns().iter().enumerate() {
        if state.next > 0 || wanted[lun] {
            times[lun] = problem.bus_free().max(state.time);
        }
    }
    times
}

// Which LUNs have a want that waits.
fn luns_of_wants(problem: &Problem) -> [bool; 8] {
    let waiting = problem.waiting();
    let mut wanted = [false; 8];
    for (at, want) in problem.wants().iter().enumerate() {
        if waiting[at] {
            wanted[(want.lun % 8) as usize] = true;
        }
    }
    wanted
}

// A number that is the same where the same is left, and hardly else.
fn key_of(problem: &Problem) -> u64 {
    let mut key = 0u64;
    for state in problem.luns() {
        let code = if state.next == 0 {
            0
        } else {
            state.place as u64 * 8 + state.next as u64
        };
        key = mix_code(key, code);
    }
    mix_code(key, pack_marks(problem.waiting()))
}

// The marks as the bits of a number.
fn pack_marks(marks: &[bool; 8]) -> u64 {
    let mut number = 0u64;
    for mark in marks {
        number = number.wrapping_mul(2) | *mark as u64;
    }
    number
}

fn mix_code(key: u64, code: u64) -> u64 {
    let key = (key ^ code).wrapping_mul(0x9E37_79B9_7F4A_7C15);
    key ^ key >> 29
}
