//! What was searched, found again by what was left there.

ghost use Rattle.std.specs.Prelude.{◌≡◌, ◌≤◌, ◌<◌, ℕ, true, [], IfSome, OnOk, slice_index};
ghost use Rattle.onfi_group.specs.Words.{Pairs};
ghost use Rattle.onfi_demand.specs.Work.{IsShape};
ghost use Rattle.onfi_known_check.specs.Proves.{IsAgain, Remembers};
ghost use Rattle.onfi_known_plan.specs.Codes.{IsCode, coded_operation};
ghost use Rattle.onfi_known_plan.specs.Times.{AreTimes};

use onfi_demand::{Demand, LunLeft, left_on};
use onfi_known_check::Known;
use onfi_problem::Problem;
use onfi_timing::Operation;
use std::alloc::{AllocError, Global};
use std::collections::HashMap;

/// How many nodes with the same left are looked at for one.
const MOST_LOOKS: u32 = 64;

/// An odd number that spreads the sectors of LUNs over all bits of a key: 2^64 by the golden ratio.
const MIX: u64 = 0x9E37_79B9_7F4A_7C15;

/// The nodes that a walk is done with, in the order in which they ended.
#[derive(Drop)]
pub struct Records {
    pub nodes: Vec<Known>,
    /// For each node the one before it with the same left.
    older: Vec<Option<u32>>,
    /// The last node to which the same is left, by its key.
    newest: HashMap<u64, u32>,
}

/// A node that closes another: its number, and what it asks for.
#[derive(Clone, Copy)]
pub struct Hit {
    pub number: u32,
    pub demand: Demand,
}

impl Records {
    /// No node yet.
    pub fn new(alloc: Global) -> Records
        ensures { result.nodes.items ≡ [] }
    {
        Records {
            nodes: Vec::new(alloc),
            older: Vec::new(alloc),
            newest: HashMap::new(alloc),
        }
    }

    /// A node to which the same is left and of which no more is asked than the problem meets, the last one first.
    pub fn find(&self, problem: &Problem) -> Option<Hit>
        requires { Pairs (λ a b. a.id < b.id) problem.now.all }
        ensures { IfSome result (λ hit. IsAgain problem.now.all problem.now.problem self.now.nodes.items hit.number hit.demand) }
    {
        let mut next = self.newest.get(&key_of(problem)).copied();
        let times = times_on(problem);
        for _ in 0..MOST_LOOKS {
            let number = next?;
            if let Some(demand) = self.demand_of(problem, &times, number) {
                return Some(Hit { number, demand });
            }
            next = *self.older.get(number as usize)?;
        }
        None
    }

    // What the node of that number asks for, where the same is left there and the problem, whose LUNs may go on from
    // these times on, meets it.
    fn demand_of(&self, problem: &Problem, times: &[u64; 8], number: u32) -> Option<Demand>
        requires rising { Pairs (λ a b. a.id < b.id) problem.now.all }
        requires times { AreTimes problem.now.problem times.now }
        ensures { IfSome result (IsAgain problem.now.all problem.now.problem self.now.nodes.items number) }
    {
        problem.in_limits();
        let node = self.nodes.get(number as usize)?;
        if !are_met(times, &node.times) || !node.describes(problem) {
            return None;
        }
        Some(Demand {
            bus: 0,
            luns: node.times,
        })
    }

    /// Keeps a node that has ended, with what it asks of each LUN, in ns.
    ///
    /// # Errors
    /// Only where memory was refused.
    pub fn keep(&mut self, problem: &Problem, times: [u64; 8]) -> Result<(), AllocError>
        ensures { OnOk result (Remembers problem.now.all problem.now.problem times self.old.nodes.items self.new.nodes.items (record { bus = 0; luns = times })) }
    {
        let Ok(number) = u32::try_from(self.nodes.len()) else {
            return Err(AllocError);
        };
        let Ok(older) = self.newest.insert(key_of(problem), number) else {
            return Err(AllocError);
        };
        self.older.push(older)?;
        self.nodes.push(Known::of(problem, times))?;
        Ok(())
    }
}

// From when on each LUN may go on, in ns.
fn times_on(problem: &Problem) -> [u64; 8]
    ensures { AreTimes problem.now.problem result }
{
    let mut times = [0; 8];
    for lun in 0..problem.lun_count() {
        times[lun] = problem.may_go(lun as u8);
    }
    times
}

// Whether no LUN may go on sooner than is asked, in ns; also where nothing is left to it.
fn are_met(times: &[u64; 8], asked: &[u64; 8]) -> bool
    ensures { result ≡ true → (lun : ℕ) → lun < 8 → slice_index asked.now lun ≤ slice_index times.now lun }
{
    let mut met = true;
    for lun in 0..8usize {
        met = met && asked[lun] <= times[lun];
    }
    met
}

// A number that is the same where the same is left: seven bits for each LUN, and a bit for each want, with the sectors mixed in.
// Without sectors it is the same nowhere else; who looks a node up compares all.
fn key_of(problem: &Problem) -> u64 {
    let (mut key, mut mixed) = (0u64, 0u64);
    for lun in 0..problem.lun_count() as u8 {
        let left = left_on(problem, lun);
        key = key.wrapping_mul(128).wrapping_add(code_of(left));
        mixed = mixed.wrapping_mul(MIX).wrapping_add(sectors_of(left));
    }
    with_marks(key, problem.waiting()) ^ mixed.wrapping_mul(MIX)
}

// The sectors of the posts that are left to a LUN, a byte for each.
fn sectors_of(left: LunLeft) -> u64 {
    match left {
        LunLeft::Idle => 0,
        LunLeft::Rest { sectors, .. } => u64::from(u32::from_le_bytes(sectors)),
    }
}

fn with_marks(key: u64, marks: &[bool; 8]) -> u64 {
    let mut key = key;
    for i in 0..8usize {
        key = key.wrapping_mul(2).wrapping_add(marks[i] as u64);
    }
    key
}

// A number of seven bits that says what a LUN has left, but for sectors.
fn code_of(left: LunLeft) -> u64
    requires { IsShape left }
    ensures small { result < 128 }
    ensures told { IsCode result left }
{
    match left {
        LunLeft::Idle => 0,
        LunLeft::Rest {
            operation,
            members,
            next,
            ..
        } => place_of(operation) + 4 * (members as u64 - 1 + 4 * next as u64),
    }
}

fn place_of(operation: Operation) -> u64
    ensures some { 1 ≤ result }
    ensures few { result ≤ 3 }
    ensures told { coded_operation result ≡ operation }
{
    match operation {
        Operation::Read => 1,
        Operation::Program => 2,
        Operation::Erase => 3,
    }
}
