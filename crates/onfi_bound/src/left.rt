ghost use Rattle.std.specs.Prelude.{◌≡◌, ◌+◌, ◌*◌, ◌^◌, ◌<◌, ◌≤◌, length, map, if◌then◌else◌, true, false, []};
ghost use Rattle.std.specs.List.{AllByRecursion as Each, list_any};
ghost use Rattle.onfi_timing.specs.Kinds.{operation_of};
ghost use Rattle.onfi_timing.specs.declared.operation.Operation.{Operation as AnyOperation};
ghost use Rattle.onfi_group.specs.Words.{total};
ghost use Rattle.onfi_problem.specs.Position.{state_of, waiting_of};
ghost use Rattle.onfi_problem.specs.Left.{want_command, want_post, InLimits};
ghost use Rattle.onfi_bound.specs.Bounds.{same_operation};
ghost use Rattle.onfi_bound.specs.Parts.{chain_of, has_operation, is_operation, IsShort, IsLeft};

use crate::chain::Chain;
use crate::operations::Operations;
use arrayvec::ArrayVec;
use onfi_group::Group;
use onfi_problem::{Lun, Problem};
use onfi_request::Want;
use onfi_timing::{Operation, Spans, Timing};

/// Sums over all LUNs of what is left, in ns.
#[derive(Clone, Copy)]
pub struct Sums {
    /// All commands that are left.
    pub commands: u64,
    /// All posts that are left.
    pub posts: u64,
    /// The operations of which a command is left.
    pub operations: Operations,
}

impl Sums {
    /// Nothing is left.
    pub fn none() -> Sums
        ensures commands { result.commands ≡ 0 }
        ensures posts { result.posts ≡ 0 }
        ensures operations { (operation : AnyOperation) → has_operation result.operations operation ≡ false }
    {
        Sums {
            commands: 0,
            posts: 0,
            operations: Operations::none(),
        }
    }

    /// What is left of running groups.
    fn of_chains(chains: &[Chain]) -> Sums
        requires short { Each IsShort chains.now }
        requires few { length chains.now ≤ 8 }
        ensures commands { result.commands ≡ total (λ c. c.commands) chains.now }
        ensures posts { result.posts ≡ total (λ c. c.posts) chains.now }
        ensures operations { (operation : AnyOperation) → has_operation result.operations operation ≡ list_any (λ c. is_operation operation c.command) chains.now }
        ensures commands_short { result.commands ≤ 2 ^ 55 }
        ensures posts_short { result.posts ≤ 2 ^ 55 }
    {
        let mut sums = Sums::none();
        for chain in chains {
            sums = sums.with_chain(*chain);
        }
        sums
    }

    /// One more running group.
    pub fn with_chain(self, chain: Chain) -> Sums
        requires commands { self.commands + chain.commands < 2 ^ 64 }
        requires posts { self.posts + chain.posts < 2 ^ 64 }
        ensures commands { result.commands ≡ self.commands + chain.commands }
        ensures posts { result.posts ≡ self.posts + chain.posts }
        ensures operations { (operation : AnyOperation) → has_operation result.operations operation ≡ (if has_operation self.operations operation then true else is_operation operation chain.command) }
    {
        let operations = match chain.command {
            Some(operation) => self.operations.with(operation),
            None => self.operations,
        };
        Sums {
            commands: self.commands + chain.commands,
            posts: self.posts + chain.posts,
            operations,
        }
    }

    /// These and what is left of wants.
    pub fn with_wants(self, timing: &Timing, wants: &[Want]) -> Sums
        requires few { length wants.now ≤ 8 }
        requires commands { self.commands ≤ 2 ^ 55 }
        requires posts { self.posts ≤ 2 ^ 55 }
        ensures commands { result.commands ≡ self.commands + total (want_command timing.now) wants.now }
        ensures posts { result.posts ≡ self.posts + total (want_post timing.now) wants.now }
        ensures operations { (operation : AnyOperation) → has_operation result.operations operation ≡ (if has_operation self.operations operation then true else list_any (λ w. same_operation operation (operation_of w.kind)) wants.now) }
    {
        let mut sums = self;
        for want in wants {
            sums = sums.with_want(&timing.spans(want.kind), want.kind.operation());
        }
        sums
    }

    /// One want more, of that operation and with these phase lengths.
    pub fn with_want(self, spans: &Spans, operation: Operation) -> Sums
        requires commands { self.commands + spans.now.cmd < 2 ^ 64 }
        requires posts { self.posts + spans.now.post < 2 ^ 64 }
        ensures commands { result.commands ≡ self.commands + spans.now.cmd }
        ensures posts { result.posts ≡ self.posts + spans.now.post }
        ensures operations { (of : AnyOperation) → has_operation result.operations of ≡ (if has_operation self.operations of then true else same_operation of operation) }
    {
        Sums {
            commands: self.commands + spans.cmd,
            posts: self.posts + spans.post,
            operations: self.operations.with(operation),
        }
    }
}

/// What is left to a problem, side by side, from which its bounds are read.
#[derive(Drop)]
pub struct Left {
    /// From when on the bus is free, in ns.
    pub bus_free: u64,
    /// What is left of running groups, by LUN.
    pub chains: ArrayVec<Chain, 8>,
    /// The wants that wait.
    pub wants: ArrayVec<Want, 8>,
    pub sums: Sums,
}

impl Left {
    /// What is left to a problem.
    pub fn of(problem: &Problem) -> Left
        ensures { IsLeft problem.now.problem result }
    {
        let mut left = Left::new(problem);
        left.read(problem);
        left
    }

    /// Nothing is read yet but when the bus is free.
    pub fn new(problem: &Problem) -> Left
        ensures limits { InLimits problem.now.problem }
        ensures bus_free { result.bus_free ≡ problem.now.problem.bus_free }
        ensures chains { result.chains.items ≡ [] }
        ensures wants { result.wants.items ≡ [] }
    {
        Left {
            bus_free: problem.bus_free(),
            chains: ArrayVec::new(),
            wants: ArrayVec::new(),
            sums: Sums::none(),
        }
    }

    /// Reads what is left to a problem. The lists are filled where they stand, since they are long to copy.
    pub fn read(&mut self, problem: &Problem)
        requires limits { InLimits problem.now.problem }
        requires bus_free { self.old.bus_free ≡ problem.now.problem.bus_free }
        requires chains { self.old.chains.items ≡ [] }
        requires wants { self.old.wants.items ≡ [] }
        ensures { IsLeft problem.now.problem self.new }
    {
        let timing = problem.timing();
        list_chains(timing, problem.groups(), problem.luns(), &mut self.chains);
        list_marked(problem.wants(), problem.waiting(), &mut self.wants);
        self.sums = Sums::of_chains(&self.chains).with_wants(timing, &self.wants);
    }
}

/// Lists the marked ones of some wants.
pub fn list_marked(all: &[Want], marks: &[bool; 8], wants: &mut ArrayVec<Want, 8>)
    requires empty { wants.old.items ≡ [] }
    requires few { length all.now ≤ 8 }
    ensures wants { wants.new.items ≡ waiting_of marks.now all.now }
    ensures few { length wants.new.items ≤ 8 }
{
    for (i, want) in all.iter().enumerate() {
        if marks[i] {
            wants.push(*want);
        }
    }
}

/// Lists what is left of each LUN's running group.
fn list_chains(timing: &Timing, groups: &[Group], luns: &[Lun], chains: &mut ArrayVec<Chain, 8>)
    requires empty { chains.old.items ≡ [] }
    requires few { length luns.now ≤ 8 }
    requires placed { Each (λ lun. 1 ≤ lun.next → lun.place < length groups.now) luns.now }
    ensures { chains.new.items ≡ map (chain_of timing.now) (map (state_of groups.now) luns.now) }
{
    for lun in luns {
        chains.push(Chain::of(timing, groups, *lun));
    }
}
