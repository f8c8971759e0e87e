//! What a problem says of itself, without memory.

ghost use Rattle.std.specs.Prelude.{◌≡◌, ◌≤◌, ◌<◌, ◌^◌, [], length, map, slice_index_or};
ghost use Rattle.onfi_problem.specs.Left.{InLimits};
ghost use Rattle.onfi_problem.specs.Position.{waiting_of, state_of};

use super::Problem;
use crate::moves::Lun;
use onfi_group::{Group, Rules};
use onfi_request::Want;
use onfi_timing::Timing;

impl Problem {
    /// The phase lengths of the channel.
    pub fn timing(&self) -> &Timing
        ensures { result.now ≡ self.now.problem.timing }
    {
        &self.timing
    }

    /// What may be grouped.
    pub fn rules(&self) -> Rules
        ensures { result ≡ self.now.problem.rules }
    {
        self.rules
    }

    /// States that each number of the problem is within its limits. It is a fact for proofs: nothing is done.
    pub fn in_limits(&self)
        ensures limits { InLimits self.now.problem }
    {
        let _ = &self.bus_free;
    }

    /// From when on the bus is free, in ns, below 2^62.
    pub fn bus_free(&self) -> u64
        ensures value { result ≡ self.now.problem.bus_free }
        ensures limits { InLimits self.now.problem }
        ensures small { result < 2 ^ 62 }
    {
        self.bus_free
    }

    /// How many LUNs there are, 1 to 8.
    pub fn lun_count(&self) -> usize
        ensures value { result ≡ length self.now.problem.luns }
        ensures some { 1 ≤ result }
        ensures few { result ≤ 8 }
    {
        self.luns.len()
    }

    /// What each LUN does, in numbers.
    pub fn luns(&self) -> &[Lun]
        ensures states { map (state_of self.now.groups) result.now ≡ self.now.problem.luns }
        ensures some { 1 ≤ length result.now }
        ensures few { length result.now ≤ 8 }
    {
        self.luns.as_slice()
    }

    /// All wants that the problem began with.
    pub fn wants(&self) -> &[Want]
        ensures value { result.now ≡ self.now.all }
        ensures few { length result.now ≤ 8 }
    {
        self.wants.as_slice()
    }

    /// Which of `wants` wait: those of the problem as it stands. Entries past the last want mean nothing.
    pub fn waiting(&self) -> &[bool; 8]
        ensures value { waiting_of result.now self.now.all ≡ self.now.problem.wants }
    {
        &self.waiting
    }

    /// The groups that moves and running LUNs name by place.
    pub fn groups(&self) -> &[Group]
        ensures value { result.now ≡ self.now.groups }
    {
        self.groups.as_slice()
    }

    /// The group at a place that a move or a running LUN names.
    pub fn group(&self, place: u8) -> &Group
        requires { 1 ≤ length (slice_index_or self.now.groups place []) }
        ensures { result.now ≡ slice_index_or self.now.groups place [] }
    {
        &self.groups[place as usize]
    }
}
