//! A dispatcher of a problem.
ghost use Rattle.std.specs.Prelude.{◌≡◌, ◌≤◌, None, [], length};
ghost use Rattle.onfi_steady.specs.Dispatcher.{IsOf, states_of};
ghost use Rattle.onfi_steady.specs.Rule.{IsFor, batch_of};

use super::Dispatcher;
use arrayvec::ArrayVec;
use onfi_flight::Flight;
use onfi_problem::Problem;
use onfi_request::Want;
use onfi_schedule::Schedule;
use std::alloc::Global;

impl Dispatcher {
    /// Begins anew with the channel that a problem is: what is to do waits, and no program is the newest, so that none waits for its
    /// mates.
    pub fn begin_batch(&mut self, alloc: Global, problem: &Problem)
        ensures { IsFor problem.now.problem (batch_of problem.now.problem) self.new }
    {
        problem.in_limits();
        let none = Schedule::new(ArrayVec::new(), ArrayVec::new_in(alloc));
        let flight = Flight::of(problem, &none);
        self.begin(
            problem.timing(),
            problem.rules(),
            problem.bus_free(),
            flight.luns(),
        );
        self.accept_batch(problem, flight.wants());
    }

    // Takes in the wants of a problem, and forgets which program is the newest.
    fn accept_batch(&mut self, problem: &Problem, wants: &[Want])
        requires wants { wants.now ≡ problem.now.problem.wants }
        requires few { length wants.now ≤ 8 }
        requires is { IsOf problem.now.problem.timing (record { rules = problem.now.problem.rules; waiting = []; newest = None }) self.old }
        requires states { states_of self.old ≡ problem.now.problem.luns }
        ensures is { IsOf problem.now.problem.timing (batch_of problem.now.problem) self.new }
        ensures states { states_of self.new ≡ states_of self.old }
        ensures bus_free { self.new.bus_free ≡ self.old.bus_free }
    {
        problem.in_limits();
        for want in wants {
            let _ = self.accept(*want);
        }
        self.newest.is_there = false;
    }
}
