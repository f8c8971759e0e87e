ghost use Rattle.std.specs.Prelude.{◌≡◌, ◌+◌, ◌≤◌, ◌<◌, ◌++◌, ◌∷◌, [], length, IsTrue};
ghost use Rattle.std.specs.List.{AllByRecursion as Each};
ghost use Rattle.onfi_timing.specs.declared.timing.Timing.{Timing as AnyTiming};
ghost use Rattle.onfi_group.specs.declared.rules.Rules.{Rules as AnyRules};
ghost use Rattle.onfi_problem.specs.Problem.{IsWant};
ghost use Rattle.onfi_problem.specs.Position.{waiting_of};
ghost use Rattle.onfi_bound.specs.Loads.{IsLoad, IsShortLoad, IsLoadBefore};

use crate::left::{Sums, list_marked};
use crate::waits::wait_of;
use arrayvec::ArrayVec;
use onfi_group::Rules;
use onfi_problem::Problem;
use onfi_request::Want;
use onfi_timing::Timing;

/// What some of a problem's wants take, in ns.
#[derive(Clone, Copy)]
pub struct Load {
    /// Which of the wants that the problem began with these are.
    pub marks: [bool; 8],
    pub sums: Sums,
    /// For each LUN that has such wants the least command and array of one.
    pub firsts: [u64; 8],
    /// For each LUN how long its wants take at least: commands, posts and waits; 0 where it has none.
    pub work: [u64; 8],
}

impl Load {
    /// What no want takes.
    pub fn none(marks: &[bool; 8]) -> Load
        ensures load { (timing : AnyTiming) (rules : AnyRules) → IsShortLoad timing rules [] result }
        ensures marks { result.marks ≡ marks.now }
    {
        Load {
            marks: *marks,
            sums: Sums::none(),
            firsts: [0; 8],
            work: [0; 8],
        }
    }

    /// What the marked wants take.
    pub fn of(problem: &Problem, marks: &[bool; 8]) -> Load
        requires wants { Each IsWant (waiting_of marks.now problem.now.all) }
        requires luns { Each (λ w. w.lun < 8) (waiting_of marks.now problem.now.all) }
        ensures load { IsLoad problem.now.problem.timing problem.now.problem.rules (waiting_of marks.now problem.now.all) result }
        ensures marks { result.marks ≡ marks.now }
    {
        let mut wants = ArrayVec::new();
        list_marked(problem.wants(), marks, &mut wants);
        let (timing, rules) = (problem.timing(), problem.rules());
        Load::none(marks).with_all(timing, &rules, &wants)
    }

    // What these wants take, where nothing was taken before.
    fn with_all(self, timing: &Timing, rules: &Rules, wants: &[Want]) -> Load
        requires load { IsShortLoad timing.now rules.now [] self }
        requires wants { Each IsWant wants.now }
        requires luns { Each (λ w. w.lun < 8) wants.now }
        requires few { length wants.now ≤ 8 }
        ensures load { IsShortLoad timing.now rules.now wants.now result }
        ensures marks { result.marks ≡ self.marks }
    {
        let mut load = self;
        for (i, want) in wants.iter().enumerate() {
            load.add(timing, rules, &wants[..i], want);
        }
        load
    }

    /// The want of that number too, where it waits; none of that number or a greater one was among them.
    pub fn add_number(&mut self, problem: &Problem, number: usize)
        requires number { number < length problem.now.all }
        requires load { IsLoadBefore problem.now number self.old }
        ensures { IsLoadBefore problem.now (number + 1) self.new }
    {
        problem.in_limits();
        let (wants, waits) = (problem.wants(), problem.waiting()[number]);
        if !waits {
            return;
        }
        let mut before = ArrayVec::new();
        list_marked(wants, &self.marks, &mut before);
        let (timing, rules) = (problem.timing(), problem.rules());
        self.add(timing, &rules, &before, &wants[number]);
        self.marks[number] = true;
    }

    // One want more, after those whose load it was.
    fn add(&mut self, timing: &Timing, rules: &Rules, before: &[Want], want: &Want)
        requires load { IsShortLoad timing.now rules.now before.now self.old }
        requires few { length before.now ≤ 8 }
        requires want { IsWant want.now }
        requires lun { want.now.lun < 8 }
        ensures load { IsShortLoad timing.now rules.now (before.now ++ want.now ∷ []) self.new }
        ensures marks { self.new.marks ≡ self.old.marks }
    {
        let (lun, spans) = (want.lun as usize, timing.spans(want.kind));
        let wait = wait_of(&spans, rules, before, want);
        let to_post = spans.cmd + spans.array;
        self.firsts[lun] = if self.work[lun] == 0 {
            to_post
        } else {
            to_post.min(self.firsts[lun])
        };
        self.sums = self.sums.with_want(&spans, want.kind.operation());
        self.work[lun] += spans.cmd + spans.post + wait;
    }

    /// Whether it is of the wants with these marks. All are compared, which takes less than to stop at the first that
    /// differs.
    pub fn is_of(&self, marks: &[bool; 8]) -> bool
        ensures { IsTrue result → self.now.marks ≡ marks.now }
    {
        let mut same = true;
        for i in 0..8usize {
            same &= self.marks[i] == marks[i];
        }
        same
    }
}
