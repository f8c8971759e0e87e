//! What a run costs at least after each move of a node. No sum wraps: all times of a problem are below 2^62 ns.

ghost use Rattle.std.specs.Prelude.{◌≡◌, ◌<◌, ◌≤◌, ◌^◌};

use crate::aim::Aim;
use crate::line::Line;
use onfi_group::Group;
use onfi_problem::{Lun, Move, Problem};
use onfi_request::Want;
use onfi_timing::{Operation, Spans};

/// What is left to each LUN at a node, and room for what is left after a move.
#[derive(Drop)]
pub struct Floor {
    luns: [Rest; 8],
    /// What all posts cost at least.
    cost: u128,
    reads: Line,
    programs: Line,
    erases: Line,
}

/// A move of a node, whose phase starts and ends then, in ns.
#[derive(Clone, Copy)]
pub struct Phase {
    pub step: Move,
    pub start: u64,
    pub end: u64,
}

impl Floor {
    /// What is left at a problem.
    pub fn new(problem: &Problem, aim: &Aim) -> Floor {
        let mut luns = [Rest::none(0); 8];
        for (lun, state) in problem.luns().iter().enumerate() {
            luns[lun] = Rest::of(problem, aim, lun as u8, *state);
        }
        Floor {
            luns,
            cost: 0,
            reads: Line::new(shortest_read(problem, aim)),
            programs: Line::new(aim.timing.program),
            erases: Line::new(aim.timing.erase),
        }
    }

    /// What is left to a LUN.
    pub fn rest_of(&self, lun: u8) -> Rest {
        self.luns[(lun % 8) as usize]
    }

    /// Puts what is left to a LUN.
    pub fn put(&mut self, lun: u8, rest: Rest) {
        self.luns[(lun % 8) as usize] = rest;
    }

    /// Looks at a node from which a move of that LUN was made.
    pub fn look_at(&mut self, problem: &Problem, aim: &Aim, lun: u8) {
        if let Some(state) = problem.luns().get(lun as usize) {
            self.put(lun, Rest::of(problem, aim, lun, *state));
        }
        let bus_free = problem.bus_free();
        self.cost = 0;
        for lun in 0..problem.lun_count() {
            let rest = self.luns[lun];
            let cost = rest.cost_from(rest.ready.max(bus_free));
            self.cost = self.cost.wrapping_add(cost);
        }
    }

    /// What all posts cost at least at the node that was looked at, each phase as early as its LUN and the bus let it.
    pub fn cost(&self) -> u128
        ensures { result ≡ self.now.cost }
    {
        self.cost
    }

    /// A move of the node as the phase that it runs.
    pub fn phase_of(&self, problem: &Problem, aim: &Aim, step: Move) -> Phase {
        let rest = &self.luns[(step.lun() % 8) as usize];
        let start = rest.ready.max(problem.bus_free());
        let length = match step {
            Move::Next { .. } => rest.phase,
            Move::Start { place, .. } => aim.command(place),
        };
        Phase {
            step,
            start,
            end: start.wrapping_add(length),
        }
    }

    /// The weight of the request whose post a move of the node is; 0 where it is a command.
    pub fn weight_of(&self, aim: &Aim, step: Move) -> u16 {
        let posts = self.luns[(step.lun() % 8) as usize].posts;
        match step {
            Move::Next { .. } if posts.is_next() => aim.weight(posts.place, posts.member as usize),
            _ => 0,
        }
    }

    /// What all posts cost at least where a move of the node goes next: each phase as early as its LUN lets it, those of
    /// other LUNs after that phase. What is left to its own LUN ends as it would, but after a start.
    pub fn cost_apart(&self, problem: &Problem, aim: &Aim, phase: Phase) -> u128 {
        let own = phase.step.lun() as usize;
        let bus_free = problem.bus_free();
        let mut cost = self.cost_of_start(problem, aim, phase.step);
        for lun in 0..problem.lun_count() {
            let from = self.luns[lun].ready.max(bus_free);
            if phase.end > from && lun != own {
                let late = (phase.end - from) as u128 * self.luns[lun].weights as u128;
                cost = cost.wrapping_add(late);
            }
        }
        cost.wrapping_add(self.cost)
    }

    // By how much the posts of a LUN cost more where a group starts than where each want had the LUN to itself; 0 where the
    // move starts none.
    fn cost_of_start(&self, problem: &Problem, aim: &Aim, step: Move) -> u128 {
        let Move::Start { lun, place } = step else {
            return 0;
        };
        let Some(group) = problem.groups().get(place as usize) else {
            return 0;
        };
        let (spans, members) = (aim.timing.spans(group.kind()), group.len() as u8);
        let mut late = (members as u64 - 1) * (spans.cmd + spans.gap);
        let mut others = self.rest_of(lun).weights;
        let (mut more, mut posts) = (0u128, 0u64);
        for member in 0..members {
            let weight = aim.weight(place, member as usize);
            more = more.wrapping_add(weight as u128 * late as u128);
            let post = post_of(aim, group, member);
            (late, posts) = (late.wrapping_add(post), posts.wrapping_add(post));
            others = others.saturating_sub(weight as u64);
        }
        let takes = commands_left(&spans, members).wrapping_add(posts);
        more.wrapping_add(others as u128 * takes as u128)
    }

    /// By how much the posts cost more after a move of the node where those of an operation take the bus one after another, and
    /// so do its commands.
    pub fn more_in_line(&mut self, problem: &Problem, aim: &Aim, phase: Phase) -> u128 {
        self.reads.clear();
        self.programs.clear();
        self.erases.clear();
        let mut free = [0; 8];
        self.line_up_others(problem, phase, &mut free);
        free[(phase.step.lun() % 8) as usize] = self.line_up_own(problem, aim, phase);
        let started = match phase.step {
            Move::Next { .. } => [false; 8],
            Move::Start { place, .. } => aim.wants_of(place),
        };
        self.line_up_wants(problem, aim, &started, &free);
        self.reads
            .more_in_line()
            .wrapping_add(self.programs.more_in_line())
            .wrapping_add(self.erases.more_in_line())
    }

    // The posts of the groups that run on other LUNs, and from when on each is free, in ns.
    fn line_up_others(&mut self, problem: &Problem, phase: Phase, free: &mut [u64; 8]) {
        let own = phase.step.lun() as usize;
        for lun in 0..problem.lun_count() {
            if lun != own {
                let rest = self.luns[lun];
                let from = rest.ready.max(phase.end);
                free[lun] = from.wrapping_add(rest.busy);
                self.line_up(rest.posts, from);
            }
        }
    }

    // The posts that are left to the move's own LUN; from when on it is free, in ns.
    fn line_up_own(&mut self, problem: &Problem, aim: &Aim, phase: Phase) -> u64 {
        let rest = self.rest_of(phase.step.lun());
        let (posts, busy) = match phase.step {
            Move::Next { .. } if rest.posts.is_next() => {
                (rest.posts.skip_first(aim, rest.phase), rest.busy)
            }
            Move::Next { .. } => (rest.posts, rest.busy),
            Move::Start { place, .. } => list_started(problem, aim, place),
        };
        self.line_up(posts, phase.start);
        phase.start.wrapping_add(busy)
    }

    // The posts of a group whose LUN goes on then.
    fn line_up(&mut self, posts: Posts, from: u64) {
        if posts.left > 0 {
            let start = from.wrapping_add(posts.wait);
            self.line_of(posts.operation)
                .add_posts(start, posts.left, posts.least);
        }
    }

    // The wants that wait and aren't started.
    fn line_up_wants(
        &mut self,
        problem: &Problem,
        aim: &Aim,
        started: &[bool; 8],
        free: &[u64; 8],
    ) {
        let waiting = problem.waiting();
        for (at, want) in problem.wants().iter().enumerate() {
            if waiting[at] && !started[at] {
                let free = free[(want.lun % 8) as usize];
                self.line_of(want.kind.operation())
                    .add_want(free, aim.wants[at]);
            }
        }
    }

    fn line_of(&mut self, operation: Operation) -> &mut Line {
        match operation {
            Operation::Read => &mut self.reads,
            Operation::Program => &mut self.programs,
            Operation::Erase => &mut self.erases,
        }
    }
}

// The lengths of the problem's read whose post is the shortest, so that no line of reads is too long; of a page where it has none.
fn shortest_read(problem: &Problem, aim: &Aim) -> Spans {
    let mut shortest = None;
    for want in problem.wants() {
        shortest = shorter(shortest, aim, want);
    }
    for state in problem.luns() {
        if state.next > 0
            && let Some(group) = problem.groups().get(state.place as usize)
        {
            shortest = shorter_of(shortest, aim, group);
        }
    }
    shortest.unwrap_or(aim.timing.read)
}

// The shortest read of a group or of those before.
fn shorter_of(before: Option<Spans>, aim: &Aim, group: &Group) -> Option<Spans> {
    let mut shortest = before;
    for member in group.members() {
        shortest = shorter(shortest, aim, member);
    }
    shortest
}

// The shorter of a want and those before, where it is a read.
fn shorter(before: Option<Spans>, aim: &Aim, want: &Want) -> Option<Spans> {
    if want.kind.operation() != Operation::Read {
        return before;
    }
    let own = aim.timing.spans(want.kind);
    match before {
        Some(spans) if spans.post <= own.post => before,
        _ => Some(own),
    }
}

// The posts of a group that starts, and how long the whole group takes, in ns.
fn list_started(problem: &Problem, aim: &Aim, place: u8) -> (Posts, u64) {
    let Some(group) = problem.groups().get(place as usize) else {
        return (Posts::none(), 0);
    };
    let posts = Posts::of(&aim.timing.spans(group.kind()), aim, group, place, 0);
    let mut busy = posts.wait;
    for member in 0..posts.left {
        busy = busy.wrapping_add(post_of(aim, group, member));
    }
    (posts, busy)
}

/// What is left to a LUN, each phase as early as the LUN lets it.
#[derive(Clone, Copy)]
pub struct Rest {
    /// From when on the LUN may go on, but for the bus, in ns.
    pub ready: u64,
    /// How long from when it goes on the next phase of its group takes, and the whole group, in ns; 0 where it runs none.
    pub phase: u64,
    pub busy: u64,
    /// The posts of its group.
    pub posts: Posts,
    /// The sum of the weights of all posts that are left to it, and what they cost from when it goes on.
    pub weights: u64,
    pub cost: u128,
}

/// The posts that are left of a group.
#[derive(Clone, Copy)]
pub struct Posts {
    pub operation: Operation,
    pub place: u8,
    /// How many are left, of which member the first is, and the least of their weights.
    pub left: u8,
    pub member: u8,
    pub least: u16,
    /// How long from when the LUN goes on the first waits, in ns.
    pub wait: u64,
}

impl Rest {
    // Nothing, on a LUN that is ready then.
    fn none(ready: u64) -> Rest {
        Rest {
            ready,
            phase: 0,
            busy: 0,
            posts: Posts::none(),
            weights: 0,
            cost: 0,
        }
    }

    // What is left to a LUN of its group and of the wants that wait.
    fn of(problem: &Problem, aim: &Aim, lun: u8, state: Lun) -> Rest {
        let mut rest = Rest::none(state.time);
        if state.next > 0
            && let Some(group) = problem.groups().get(state.place as usize)
        {
            rest.add_group(aim, group, state.place, state.next);
        }
        rest.add_wants(problem, aim, lun);
        rest
    }

    // The group at a place, from phase `next` on.
    fn add_group(&mut self, aim: &Aim, group: &Group, place: u8, next: u8) {
        let spans = aim.timing.spans(group.kind());
        self.posts = Posts::of(&spans, aim, group, place, next);
        self.phase = if self.posts.wait == 0 {
            post_of(aim, group, self.posts.member)
        } else {
            spans.cmd
        };
        self.busy = self.posts.wait;
        for member in self.posts.member..self.posts.member.saturating_add(self.posts.left) {
            self.busy = self.busy.wrapping_add(post_of(aim, group, member));
            self.count(self.busy, aim.weight(place, member as usize));
        }
    }

    // The wants of the LUN that wait, each after the group alone.
    fn add_wants(&mut self, problem: &Problem, aim: &Aim, lun: u8) {
        let waiting = problem.waiting();
        for (at, want) in problem.wants().iter().enumerate() {
            if waiting[at] && want.lun == lun {
                let takes = want_length(&aim.timing.spans(want.kind));
                self.count(self.busy.wrapping_add(takes), aim.wants[at]);
            }
        }
    }

    // A post more that ends that long after the LUN goes on.
    fn count(&mut self, end: u64, weight: u16) {
        let cost = weight as u128 * end as u128;
        self.cost = self.cost.wrapping_add(cost);
        self.weights = self.weights.wrapping_add(weight as u64);
    }

    // What the posts cost where the LUN goes on then.
    fn cost_from(&self, from: u64) -> u128 {
        let from = from as u128 * self.weights as u128;
        from.wrapping_add(self.cost)
    }
}

impl Posts {
    // None.
    fn none() -> Posts {
        Posts {
            operation: Operation::Read,
            place: 0,
            left: 0,
            member: 0,
            least: u16::MAX,
            wait: 0,
        }
    }

    // Those of the group at a place, from its phase `next` on.
    fn of(spans: &Spans, aim: &Aim, group: &Group, place: u8, next: u8) -> Posts {
        let members = group.len() as u8;
        let member = next.saturating_sub(members);
        let left = members.saturating_sub(member);
        Posts {
            operation: group.operation(),
            place,
            left,
            member,
            least: aim.least(place, member, left),
            wait: commands_left(spans, members.saturating_sub(next)),
        }
    }

    // Whether one is the next phase.
    fn is_next(self) -> bool {
        self.wait == 0 && self.left > 0
    }

    // Those after the first one, from when that starts.
    fn skip_first(self, aim: &Aim, post: u64) -> Posts {
        let (member, left) = (self.member.saturating_add(1), self.left.saturating_sub(1));
        Posts {
            left,
            member,
            least: aim.least(self.place, member, left),
            wait: post,
            ..self
        }
    }
}

// How long the post of a member takes, in ns; 0 where there is no such member.
fn post_of(aim: &Aim, group: &Group, member: u8) -> u64
    ensures { result < 2 ^ 50 }
{
    match group.members().get(member as usize) {
        Some(member) => aim.timing.spans(member.kind).post,
        None => 0,
    }
}

// How long a want takes, in ns.
fn want_length(spans: &Spans) -> u64
    ensures { result < 2 ^ 52 }
{
    spans.cmd + spans.array + spans.post
}

// How long that number of commands takes, up to the first post, in ns; 0 where none is left.
fn commands_left(spans: &Spans, commands: u8) -> u64
    requires { commands ≤ 4 }
    ensures { result < 2 ^ 54 }
{
    if commands == 0 {
        return 0;
    }
    let gaps = (commands - 1) as u64;
    commands as u64 * spans.cmd + gaps * spans.gap + spans.array
}
