//! How much the requests of a problem count.

ghost use Rattle.std.specs.Prelude.{◌≤◌, length};
ghost use Rattle.std.specs.List.{All};
ghost use Rattle.onfi_planners.specs.Weighing.{AreWeights};

use crate::weights::Weights;
use arrayvec::ArrayVec;
use onfi_problem::Problem;
use onfi_request::Want;

/// How much each request counts where a plan is made better.
#[derive(Clone, Copy, Debug, Default, PartialEq, Eq)]
pub enum Weighing {
    /// By its age, so that none is last for ever: 1 + 4 (age / mean age)^2. Ages are counted in places of acceptance, as the
    /// numbers of wants give them, from the newest request of the problem on, whose age is 1.
    #[default]
    ByAge,
    /// As any other.
    Equal,
}

impl Weighing {
    /// The weights of a problem's requests.
    pub fn weights_of(self, problem: &Problem) -> Weights
        ensures { AreWeights self result }
    {
        match self {
            Weighing::ByAge => weights_by_age(problem),
            Weighing::Equal => Weights {
                wants: [1; 8],
                running: [[1; 4]; 8],
            },
        }
    }
}

fn weights_by_age(problem: &Problem) -> Weights
    ensures wants { All (λ w. 1 ≤ w) result.wants }
    ensures running { All (All (λ w. 1 ≤ w)) result.running }
{
    let ages = Ages::of(ids_of(problem).as_slice());
    Weights {
        wants: ages.weights_of_wants(problem.wants()),
        running: ages.weights_of_running(problem),
    }
}

// The numbers of all requests: wants, and members of running groups.
fn ids_of(problem: &Problem) -> ArrayVec<u64, 40> {
    let mut ids = ArrayVec::new();
    put_ids(&mut ids, problem.wants());
    for state in problem.luns() {
        if state.next > 0
            && let Some(group) = problem.groups().get(state.place as usize)
        {
            put_ids(&mut ids, group.members());
        }
    }
    ids
}

fn put_ids(ids: &mut ArrayVec<u64, 40>, wants: &[Want]) {
    for want in wants {
        let _full = ids.try_push(want.id);
    }
}

// How old requests are.
#[derive(Clone, Copy)]
struct Ages {
    newest: u64,
    // How many requests there are, and the sum of their ages.
    count: u128,
    sum: u128,
}

impl Ages {
    fn of(ids: &[u64]) -> Ages {
        let newest = newest_of(ids);
        let mut sum = 0u128;
        for id in ids {
            sum = sum.saturating_add(age_of(newest, *id));
        }
        Ages {
            newest,
            count: ids.len() as u128,
            sum,
        }
    }

    // Eight times 1 + 4 (age / mean age)^2, of whole eighths of the mean; there are 40 requests at most.
    fn weight_of(self, id: u64) -> u16
        ensures { 1 ≤ result }
    {
        let eighths = age_of(self.newest, id)
            .saturating_mul(self.count)
            .saturating_mul(8);
        let share = (eighths / self.sum.max(1)).min(320);
        let square = share.saturating_mul(share);
        (8 + square / 2).min(65_535) as u16
    }

    fn weights_of_wants(self, wants: &[Want]) -> [u16; 8]
        requires { length wants.now ≤ 8 }
        ensures { All (λ w. 1 ≤ w) result }
    {
        let mut weights = [1; 8];
        for (at, want) in wants.iter().enumerate() {
            weights[at] = self.weight_of(want.id);
        }
        weights
    }

    fn weights_of_members(self, members: &[Want]) -> [u16; 4]
        requires { length members.now ≤ 4 }
        ensures { All (λ w. 1 ≤ w) result }
    {
        let mut weights = [1; 4];
        for (at, member) in members.iter().enumerate() {
            weights[at] = self.weight_of(member.id);
        }
        weights
    }

    fn weights_of_running(self, problem: &Problem) -> [[u16; 4]; 8]
        ensures { All (All (λ w. 1 ≤ w)) result }
    {
        let mut weights = [[1; 4]; 8];
        for (lun, state) in problem.luns().iter().enumerate() {
            if state.next > 0
                && let Some(group) = problem.groups().get(state.place as usize)
            {
                weights[lun] = self.weights_of_members(group.members());
            }
        }
        weights
    }
}

fn newest_of(ids: &[u64]) -> u64 {
    let mut newest = 0;
    for id in ids {
        newest = (*id).max(newest);
    }
    newest
}

// The newest is one place old.
fn age_of(newest: u64, id: u64) -> u128 {
    newest.saturating_sub(id) as u128 + 1
}
