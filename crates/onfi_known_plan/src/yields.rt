//! Which moves yield.

ghost use Rattle.std.specs.Prelude.{◌≡◌, ◌-◌, ◌^◌, ◌<◌, ℕ, true, false, max, length, slice_index, slice_index_or};
ghost use Rattle.onfi_known_plan.specs.Walks.{Awaits, later_of, wait_for};

use onfi_cert::LunNumber;
use onfi_known_check::Token;
use onfi_problem::Problem;

/// The LUN whose moves end first, and by when, in ns; the moves of every LUN that may go no sooner yield to it.
#[derive(Clone, Copy)]
pub struct Soonest {
    pub lun: u8,
    pub end: u64,
}

impl Soonest {
    /// The soonest of a problem where the moves of each LUN end by `ends`; the first one of several.
    pub fn of(problem: &Problem, ends: &[Option<u64>; 8]) -> Soonest
        ensures there { result.lun < length problem.now.problem.luns }
        ensures end { result.end < 2 ^ 62 → slice_index_or ends.now result.lun None ≡ Some result.end }
    {
        problem.in_limits();
        let mut soonest = Soonest {
            lun: 0,
            end: u64::MAX,
        };
        for lun in 0..problem.lun_count() as u8 {
            if let Some(end) = ends[lun as usize]
                && end < soonest.end
            {
                soonest = Soonest { lun, end };
            }
        }
        soonest
    }

    /// The token of a move that yields to it.
    pub fn token(&self) -> Token
        requires { self.now.lun < 8 }
        ensures { result ≡ Token.Yield self.now.lun }
    {
        Token::Yield(LunNumber::of(self.lun))
    }

    /// Whether the moves of a LUN yield to it.
    pub fn is_awaited(&self, problem: &Problem, own: u8) -> bool
        requires { own < length problem.now.problem.luns }
        ensures { result ≡ true → Awaits problem.now.problem self.now own }
    {
        own != self.lun && problem.may_go(own) >= self.end
    }

    // When the moves that yield to it may go, by what is asked of it.
    fn wait(&self, problem: &Problem, asked: &[u64; 8]) -> u64
        requires { self.now.lun < length problem.now.problem.luns }
        ensures { wait_for problem.now.problem self.now asked.now < 2 ^ 64 → result ≡ wait_for problem.now.problem self.now asked.now }
    {
        problem.in_limits();
        let longest = self.end.saturating_sub(problem.may_go(self.lun));
        asked[self.lun as usize].saturating_add(longest)
    }

    /// Raises what is asked of the LUNs that yield, in ns: they wait for all first phases of the one that they yield to.
    pub fn raise(&self, problem: &Problem, yielded: &[bool; 8], asked: &mut [u64; 8])
        requires { self.now.lun < length problem.now.problem.luns }
        ensures kept { (lun : ℕ) → lun < 8 → slice_index_or yielded.now lun false ≡ false → slice_index asked.new lun ≡ slice_index asked.old lun }
        ensures raised { (lun : ℕ) → lun < 8 → slice_index_or yielded.now lun false ≡ true → wait_for problem.now.problem self.now asked.old < 2 ^ 64
            → slice_index asked.new lun ≡ max (wait_for problem.now.problem self.now asked.old) (slice_index asked.old lun) }
        ensures small { (lun : ℕ) → lun < 8 → slice_index asked.new lun < 2 ^ 64 }
    {
        problem.in_limits();
        let behind = self.wait(problem, asked);
        for own in 0..8usize {
            asked[own] = choose_later(yielded[own], behind, asked[own]);
        }
    }
}

// The later of what is asked of a LUN and of what it waits for, where it does.
fn choose_later(waits: bool, behind: u64, asked: u64) -> u64
    ensures { result ≡ later_of waits behind asked }
{
    if waits { asked.max(behind) } else { asked }
}
