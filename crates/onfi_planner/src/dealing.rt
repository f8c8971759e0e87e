//! Calls that are dealt to workers in turn.

ghost use Rattle.std.specs.Prelude.{◌≡◌, ◌⊎◌, Some, ℕ, ◌≤◌, ◌<◌, IfOk, IfErr, Ok, Err, map, vec_len, slice_index_or, slice_set, length, ◌++◌, ◌∷◌, []};
ghost use Rattle.onfi_group.specs.Words.{Has};
ghost use Rattle.onfi_planner.specs.Dealing.{GivesAll, GivesFrom, MayRefuse, dealt};

use crate::search::Stop;
use std::alloc::Global;
use std::thread;
use std::thread::Threads;

// The call that a worker stopped at.
#[derive(Drop)]
struct Refusal {
    call: usize,
    stop: Stop,
}

/// What `f` returns for 0, 1 and so on below `n`, in order. Call i is made by worker i mod `workers`, each worker in a
/// thread of its own where one can be made.
///
/// # Errors
/// What the first call that was refused returned: a worker makes no more calls once it was refused one. `Memory` also
/// where there was no room for the answers.
pub fn do_in_turn<R: Threads + Sync, X: Send + Drop, F: Fn(usize) -> Result<X, Stop> + Sync>(
    rt: &R,
    alloc: Global,
    n: usize,
    workers: usize,
    f: &F,
) -> Result<Vec<X>, Stop>
    requires some { 1 ≤ workers }
    requires may { (i : ℕ) → i < n → F.pre f.now i }
    ensures len { IfOk result (λ answers. vec_len answers ≡ n) }
    ensures answers { IfOk result (λ answers. GivesFrom F.Fn f.now 0 answers.items) }
    ensures over { IfErr result (λ stop. stop ≡ Stop.Over → MayRefuse F.Fn f.now n Stop.Over) }
{
    let shares = thread::map_indices(
        rt,
        alloc,
        workers,
        &move |worker: usize| -> Result<Vec<X>, Refusal>
            requires { (1 ≤ workers) × ((i : ℕ) → i < n → F.pre f.now i) }
            ensures answers { IfOk result (λ answers. GivesAll F.Fn f.entry.now (dealt workers worker n) answers.items) }
            ensures over { IfErr result (λ refusal. refusal.stop ≡ Stop.Over → MayRefuse F.Fn f.entry.now n Stop.Over) }
        { do_share(alloc, n, workers, worker, f) },
    );
    let Ok(shares) = shares else {
        return Err(Stop::Memory);
    };
    let mut shares = gather_answers(alloc, shares)?;
    let mut answers = Vec::new(alloc);
    for after in 0..n {
        let call = n - 1 - after;
        let answer = take_last(&mut shares, call % workers);
        match answers.insert(0, answer) {
            Ok(()) => {}
            Err(_) => return Err(Stop::Memory),
        }
    }
    Ok(answers)
}

// The answers to the calls of one worker, in their order.
fn do_share<X: Drop, F: Fn(usize) -> Result<X, Stop>>(
    alloc: Global,
    n: usize,
    workers: usize,
    worker: usize,
    f: &F,
) -> Result<Vec<X>, Refusal>
    requires some { 1 ≤ workers }
    requires may { (i : ℕ) → i < n → F.pre f.now i }
    ensures answers { IfOk result (λ answers. GivesAll F.Fn f.now (dealt workers worker n) answers.items) }
    ensures over { IfErr result (λ refusal. refusal.stop ≡ Stop.Over → MayRefuse F.Fn f.now n Stop.Over) }
{
    let mut answers = Vec::new(alloc);
    for call in 0..n {
        if call % workers != worker {
            continue;
        }
        let answer = match f(call) {
            Ok(answer) => answer,
            Err(stop) => return Err(Refusal { call, stop }),
        };
        match answers.push(answer) {
            Ok(()) => {}
            Err(_) => {
                let stop = Stop::Memory;
                return Err(Refusal { call, stop });
            }
        }
    }
    Ok(answers)
}

// The answers of all workers; where some were refused a call, what the first of these calls answered.
fn gather_answers<X: Drop>(
    alloc: Global,
    shares: Vec<Result<Vec<X>, Refusal>>,
) -> Result<Vec<Vec<X>>, Stop>
    ensures done { IfOk result (λ answers. shares.items ≡ map Ok answers.items) }
    ensures refused { IfErr result (λ stop. stop ≡ Stop.Over → (refusal : _) × Has shares.items (Err refusal) × (refusal.stop ≡ Stop.Over)) }
{
    let mut all = Vec::new(alloc);
    let mut first = None;
    for share in shares {
        match share {
            Ok(answers) => match all.push(answers) {
                Ok(()) => {}
                Err(_) => return Err(Stop::Memory),
            },
            Err(refusal) => first = Some(earlier(first, refusal)),
        }
    }
    match first {
        None => Ok(all),
        Some(refusal) => Err(refusal.stop),
    }
}

// The one of the earlier call.
fn earlier(first: Option<Refusal>, refusal: Refusal) -> Refusal
    ensures { (result ≡ refusal) ⊎ (first ≡ Some result) }
{
    match first {
        Some(other) if other.call < refusal.call => other,
        _ => refusal,
    }
}

// Takes the last answer of a worker.
fn take_last<X: Drop>(shares: &mut Vec<Vec<X>>, worker: usize) -> X
    requires there { worker < length shares.old.items }
    requires some { (d : _) → 1 ≤ length (slice_index_or shares.old.items worker d).items }
    ensures { (rest : _) × (shares.new.items ≡ slice_set shares.old.items worker rest) × ((slice_index_or shares.old.items worker rest).items ≡ rest.items ++ result ∷ []) }
{
    shares[worker].pop().unwrap()
}
