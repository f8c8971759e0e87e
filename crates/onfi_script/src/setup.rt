//! What the rows of a script set up on its device.
ghost use Rattle.std.specs.Prelude.{◌≡◌, ◌≤◌, position, IfOk};
ghost use Rattle.onfi_script.specs.Setup as spec;
ghost use Rattle.onfi_script.specs.SetupOf.{problem_of};
ghost use Rattle.onfi_script.specs.Subject.{row_on as spec_row_on};
ghost use Rattle.onfi_script.specs.declared.row.Subject.TheVariants as on;

use crate::device::Device;
use crate::forms::row_on;
use crate::row::{Row, Subject};
use crate::sectors::{ask_sectors, run_asked};
use onfi_group::Rules;
use onfi_problem::LunState;
use onfi_request::Want;
use onfi_timing::Timing;
use std::alloc::{AllocError, Global};

/// What a script sets up: the parts of a problem.
#[derive(Drop)]
pub struct Setup {
    pub timing: Timing,
    pub rules: Rules,
    /// From when on the bus is free, in ns.
    pub bus_free: u64,
    pub luns: Vec<LunState>,
    pub wants: Vec<Want>,
}

/// From when on the bus is free.
fn bus_free(rows: &[Row]) -> u64
    ensures { result ≡ spec.bus_from (spec_row_on on.Bus rows.now) }
{
    match row_on(rows, Subject::Bus) {
        Some(Row::Bus { bus_free }) => *bus_free,
        _ => 0,
    }
}

/// Whether groups are strict.
pub fn is_strict(rows: &[Row]) -> bool
    ensures { result ≡ spec.strict_from (spec_row_on on.Strict rows.now) }
{
    match row_on(rows, Subject::Strict) {
        Some(Row::Strict { strict }) => *strict,
        _ => false,
    }
}

/// What a LUN does.
fn state(alloc: Global, rows: &[Row], plane_bits: u8, lun: u8) -> LunState
    requires { plane_bits ≤ 2 }
    ensures { result ≡ spec.state_at plane_bits rows.now lun }
{
    let state = match row_on(rows, Subject::Lun(lun)) {
        Some(Row::Free { since, .. }) => LunState::Free { since: *since },
        Some(Row::Running(row)) => row.state(alloc, plane_bits),
        _ => LunState::Free { since: 0 },
    };
    run_asked(alloc, rows, lun, state)
}

/// What each LUN does.
#[tactic(auto, unfolding(crate::specs::Setup::states))]
fn states(
    alloc: Global,
    rows: &[Row],
    plane_bits: u8,
    luns: u8,
) -> Result<Vec<LunState>, AllocError>
    requires { plane_bits ≤ 2 }
    ensures { IfOk result (λ v. v.items ≡ spec.states plane_bits rows.now luns) }
{
    let mut states = Vec::new(alloc);
    for lun in 0..luns {
        states.push(state(alloc, rows, plane_bits, lun))?;
    }
    Ok(states)
}

/// The wants, numbered from 0.
#[tactic(auto, unfolding(crate::specs::Setup::wants_from))]
fn wants(alloc: Global, rows: &[Row], plane_bits: u8) -> Result<Vec<Want>, AllocError>
    requires { plane_bits ≤ 2 }
    ensures { IfOk result (λ v. v.items ≡ spec.wants_from plane_bits 0 rows.now) }
{
    let mut wants = Vec::new(alloc);
    for row in rows {
        if let Some(want) = row.want(wants.len() as u64, plane_bits) {
            wants.push(want)?;
        }
    }
    Ok(wants)
}

/// The first row that names a LUN that isn't there, or a sector longer than a page, counted from 0.
pub fn find_beyond(rows: &[Row], device: &Device) -> Option<usize>
    ensures { result ≡ position (spec.is_beyond device.now) rows.now }
{
    rows.iter().position(|row| row.is_beyond(device))
}

/// What the rows set up on the device.
pub fn set_up(alloc: Global, rows: &[Row], device: &Device) -> Result<Setup, AllocError>
    ensures { IfOk result (λ setup. spec.SetsUp rows.now device.now (problem_of setup)) }
{
    let luns = states(alloc, rows, device.plane_bits, device.luns)?;
    let wants = wants(alloc, rows, device.plane_bits)?;
    let wants = ask_sectors(alloc, rows, wants.as_slice())?;
    Ok(Setup {
        timing: device.timing,
        rules: Rules::new(
            device.reads,
            device.writes,
            is_strict(rows),
            device.plane_bits,
        ),
        bus_free: bus_free(rows),
        luns,
        wants,
    })
}
