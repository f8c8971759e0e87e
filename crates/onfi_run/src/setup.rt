//! What the rows of a run set up.
ghost use Rattle.std.specs.Prelude.{◌≡◌, ◌≤◌};
ghost use Rattle.onfi_script.specs.Setup.{strict_from};
ghost use Rattle.onfi_script.specs.Subject.{row_on as spec_row_on};
ghost use Rattle.onfi_script.specs.declared.row.Subject.TheVariants as on;
ghost use Rattle.onfi_run.specs.Setup as spec;

use crate::stated::StatedDevice;
use onfi_core::{Choice, Setup};
use onfi_group::Rules;
use onfi_plan::Limit;
use onfi_script::{PageDevice, Row, Subject, is_strict, row_on};

/// How many channels there are.
pub fn channel_count(rows: &[Row]) -> u8
    ensures value { result ≡ spec.channels_in rows.now }
    ensures some { 1 ≤ result }
    ensures few { result ≤ 4 }
{
    match row_on(rows, Subject::Channels) {
        Some(Row::Channels { count }) => count.get() as u8,
        _ => 1,
    }
}

/// How many hosts there are.
pub fn host_count(rows: &[Row]) -> u8
    ensures value { result ≡ spec.hosts_in rows.now }
    ensures some { 1 ≤ result }
    ensures few { result ≤ 4 }
{
    match row_on(rows, Subject::Hosts) {
        Some(Row::Hosts { count }) => count.get() as u8,
        _ => 1,
    }
}

/// How many wants one plan takes up.
fn batch(rows: &[Row]) -> u8
    ensures value { result ≡ spec.batch_in rows.now }
    ensures some { 1 ≤ result }
    ensures few { result ≤ 8 }
{
    match row_on(rows, Subject::Batch) {
        Some(Row::Batch { count }) => count.get() as u8,
        _ => 8,
    }
}

/// How many items a submission queue holds.
fn submit_cap(rows: &[Row]) -> u16
    ensures value { result ≡ spec.submit_cap_in rows.now }
    ensures some { 1 ≤ result }
    ensures few { result ≤ 1024 }
{
    match row_on(rows, Subject::SubmitCap) {
        Some(Row::SubmitCap { count }) => count.get(),
        _ => 64,
    }
}

/// How many replies a completion queue holds.
fn post_cap(rows: &[Row]) -> u16
    ensures value { result ≡ spec.post_cap_in rows.now }
    ensures some { 1 ≤ result }
    ensures few { result ≤ 1024 }
{
    match row_on(rows, Subject::PostCap) {
        Some(Row::PostCap { count }) => count.get(),
        _ => 64,
    }
}

/// The rules of the device: strict where a row says so.
fn rules(rows: &[Row], device: &PageDevice) -> Rules
    ensures { spec.AreRules rows.now device.now result }
{
    Rules::new(
        device.geometry.multi_plane_reads,
        device.geometry.multi_plane_writes,
        is_strict(rows),
        device.geometry.plane_address_bits,
    )
}

/// What the rows set up on their device, with that choice; one planning opens at most `limit` nodes. There are always four
/// hosts, and one that isn't used sends nothing.
pub fn setup_of(rows: &[Row], device: &StatedDevice, limit: Limit, choice: Choice) -> Setup
    ensures { spec.SetsUp rows.now device.now.chips limit choice result }
{
    let chips = &device.chips;
    Setup::new(
        chips.geometry,
        chips.timing,
        rules(rows, chips),
        channel_count(rows),
        4,
        batch(rows),
        submit_cap(rows),
        post_cap(rows),
        limit.get(),
    )
    .unwrap()
    .with_choice(choice)
}
