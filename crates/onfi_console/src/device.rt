//! What a parameter page says of its device.
ghost use Rattle.std.specs.Prelude.{◌≡◌, ◌++◌, IfOk, MatchResult, OnOk, string_bytes};
ghost use Rattle.std.specs.List.{flat_map};
ghost use Rattle.onfi_param.specs.Copies.{IsFirstCopy};
ghost use Rattle.onfi_script.specs.AnswerOf.{answer_of};
ghost use Rattle.onfi_script.specs.Answer.{whole};
ghost use Rattle.onfi_script.specs.Device.{page_bytes as spec_page_bytes, TellsDevice};
ghost use Rattle.onfi_script.specs.Stop.{IfFault};
ghost use Rattle.onfi_script.specs.Text.{refused as spec_refused};
ghost use Rattle.onfi_console.specs.Described as spec;

use onfi_param::{ParamPage, read_page};
use onfi_script::{
    Answer, Device, Purpose, Refusal, Row, RowStop, ScriptFault, Stop, Why, answer_refusal,
    device_of, has_page, page_bytes, put_number, read_rows,
};
use onfi_timing::{Kind, Spans, Timing};
use std::alloc::{AllocError, Global};

/// Appends a line to a text.
#[tactic(auto, unfolding(crate::specs::Described::line))]
fn put_line(alloc: Global, text: &mut String, name: &str, number: u64) -> Result<(), AllocError>
    ensures { OnOk result (string_bytes text.new ≡ string_bytes text.old ++ spec.line name.now number) }
{
    put_number(alloc, text, name, number)?;
    text.push_str("\n")
}

/// Appends to a text how many LUNs there are, and bits of a plane's address.
#[tactic(auto, unfolding(crate::specs::Described::lun_lines))]
fn put_luns(alloc: Global, text: &mut String, page: &ParamPage) -> Result<(), AllocError>
    ensures { OnOk result (string_bytes text.new ≡ string_bytes text.old ++ spec.lun_lines page.now) }
{
    put_line(alloc, text, "luns,", u64::from(page.lun_count()))?;
    put_line(
        alloc,
        text,
        "plane-address-bits,",
        u64::from(page.plane_address_bits()),
    )
}

/// Appends to a text how many blocks and pages there are.
#[tactic(auto, unfolding(crate::specs::Described::block_lines))]
fn put_blocks(alloc: Global, text: &mut String, page: &ParamPage) -> Result<(), AllocError>
    ensures { OnOk result (string_bytes text.new ≡ string_bytes text.old ++ spec.block_lines page.now) }
{
    put_line(
        alloc,
        text,
        "blocks-per-lun,",
        u64::from(page.blocks_per_lun()),
    )?;
    put_line(
        alloc,
        text,
        "pages-per-block,",
        u64::from(page.pages_per_block()),
    )
}

/// Appends to a text how many bytes a page has.
#[tactic(auto, unfolding(crate::specs::Described::byte_lines))]
fn put_bytes(alloc: Global, text: &mut String, page: &ParamPage) -> Result<(), AllocError>
    ensures { OnOk result (string_bytes text.new ≡ string_bytes text.old ++ spec.byte_lines page.now) }
{
    put_line(alloc, text, "data-bytes,", u64::from(page.data_bytes()))?;
    put_line(alloc, text, "spare-bytes,", u64::from(page.spare_bytes()))
}

/// Appends to a text how many cycles addresses have.
#[tactic(auto, unfolding(crate::specs::Described::cycle_lines))]
fn put_cycles(alloc: Global, text: &mut String, page: &ParamPage) -> Result<(), AllocError>
    ensures { OnOk result (string_bytes text.new ≡ string_bytes text.old ++ spec.cycle_lines page.now) }
{
    put_line(
        alloc,
        text,
        "column-address-cycles,",
        u64::from(page.column_cycles()),
    )?;
    put_line(
        alloc,
        text,
        "row-address-cycles,",
        u64::from(page.row_cycles()),
    )
}

/// Appends to a text how much there is of what.
#[tactic(auto, unfolding(crate::specs::Described::sizes))]
fn put_sizes(alloc: Global, text: &mut String, page: &ParamPage) -> Result<(), AllocError>
    ensures { OnOk result (string_bytes text.new ≡ string_bytes text.old ++ spec.sizes page.now) }
{
    put_luns(alloc, text, page)?;
    put_blocks(alloc, text, page)?;
    put_bytes(alloc, text, page)?;
    put_cycles(alloc, text, page)
}

/// Appends to a text what features say of bus, LUNs and pages.
#[tactic(auto, unfolding(crate::specs::Described::feature_lines))]
fn put_features(alloc: Global, text: &mut String, features: u64) -> Result<(), AllocError>
    ensures { OnOk result (string_bytes text.new ≡ string_bytes text.old ++ spec.feature_lines features) }
{
    put_line(alloc, text, "wide-bus,", features % 2)?;
    put_line(alloc, text, "several-luns,", features / 2 % 2)?;
    put_line(alloc, text, "any-page-order,", features / 4 % 2)
}

/// Appends to a text what features say of several planes.
#[tactic(auto, unfolding(crate::specs::Described::plane_lines))]
fn put_planes(alloc: Global, text: &mut String, features: u64) -> Result<(), AllocError>
    ensures { OnOk result (string_bytes text.new ≡ string_bytes text.old ++ spec.plane_lines features) }
{
    put_line(alloc, text, "multi-plane-writes,", features / 8 % 2)?;
    put_line(alloc, text, "multi-plane-reads,", features / 64 % 2)
}

/// Appends to a text what optional commands there are.
#[tactic(auto, unfolding(crate::specs::Described::command_lines))]
fn put_commands(alloc: Global, text: &mut String, commands: u64) -> Result<(), AllocError>
    ensures { OnOk result (string_bytes text.new ≡ string_bytes text.old ++ spec.command_lines commands) }
{
    put_line(alloc, text, "read-status-enhanced,", commands / 8 % 2)?;
    put_line(
        alloc,
        text,
        "change-read-column-enhanced,",
        commands / 64 % 2,
    )
}

/// Appends to a text what the device can do.
#[tactic(auto, unfolding(crate::specs::Described::abilities))]
fn put_abilities(alloc: Global, text: &mut String, page: &ParamPage) -> Result<(), AllocError>
    ensures { OnOk result (string_bytes text.new ≡ string_bytes text.old ++ spec.abilities page.now) }
{
    let features = u64::from(page.features());
    put_features(alloc, text, features)?;
    put_planes(alloc, text, features)?;
    put_commands(alloc, text, u64::from(page.optional_commands()))
}

/// Appends its times to a text, in ns.
#[tactic(auto, unfolding(crate::specs::Described::times))]
fn put_times(alloc: Global, text: &mut String, page: &ParamPage) -> Result<(), AllocError>
    ensures { OnOk result (string_bytes text.new ≡ string_bytes text.old ++ spec.times page.now) }
{
    put_line(alloc, text, "tR,", 1000 * u64::from(page.t_r()))?;
    put_line(alloc, text, "tPROG,", 1000 * u64::from(page.t_prog()))?;
    put_line(alloc, text, "tBERS,", 1000 * u64::from(page.t_bers()))?;
    put_line(alloc, text, "tCCS,", u64::from(page.t_ccs()))
}

/// 1 where it holds.
fn bit(holds: bool) -> u64
    ensures { result ≡ spec.bit holds }
{
    if holds { 1 } else { 0 }
}

/// Appends the row `shape` of a device to a text.
#[tactic(auto, unfolding(crate::specs::Described::shape_row))]
fn put_shape(alloc: Global, text: &mut String, device: &Device) -> Result<(), AllocError>
    ensures { OnOk result (string_bytes text.new ≡ string_bytes text.old ++ spec.shape_row device.now) }
{
    put_number(alloc, text, "shape,", u64::from(device.luns))?;
    put_number(alloc, text, ",", u64::from(device.plane_bits))?;
    put_number(alloc, text, ",", bit(device.reads))?;
    put_number(alloc, text, ",", bit(device.writes))?;
    text.push_str("\n")
}

/// Appends the row `spans` of a kind to a text.
#[tactic(auto, unfolding(crate::specs::Described::spans_row))]
fn put_spans(alloc: Global, text: &mut String, name: &str, spans: Spans) -> Result<(), AllocError>
    ensures { OnOk result (string_bytes text.new ≡ string_bytes text.old ++ spec.spans_row name.now spans) }
{
    put_number(alloc, text, name, spans.cmd)?;
    put_number(alloc, text, ",", spans.gap)?;
    put_number(alloc, text, ",", spans.array)?;
    put_number(alloc, text, ",", spans.post)?;
    text.push_str("\n")
}

/// Appends the rows `spans` of each kind to a text.
#[tactic(auto, unfolding(crate::specs::Described::spans_rows))]
fn put_all_spans(alloc: Global, text: &mut String, timing: &Timing) -> Result<(), AllocError>
    ensures { OnOk result (string_bytes text.new ≡ string_bytes text.old ++ spec.spans_rows timing.now) }
{
    put_spans(alloc, text, "spans,read,", timing.read)?;
    put_spans(alloc, text, "spans,program,", timing.program)?;
    put_spans(alloc, text, "spans,erase,", timing.erase)
}

/// Appends the row `sectorpost` of so many sectors to a text.
fn put_sector_post(alloc: Global, text: &mut String, count: u8, post: u64) -> Result<(), AllocError>
    ensures { OnOk result (string_bytes text.new ≡ string_bytes text.old ++ spec.sector_post_row count post) }
{
    put_number(alloc, text, "sectorpost,", u64::from(count))?;
    put_line(alloc, text, ",", post)
}

/// .. where their post is stated.
#[tactic(auto, unfolding(crate::specs::Described::sector_row))]
fn put_sector(
    alloc: Global,
    text: &mut String,
    timing: &Timing,
    count: u8,
) -> Result<(), AllocError>
    ensures { OnOk result (string_bytes text.new ≡ string_bytes text.old ++ spec.sector_row timing.now count) }
{
    let kind = Kind::ReadSectors { first: 0, count };
    if timing.states(kind) {
        put_sector_post(alloc, text, count, timing.spans(kind).post)
    } else {
        Ok(())
    }
}

/// Appends the rows `sectorpost` of so many sectors each to a text.
fn put_sectors(
    alloc: Global,
    text: &mut String,
    timing: &Timing,
    counts: &[u8],
) -> Result<(), AllocError>
    ensures { OnOk result (string_bytes text.new ≡ string_bytes text.old ++ flat_map (spec.sector_row timing.now) counts.now) }
{
    for count in counts {
        put_sector(alloc, text, timing, *count)?;
    }
    Ok(())
}

/// .. of one to seven.
#[tactic(auto, unfolding(crate::specs::Described::sector_rows))]
fn put_all_sectors(alloc: Global, text: &mut String, timing: &Timing) -> Result<(), AllocError>
    ensures { OnOk result (string_bytes text.new ≡ string_bytes text.old ++ spec.sector_rows timing.now) }
{
    put_sectors(alloc, text, timing, &[1, 2, 3, 4, 5, 6, 7])
}

/// Appends the rows of the first form to a text, or why the device can't be planned for.
#[tactic(auto, unfolding(crate::specs::Described::rows_of))]
fn put_rows(
    alloc: Global,
    text: &mut String,
    device: &Result<Device, ScriptFault>,
) -> Result<(), AllocError>
    ensures { OnOk result (string_bytes text.new ≡ string_bytes text.old ++ spec.rows_of device.now) }
{
    match device {
        Ok(device) => {
            put_shape(alloc, text, device)?;
            put_all_spans(alloc, text, &device.timing)?;
            put_all_sectors(alloc, text, &device.timing)
        }
        Err(fault) => {
            text.push_str("refused,")?;
            text.push_str(fault.name())?;
            text.push_str("\n")
        }
    }
}

/// What is written of a page, and of the device that it describes with its sheet.
fn describe_device(
    alloc: Global,
    page: &ParamPage,
    device: &Result<Device, ScriptFault>,
) -> Result<Answer, AllocError>
    ensures { IfOk result (λ a. answer_of a ≡ spec.described page.now device.now) }
{
    let mut text = String::new(alloc);
    put_sizes(alloc, &mut text, page)?;
    put_abilities(alloc, &mut text, page)?;
    put_times(alloc, &mut text, page)?;
    put_rows(alloc, &mut text, device)?;
    let mut answer = Answer::of(text.into_bytes(), 0);
    if let Err(fault) = device {
        answer.why = Some(Why::Script(Refusal {
            row: 0,
            fault: *fault,
        }));
    }
    Ok(answer)
}

/// The page that rows give.
fn page_of(alloc: Global, rows: &[Row]) -> Result<ParamPage, RowStop>
    ensures { MatchResult result (λ page. IsFirstCopy (spec_page_bytes rows.now) page) (λ stop. IfFault stop (spec.IsPageless rows.now)) }
{
    if !has_page(rows) {
        return Err(RowStop::Fault(ScriptFault::Missing));
    }
    let Ok(bytes) = page_bytes(alloc, rows) else {
        return Err(RowStop::Memory);
    };
    match read_page(bytes.as_slice()) {
        Ok(page) => Ok(page),
        Err(fault) => Err(RowStop::Fault(ScriptFault::Page(fault))),
    }
}

/// The device of the rows, or why there is none.
fn device_in(alloc: Global, rows: &[Row]) -> Result<Result<Device, ScriptFault>, AllocError>
    ensures { IfOk result (TellsDevice rows.now) }
{
    match device_of(alloc, rows) {
        Ok(device) => Ok(Ok(device)),
        Err(RowStop::Fault(fault)) => Ok(Err(fault)),
        Err(RowStop::Memory) => Err(AllocError),
    }
}

/// The line that refuses a script as a whole.
fn refuse_whole(alloc: Global, fault: ScriptFault) -> Result<Answer, AllocError>
    ensures { IfOk result (λ a. answer_of a ≡ spec_refused (whole fault)) }
{
    answer_refusal(alloc, Refusal { row: 0, fault })
}

/// The answer to rows.
fn answer_rows(alloc: Global, rows: &[Row]) -> Result<Answer, AllocError>
    ensures { IfOk result (λ a. spec.AnswersRows rows.now (answer_of a)) }
{
    match page_of(alloc, rows) {
        Ok(page) => {
            let device = device_in(alloc, rows)?;
            describe_device(alloc, &page, &device)
        }
        Err(RowStop::Fault(fault)) => refuse_whole(alloc, fault),
        Err(RowStop::Memory) => Err(AllocError),
    }
}

/// What the page of a script says, and the rows of the first form that describe the same device; or the line that refuses the
/// script, with status 1.
///
/// # Errors
/// Where memory was refused.
pub fn describe(alloc: Global, input: &[u8]) -> Result<Answer, AllocError>
    ensures { IfOk result (λ a. spec.IsDescription input.now (answer_of a)) }
{
    match read_rows(alloc, Purpose::Problem, input) {
        Ok(rows) => answer_rows(alloc, rows.as_slice()),
        Err(Stop::Refused(refusal)) => answer_refusal(alloc, refusal),
        Err(Stop::Memory) => Err(AllocError),
    }
}
