//! Why a script is refused, and where.
use crate::absent::{find_absent_field, is_op_too_many};
use crate::escaping::escape_bytes;
use crate::fields::{field, find_wrong_field, number_fault};
use crate::guess::{OtherText, guess};
use crate::input::{Input, line_at, lines_in, word_at};
use crate::parsed::CommandName;
use crate::place::{line_of, row_text};
use crate::rows::{form_of, is_of_run, near_name};
use csv::ByteRecord;
use onfi_addr::GeometryFault;
use onfi_param::PageFault;
use onfi_problem::{LunState, Problem, ProblemFault};
use onfi_request::{RequestFault, Want};
use onfi_script::{
    Purpose, Refusal, Row, ScriptFault, Setup, device_of, read_rows, script_len, set_up,
};
use onfi_timing::{Kind, SheetFault, StrobeFault, read_records};
use std::alloc::{AllocError, Global};

/// What the rows of a script are read for by a command.
pub fn purpose_of(command: CommandName) -> Purpose {
    match command {
        CommandName::Run => Purpose::Run,
        _ => Purpose::Problem,
    }
}

/// A refused script, and what it is refused for.
#[derive(Clone, Copy)]
struct Refused<'a, 'r> {
    command: CommandName,
    input: &'r Input<'a>,
    records: &'r [ByteRecord],
    fault: ScriptFault,
}

/// The message about a script that is refused, or whose device can't be planned for.
///
/// # Errors
/// Where memory was refused.
pub fn script_message(
    alloc: Global,
    command: CommandName,
    input: &Input<'_>,
    refusal: Refusal,
) -> Result<String, AllocError> {
    let records = match script_len(input.text) {
        Some(size) => read_records(alloc, &input.text[..size])?,
        None => Vec::new(alloc),
    };
    let refused = Refused {
        command,
        input,
        records: records.as_slice(),
        fault: plainly(refusal.fault),
    };
    match refusal.row {
        0 => whole_message(alloc, &refused),
        row => row_message(alloc, &refused, row as usize),
    }
}

/// A fault, where one of a sheet with strobes is one of the sheet.
fn plainly(fault: ScriptFault) -> ScriptFault {
    match fault {
        ScriptFault::Strobe(StrobeFault::Sheet(fault)) => ScriptFault::Sheet(fault),
        _ => fault,
    }
}

/// The message about a row, counted from 1.
fn row_message(alloc: Global, refused: &Refused<'_, '_>, row: usize) -> Result<String, AllocError> {
    let input = refused.input;
    let Some(record) = refused.records.get(row.saturating_sub(1)) else {
        let fault = word_at(refused.fault.name(), 0);
        return format!(in alloc; "onfi_sim: row {row}: {fault}\n");
    };
    let (name, line, text) = (
        input.script_name(),
        line_of(input.text, record),
        row_text(alloc, record)?,
    );
    let what = row_fault(alloc, refused, record, row)?;
    let mut message = format!(in alloc; "onfi_sim: {name}:{line}: row {row} '{text}': {what}\n")?;
    message.push_str(hint(alloc, refused, field(record, 0))?.as_str())?;
    Ok(message)
}

/// What was expected in place of a row.
fn hint(alloc: Global, refused: &Refused<'_, '_>, name: &[u8]) -> Result<String, AllocError> {
    if matches!(refused.fault, ScriptFault::NotHere) {
        let rows = name_taken_rows(refused.command, name);
        return format!(in alloc; "  expected: {rows}\n");
    }
    if let Some(form) = form_of(name) {
        return format!(in alloc; "  expected: {form}\n");
    }
    if matches!(refused.fault, ScriptFault::UnknownRow) {
        if let Some(near) = near_name(alloc, name)? {
            return format!(in alloc; "  did you mean '{near}'?\n");
        }
    }
    String::from_str(
        alloc,
        "  expected: a row of docs/FORMATS.md, or the line 'end'; nothing before its name\n",
    )
}

/// What is wrong with a row, counted from 1.
fn row_fault(
    alloc: Global,
    refused: &Refused<'_, '_>,
    record: &ByteRecord,
    row: usize,
) -> Result<String, AllocError> {
    match refused.fault {
        ScriptFault::NotANumber
        | ScriptFault::Sheet(SheetFault::NotANumber(_))
        | ScriptFault::Strobe(StrobeFault::NotANumber(_)) => not_a_number(alloc, record),
        ScriptFault::OutOfRange => out_of_range(alloc, refused, record, row),
        ScriptFault::NotHere => not_here(alloc, refused, field(record, 0)),
        ScriptFault::UnknownRow if row == 1 => {
            let what = match guess(refused.input.text) {
                Some(guess) => guess.text(),
                None => "no row has this name",
            };
            String::from_str(alloc, what)
        }
        ScriptFault::Request(RequestFault::Sectors) => {
            String::from_str(alloc, no_sectors(refused.records))
        }
        fault => String::from_str(alloc, plain_fault(fault)),
    }
}

/// What is wrong with a row, where that rests on nothing but the name of the fault.
fn plain_fault(fault: ScriptFault) -> &'static str {
    match fault {
        ScriptFault::UnknownRow => "no row has this name",
        ScriptFault::FieldCount => "the row has too few fields or too many",
        ScriptFault::Repeated
        | ScriptFault::Sheet(SheetFault::Repeated(_))
        | ScriptFault::Strobe(StrobeFault::Repeated(_)) => "an earlier row says this already",
        ScriptFault::Hex => "the bytes aren't pairs of hexadecimal digits",
        ScriptFault::Sheet(SheetFault::Unknown(_)) => "no timing parameter has this name",
        ScriptFault::Sheet(SheetFault::TooLong) =>
            "the value is 2^32 ns or more; perhaps it is in ps",
        ScriptFault::Strobe(StrobeFault::Unknown(_)) => "no parameter of strobes has this name",
        ScriptFault::Strobe(StrobeFault::TooLong) => "the value is 2^32 ps or more",
        ScriptFault::Request(RequestFault::Lun) => "the device has no such LUN",
        ScriptFault::Request(RequestFault::Block) => "the device has no such block",
        ScriptFault::Request(RequestFault::Page) =>
            "the device has no such page, or an erase names a page other than 0",
        ScriptFault::Request(RequestFault::DataLength) =>
            "the data isn't as long as a page with its spare bytes",
        _ => "the row can't be taken",
    }
}

/// Which field isn't a number, and why.
fn not_a_number(alloc: Global, record: &ByteRecord) -> Result<String, AllocError> {
    match find_wrong_field(record) {
        Some((found, text)) => {
            let (name, shown, why) = (found.name, escape_bytes(alloc, text)?, number_fault(text));
            format!(in alloc; "{name} is '{shown}', which isn't a number: {why}")
        }
        None => String::from_str(alloc, "a field isn't a number: digits alone"),
    }
}

/// Which field is out of its range, or names what the script or its device doesn't have.
fn out_of_range(
    alloc: Global,
    refused: &Refused<'_, '_>,
    record: &ByteRecord,
    row: usize,
) -> Result<String, AllocError> {
    if let Some((found, text)) = find_wrong_field(record) {
        let (name, shown, told) = (found.name, escape_bytes(alloc, text)?, found.told);
        return format!(in alloc; "{name} is '{shown}', and has to be {told}");
    }
    if is_op_too_many(refused.records, row) {
        return String::from_str(alloc, too_many_ops(refused.records));
    }
    if field(record, 0) == b"sector".as_slice() {
        return String::from_str(alloc, "a page of the device has fewer bytes");
    }
    if field(record, 0) == b"at".as_slice() {
        return String::from_str(alloc, "NS is less than that of an 'at' row above");
    }
    let (purpose, text) = (purpose_of(refused.command), refused.input.text);
    match find_absent_field(alloc, purpose, text, refused.records, record) {
        Some((name, count)) => {
            format!(in alloc; "{name} has to be below {count}: so many there are, counted from 0")
        }
        None => String::from_str(alloc, "a field is out of its range"),
    }
}

/// What is said of a row that is an operation more than a script may have.
fn too_many_ops(records: &[ByteRecord]) -> &'static str {
    if has_row(records, b"opread", b"") {
        "a script has at most 10000 rows 'op' and 'opread'"
    } else {
        "a script has at most 10000 rows 'op'"
    }
}

/// Why there are no such sectors.
fn no_sectors(records: &[ByteRecord]) -> &'static str {
    if has_row(records, b"geometry", b"") {
        "a device by a row 'geometry' puts out whole pages alone"
    } else if has_row(records, b"sector", b"") {
        "a page of the device has fewer sectors"
    } else {
        "no row 'sector' says how many bytes a sector has"
    }
}

/// Whether a row of this name describes a device in the first form, of a problem as of a run.
fn is_shape_or_spans(name: &[u8]) -> bool {
    name == b"shape".as_slice() || name == b"spans".as_slice()
}

/// Whether a row of this name says how long outputs of sectors are, for a problem alone.
fn is_sector_post(name: &[u8]) -> bool {
    name == b"sectorpost".as_slice()
}

/// Whether a row of this name describes a device in the first form.
fn is_of_first(name: &[u8]) -> bool {
    is_shape_or_spans(name) || is_sector_post(name) || name == b"geometry".as_slice()
}

/// Whether a row of this name describes a device in the second form.
fn is_of_second(name: &[u8]) -> bool {
    name == b"page".as_slice()
        || name == b"sheet".as_slice()
        || name == b"strobe".as_slice()
        || name == b"sector".as_slice()
}

/// Whether a row of this name describes a device in either form.
fn is_of_device(name: &[u8]) -> bool {
    is_of_first(name) || is_of_second(name)
}

/// Why a row of this name isn't taken by the command, or after the rows before it.
fn not_here(alloc: Global, refused: &Refused<'_, '_>, name: &[u8]) -> Result<String, AllocError> {
    let command = refused.command.word();
    let told = |record: &ByteRecord| is_of_device(field(record, 0));
    let first = refused
        .records
        .iter()
        .find(|record| is_of_device(field(record, 0)));
    let is_begun = match first {
        Some(record) => !is_shape_or_spans(field(record, 0)),
        None => false,
    };
    match refused.command {
        CommandName::Run if name == b"at".as_slice() => String::from_str(
            alloc,
            "a run takes moments of arrival with --clock simulated alone",
        ),
        CommandName::Run if is_shape_or_spans(name) && !is_begun => String::from_str(
            alloc,
            "'run' takes the first form behind a row 'geometry' alone",
        ),
        CommandName::Run if !is_of_device(name) || is_sector_post(name) => String::from_str(
            alloc,
            "'run' doesn't take this row; 'plan', 'check' and 'audit' do",
        ),
        _ if refused.command != CommandName::Run && is_of_run(name) => {
            format!(in alloc; "'{command}' doesn't take this row; 'run' does")
        }
        _ => {
            let row = refused
                .records
                .iter()
                .position(told)
                .unwrap_or(0)
                .saturating_add(1);
            let (own, other) = if is_of_first(name) {
                ("second", "first")
            } else {
                ("first", "second")
            };
            format!(in alloc;
                "the device has the {own} form since row {row}, and this row is of the {other}"
            )
        }
    }
}

/// Which rows are taken where one of this name isn't.
fn name_taken_rows(command: CommandName, name: &[u8]) -> &'static str {
    match command {
        CommandName::Run if name == b"at".as_slice() =>
            "--clock simulated, or a script without 'at' rows",
        CommandName::Run if is_of_device(name) && !is_sector_post(name) =>
            "'geometry', then 'shape' and 'spans' rows; or 'page', 'sheet', 'strobe' and 'sector' rows",
        CommandName::Run =>
            "page, sheet, strobe, sector, strict, channels, hosts, batch, submitcap, postcap, op, opread, fault, chipfail, notready, array; or geometry, shape and spans in place of page, sheet, strobe and sector",
        _ if is_of_run(name) =>
            "shape, spans and sectorpost, or page, sheet, strobe and sector; strict, bus, free, running, runsectors, want, sectors or weight",
        _ =>
            "'shape', 'spans' and 'sectorpost' rows alone, or 'page', 'sheet', 'strobe' and 'sector' rows alone",
    }
}

/// The message about a script as a whole.
fn whole_message(alloc: Global, refused: &Refused<'_, '_>) -> Result<String, AllocError> {
    let (input, name) = (refused.input, refused.input.script_name());
    match refused.fault {
        ScriptFault::NoEnd => no_end(alloc, input),
        ScriptFault::Missing => {
            let what = name_missing_row(refused.command, refused.records);
            format!(in alloc; "onfi_sim: {name}: the script lacks {what}\n")
        }
        ScriptFault::Sheet(SheetFault::Missing(_)) => {
            let which = missing_parameters(alloc, refused.records)?;
            format!(in alloc; "onfi_sim: {name}: no 'sheet' row gives {which}\n")
        }
        ScriptFault::Sheet(SheetFault::ZeroCycle) if has_strobes(refused.records) =>
            format!(in alloc;
                "onfi_sim: {name}: tWC of the 'sheet' rows is 0; round it up to 1 ns\n"
            ),
        ScriptFault::Strobe(StrobeFault::Missing(_)) => {
            let which = missing_strobes(alloc, refused.records)?;
            format!(in alloc;
                "onfi_sim: {name}: no 'strobe' row gives {which}, in ps; one that the device hasn't is 0\n"
            )
        }
        ScriptFault::Problem(ProblemFault::BadLun) => bad_lun(alloc, refused),
        ScriptFault::Problem(ProblemFault::NoLengths) => no_lengths(alloc, refused),
        fault => {
            let what = whole_fault(refused.command, fault);
            let more = give_advice(refused.command, fault);
            format!(in alloc; "onfi_sim: {name}: {what}{more}\n")
        }
    }
}

/// The line of a text, counted from 0, that closes a script but for capitals and blanks.
fn find_near_end(text: &[u8]) -> Option<usize> {
    text.split(|byte| *byte == b'\n')
        .position(|line| line.trim_ascii().eq_ignore_ascii_case(b"end"))
}

/// The message about a script that no line closes.
fn no_end(alloc: Global, input: &Input<'_>) -> Result<String, AllocError> {
    let name = input.script_name();
    if let Some(guess) = guess(input.text) {
        if guess != OtherText::Script {
            let what = guess.text();
            return format!(in alloc; "onfi_sim: {name}:1: {what}\n");
        }
    }
    if let Some(at) = find_near_end(input.text) {
        let (line, found) = (
            at.saturating_add(1),
            escape_bytes(alloc, line_at(input.text, at))?,
        );
        return format!(in alloc;
            "onfi_sim: {name}:{line}: '{found}' doesn't close the script; the line 'end' does, in small letters and without blanks\n"
        );
    }
    let line = lines_in(input.text).saturating_add(1);
    format!(in alloc;
        "onfi_sim: {name}:{line}: the script ends here, and no line 'end' closes it\n"
    )
}

/// The timing parameters of a sheet, in the order in which a missing one is reported.
const PARAMETERS: [&str; 9] = [
    "tWC", "tRC", "tADL", "tWHR", "tRHW", "tWB", "tPLRBSY", "tPLPBSY", "tPLEBSY",
];

/// The parameters of strobes, in the order in which a missing one is reported.
const STROBES: [&str; 8] = [
    "tRPRE", "tRC", "tRPST", "tRPSTH", "tWPRE", "tDSC", "tWPST", "tWPSTH",
];

/// Appends one more name to others.
fn push_name(names: &mut String, name: &str) -> Result<(), AllocError> {
    if !names.is_empty() {
        names.push_str(", ")?;
    }
    names.push_str(name)
}

/// The timing parameters that no row gives; beside strobes tRC isn't asked for.
fn missing_parameters(alloc: Global, records: &[ByteRecord]) -> Result<String, AllocError> {
    let mut names = String::new(alloc);
    let is_asked = |name: &str| name != "tRC" || !has_strobes(records);
    for name in PARAMETERS {
        if is_asked(name) && !has_row(records, b"sheet", name.as_bytes()) {
            push_name(&mut names, name)?;
        }
    }
    Ok(names)
}

/// The parameters of strobes that no row gives.
fn missing_strobes(alloc: Global, records: &[ByteRecord]) -> Result<String, AllocError> {
    let mut names = String::new(alloc);
    for name in STROBES {
        if !has_row(records, b"strobe", name.as_bytes()) {
            push_name(&mut names, name)?;
        }
    }
    Ok(names)
}

/// Whether data and status bytes go by strobes.
fn has_strobes(records: &[ByteRecord]) -> bool {
    has_row(records, b"strobe", b"")
}

/// Whether a row begins with these fields.
fn has_row(records: &[ByteRecord], name: &[u8], kind: &[u8]) -> bool {
    records.iter().any(|record| field(record, 0) == name
        && (kind.is_empty() || field(record, 1) == kind))
}

/// Which row of its device a script lacks.
fn name_missing_row(command: CommandName, records: &[ByteRecord]) -> &'static str {
    if command == CommandName::Device {
        return "the device's 'page' rows";
    }
    let first = ["shape", "spans", "geometry"]
        .iter()
        .any(|name| has_row(records, name.as_bytes(), b""));
    if !first {
        return if ["sheet", "strobe", "sector"]
            .iter()
            .any(|name| has_row(records, name.as_bytes(), b""))
        {
            "the device's 'page' rows"
        } else if command == CommandName::Run {
            "a device: 'page' and 'sheet' rows, or 'geometry', 'shape' and 'spans' rows"
        } else {
            "a device: 'shape' and 'spans' rows, or 'page' and 'sheet' rows"
        };
    }
    if !has_row(records, b"shape", b"") {
        return "the row 'shape'";
    }
    if !has_row(records, b"spans", b"read") {
        return "the row 'spans,read,..'";
    }
    if !has_row(records, b"spans", b"program") {
        return "the row 'spans,program,..'";
    }
    "the row 'spans,erase,..'"
}

/// What is wrong with a script as a whole.
fn whole_fault(command: CommandName, fault: ScriptFault) -> &'static str {
    match fault {
        ScriptFault::Page(PageFault::Short) =>
            "the 'page' rows hold fewer than the 256 bytes of one parameter page",
        ScriptFault::Page(_) =>
            "no copy in the 'page' rows is a parameter page: signature 'ONFI', CRC in bytes 254 and 255",
        ScriptFault::Geometry(fault) => geometry_fault(fault),
        ScriptFault::Sheet(SheetFault::ZeroCycle) => "tWC or tRC is 0; round them up to 1 ns",
        ScriptFault::Sheet(_) => "the 'sheet' rows give no phase lengths",
        ScriptFault::Strobe(StrobeFault::ZeroCycle) =>
            "tRC or tDSC of the 'strobe' rows is 0; two bytes take some ps",
        ScriptFault::Strobe(_) => "the 'strobe' rows give no phase lengths",
        ScriptFault::Problem(ProblemFault::TooMany) if command == CommandName::Check =>
            "there are more than eight 'want' rows, and a plan is of at most eight requests",
        ScriptFault::Problem(ProblemFault::TooMany) =>
            "there are more than eight 'want' rows; plan eight requests at a time",
        ScriptFault::Problem(ProblemFault::NoLengths) =>
            "sectors are put out whose length isn't stated, or by something else than a read",
        ScriptFault::Problem(ProblemFault::Clock) =>
            "times might reach 2^62 ns; count them from a later zero",
        _ => "the script can't be taken",
    }
}

/// Why a device of the 'page' rows can't be driven.
fn geometry_fault(fault: GeometryFault) -> &'static str {
    match fault {
        GeometryFault::WideBus =>
            "the device has a 16-bit bus (bit 0 of byte 6), and only 8-bit ones can be planned for",
        GeometryFault::NoStatusEnhanced =>
            "the device has no Read Status Enhanced (78h): bit 3 of byte 8 is 0",
        GeometryFault::NoColumnEnhanced =>
            "the device has no Change Read Column Enhanced (06h-E0h): bit 6 of byte 8 is 0",
        GeometryFault::NoMultiLun =>
            "the device can't run several LUNs at a time: bit 1 of byte 6 is 0",
        GeometryFault::LunCount => "the device has no LUN, or more than 8 (byte 100)",
        GeometryFault::PlaneBits => "the device has more than 2 plane address bits (byte 113)",
        GeometryFault::Zero => "the parameter page tells of no page, no block or no data byte",
        GeometryFault::RowTooWide =>
            "row addresses don't fit the row address cycles; look at bytes 80 to 101 of the page",
        GeometryFault::ColumnTooWide =>
            "column addresses don't fit the column address cycles; look at bytes 80 to 101 of the page",
        GeometryFault::TooLarge =>
            "the device has more than 4096 pages a block, 65536 blocks a LUN or 65535 bytes a page",
    }
}

/// What else may be done where a page doesn't show a command that the device may have.
fn give_advice(command: CommandName, fault: ScriptFault) -> &'static str {
    match fault {
        ScriptFault::Geometry(
            GeometryFault::NoStatusEnhanced
            | GeometryFault::NoColumnEnhanced
            | GeometryFault::NoMultiLun,
        ) if command != CommandName::Run =>
            "; if it can all the same, describe it by 'shape' and 'spans' rows",
        _ => "",
    }
}

/// The message about a request that is none of the device, or a running group that is none.
fn bad_lun(alloc: Global, refused: &Refused<'_, '_>) -> Result<String, AllocError> {
    let (input, records) = (refused.input, refused.records);
    let name = input.script_name();
    let found = match read_rows(alloc, purpose_of(refused.command), input.text) {
        Ok(rows) => bad_row(alloc, rows.as_slice()),
        Err(_) => None,
    };
    let Some(at) = found else {
        return format!(in alloc;
            "onfi_sim: {name}: a request or a running group isn't one of the device\n"
        );
    };
    let row = at.saturating_add(1);
    let Some(record) = records.get(at) else {
        return format!(in alloc; "onfi_sim: {name}: row {row} isn't one of the device\n");
    };
    let (line, text) = (line_of(input.text, record), row_text(alloc, record)?);
    let what = if field(record, 0) == b"want".as_slice() {
        "the device has no such LUN, or an erase names a page other than 0"
    } else {
        "this is no running group: planes rise, the device groups its blocks, and NEXT has a phase before it and one left"
    };
    format!(in alloc; "onfi_sim: {name}:{line}: row {row} '{text}': {what}\n")
}

/// The message about sectors without a length.
fn no_lengths(alloc: Global, refused: &Refused<'_, '_>) -> Result<String, AllocError> {
    let (input, records) = (refused.input, refused.records);
    let name = input.script_name();
    let found = match read_rows(alloc, purpose_of(refused.command), input.text) {
        Ok(rows) => unstated_row(alloc, rows.as_slice()),
        Err(_) => None,
    };
    let (record, kind) = match found {
        Some((at, kind)) => (records.get(at), kind),
        None => (None, Kind::Read),
    };
    let (Some(record), Some((at, _))) = (record, found) else {
        let what = whole_fault(refused.command, refused.fault);
        return format!(in alloc; "onfi_sim: {name}: {what}\n");
    };
    let (row, line, text) = (
        at.saturating_add(1),
        line_of(input.text, record),
        row_text(alloc, record)?,
    );
    let what = match kind {
        Kind::Program | Kind::Erase => "reads alone put out sectors",
        _ if has_row(records, b"page", b"") =>
            "a page has fewer sectors, or no row 'sector' says how many bytes one has",
        _ => "no row 'sectorpost' says how long an output of so many sectors is",
    };
    format!(in alloc; "onfi_sim: {name}:{line}: row {row} '{text}': {what}\n")
}

/// The first row, counted from 0, that has sectors put out without a length, and the kind of what is to put them out.
fn unstated_row(alloc: Global, rows: &[Row]) -> Option<(usize, Kind)> {
    let device = device_of(alloc, rows).ok()?;
    let setup = set_up(alloc, rows, &device).ok()?;
    for (at, row) in rows.iter().enumerate() {
        if let Some(kind) = find_unstated(&setup, row) {
            return Some((at, kind));
        }
    }
    None
}

/// The kind of what this row has put out sectors without a length.
fn find_unstated(setup: &Setup, row: &Row) -> Option<Kind> {
    match row {
        Row::Sectors { request, count } => {
            let id = u64::from(*request);
            let want = setup.wants.as_slice().iter().find(|want| want.id == id)?;
            unstated_kind(setup, want.kind, *count)
        }
        Row::RunSectors(row) => {
            let state = setup.luns.as_slice().get(usize::from(row.lun()))?;
            match state {
                LunState::Running { group, .. } => {
                    unstated_member(setup, group.members(), row.counts())
                }
                LunState::Free { .. } => None,
            }
        }
        _ => None,
    }
}

/// The kind of the first member that is to put out so many sectors without a length.
fn unstated_member(setup: &Setup, members: &[Want], counts: &[u8]) -> Option<Kind> {
    for (member, count) in members.iter().zip(counts.iter()) {
        let found = unstated_kind(setup, member.kind, *count);
        if found.is_some() {
            return found;
        }
    }
    None
}

/// The kind, where it doesn't put out so many sectors, or no length of that is stated.
fn unstated_kind(setup: &Setup, kind: Kind, count: u8) -> Option<Kind> {
    let amiss = match kind {
        Kind::Program | Kind::Erase => count > 0,
        _ => !setup.timing.states(kind),
    };
    if amiss { Some(kind) } else { None }
}

/// The row, counted from 0, by which the rows set up no problem.
fn bad_row(alloc: Global, rows: &[Row]) -> Option<usize> {
    let device = device_of(alloc, rows).ok()?;
    let setup = set_up(alloc, rows, &device).ok()?;
    rows.iter()
        .position(|row| is_bad(alloc, &setup, row, device.plane_bits))
}

/// Whether this row alone sets up no problem.
fn is_bad(alloc: Global, setup: &Setup, row: &Row, plane_bits: u8) -> bool {
    match row {
        Row::Want { lun, .. } if usize::from(*lun) >= setup.luns.len() => true,
        Row::Want {
            kind: Kind::Erase,
            page,
            ..
        } => *page != 0,
        Row::Running(row) if plane_bits <= 2 => {
            let state = row.state(alloc, plane_bits);
            is_bad_alone(alloc, setup, row.lun(), state)
        }
        _ => false,
    }
}

/// Whether a LUN in this state, all others free, is none of a problem.
fn is_bad_alone(alloc: Global, setup: &Setup, lun: u8, state: LunState) -> bool {
    let Ok(luns) = luns_with(alloc, setup.luns.len(), lun, state) else {
        return false;
    };
    matches!(
        Problem::new(alloc, setup.timing, setup.rules, 0, luns.as_slice(), &[]),
        Err(ProblemFault::BadLun)
    )
}

/// So many LUNs, all free but one.
fn luns_with(
    alloc: Global,
    count: usize,
    lun: u8,
    state: LunState,
) -> Result<Vec<LunState>, AllocError> {
    let mut luns = Vec::new(alloc);
    let mut left = Some(state);
    for at in 0..count {
        let free = LunState::Free { since: 0 };
        luns.push(if at == usize::from(lun) {
            left.take().unwrap_or(free)
        } else {
            free
        })?;
    }
    Ok(luns)
}
