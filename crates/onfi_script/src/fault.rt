ghost use Rattle.std.specs.Prelude.{◌≡◌};
ghost use Rattle.onfi_script.specs.declared.fault.RowStop.TheVariants.{Fault};
ghost use Rattle.onfi_script.specs.Stop.{stop_at};
ghost use Rattle.onfi_script.specs.Text.{name_of, page_name, geometry_name, sheet_name, strobe_name, problem_name, request_name};

use onfi_addr::GeometryFault;
use onfi_param::PageFault;
use onfi_problem::ProblemFault;
use onfi_request::RequestFault;
use onfi_timing::{SheetFault, StrobeFault};

/// Why a script is refused.
#[derive(Clone, Copy)]
pub enum ScriptFault {
    /// No line `end`.
    NoEnd,
    /// A row of no known name.
    UnknownRow,
    /// A row with more or fewer fields than its name has.
    FieldCount,
    /// A field that is not one or more digits.
    NotANumber,
    /// A field out of its range.
    OutOfRange,
    /// A row that says again what an earlier one said.
    Repeated,
    /// A row that the script needs is not there.
    Missing,
    /// A field that is not bytes in hexadecimal.
    Hex,
    /// The bytes of the script hold no parameter page.
    Page(PageFault),
    /// A device that can't be driven.
    Geometry(GeometryFault),
    /// A timing sheet that gives no phase lengths.
    Sheet(SheetFault),
    /// What the rows set up is no problem.
    Problem(ProblemFault),
    /// The device doesn't take an operation.
    Request(RequestFault),
    /// A row that the command or the form of the script does not take.
    NotHere,
    /// Strobes that give no phase lengths; reported after `Sheet`.
    Strobe(StrobeFault),
}

fn page_name(fault: PageFault) -> &'static str
    ensures { result.now ≡ page_name fault }
{
    match fault {
        PageFault::Short => "Page Short",
        PageFault::NoCopy => "Page NoCopy",
    }
}

fn geometry_name(fault: GeometryFault) -> &'static str
    ensures { result.now ≡ geometry_name fault }
{
    match fault {
        GeometryFault::WideBus => "Geometry WideBus",
        GeometryFault::NoStatusEnhanced => "Geometry NoStatusEnhanced",
        GeometryFault::NoColumnEnhanced => "Geometry NoColumnEnhanced",
        GeometryFault::NoMultiLun => "Geometry NoMultiLun",
        GeometryFault::LunCount => "Geometry LunCount",
        GeometryFault::PlaneBits => "Geometry PlaneBits",
        GeometryFault::Zero => "Geometry Zero",
        GeometryFault::RowTooWide => "Geometry RowTooWide",
        GeometryFault::ColumnTooWide => "Geometry ColumnTooWide",
        GeometryFault::TooLarge => "Geometry TooLarge",
    }
}

fn sheet_name(fault: SheetFault) -> &'static str
    ensures { result.now ≡ sheet_name fault }
{
    match fault {
        SheetFault::Missing(_) => "Sheet Missing",
        SheetFault::Repeated(_) => "Sheet Repeated",
        SheetFault::Unknown(_) => "Sheet Unknown",
        SheetFault::NotANumber(_) => "Sheet NotANumber",
        SheetFault::ZeroCycle => "Sheet ZeroCycle",
        SheetFault::TooLong => "Sheet TooLong",
        SheetFault::Memory => "Sheet Memory",
    }
}

fn strobe_name(fault: StrobeFault) -> &'static str
    ensures { result.now ≡ strobe_name fault }
{
    match fault {
        StrobeFault::Sheet(fault) => sheet_name(fault),
        StrobeFault::Missing(_) => "Strobe Missing",
        StrobeFault::Repeated(_) => "Strobe Repeated",
        StrobeFault::Unknown(_) => "Strobe Unknown",
        StrobeFault::NotANumber(_) => "Strobe NotANumber",
        StrobeFault::ZeroCycle => "Strobe ZeroCycle",
        StrobeFault::TooLong => "Strobe TooLong",
        StrobeFault::Memory => "Strobe Memory",
    }
}

fn problem_name(fault: ProblemFault) -> &'static str
    ensures { result.now ≡ problem_name fault }
{
    match fault {
        ProblemFault::TooMany => "Problem TooMany",
        ProblemFault::BadLun => "Problem BadLun",
        ProblemFault::NoLengths => "Problem NoLengths",
        ProblemFault::Clock => "Problem Clock",
        ProblemFault::Memory => "Problem Memory",
    }
}

fn request_name(fault: RequestFault) -> &'static str
    ensures { result.now ≡ request_name fault }
{
    match fault {
        RequestFault::Lun => "Request Lun",
        RequestFault::Block => "Request Block",
        RequestFault::Page => "Request Page",
        RequestFault::DataLength => "Request DataLength",
        RequestFault::Sectors => "Request Sectors",
    }
}

impl ScriptFault {
    /// Its name in the line that refuses a script.
    pub fn name(self) -> &'static str
        ensures { result.now ≡ name_of self }
    {
        match self {
            ScriptFault::NoEnd => "NoEnd",
            ScriptFault::UnknownRow => "UnknownRow",
            ScriptFault::FieldCount => "FieldCount",
            ScriptFault::NotANumber => "NotANumber",
            ScriptFault::OutOfRange => "OutOfRange",
            ScriptFault::Repeated => "Repeated",
            ScriptFault::Missing => "Missing",
            ScriptFault::Hex => "Hex",
            ScriptFault::Page(fault) => page_name(fault),
            ScriptFault::Geometry(fault) => geometry_name(fault),
            ScriptFault::Sheet(fault) => sheet_name(fault),
            ScriptFault::Strobe(fault) => strobe_name(fault),
            ScriptFault::Problem(fault) => problem_name(fault),
            ScriptFault::Request(fault) => request_name(fault),
            ScriptFault::NotHere => "NotHere",
        }
    }
}

/// A fault of a script and the row that it is reported of, counted from 1; 0 where it is of no row.
#[derive(Clone, Copy)]
pub struct Refusal {
    pub row: u64,
    pub fault: ScriptFault,
}

/// What stands in the way of reading a row.
#[derive(Clone, Copy)]
pub enum RowStop {
    /// The row is refused.
    Fault(ScriptFault),
    /// A growth was refused.
    Memory,
}

/// What stands in the way of an answer.
#[derive(Clone, Copy)]
pub enum Stop {
    /// The script is refused.
    Refused(Refusal),
    /// A growth was refused.
    Memory,
}

impl From<ScriptFault> for RowStop {
    ghost from_gives = { λ fault stop. stop ≡ Fault fault };

    fn from(fault: ScriptFault) -> RowStop {
        RowStop::Fault(fault)
    }
}

impl RowStop {
    /// The same, reported of a row.
    pub fn at(self, row: u64) -> Stop
        ensures { result ≡ stop_at row self }
    {
        match self {
            RowStop::Fault(fault) => Stop::Refused(Refusal { row, fault }),
            RowStop::Memory => Stop::Memory,
        }
    }
}
