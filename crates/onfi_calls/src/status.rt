//! What a call answers.
ghost use Rattle.std.specs.Prelude.{◌≡◌};
ghost use Rattle.onfi_calls.specs.Status.{accept_status, lacking_status, number_of, plan_status, problem_status, ran_status, ready_status, spans_status, text_of};

use onfi_planner::PlanFault;
use onfi_problem::ProblemFault;
use onfi_steady::{AcceptFault, RanFault, ReadyFault};
use onfi_timing::SpanFault;

/// What a call answers by a number, the answers to scripts apart.
#[derive(Clone, Copy)]
pub enum Status {
    /// All went well.
    Done,
    /// A text is longer than the room for it.
    NoRoom,
    /// Memory was refused.
    Memory,
    /// A search may open no node, or more than 1,048,576.
    BadLimit,
    /// As many nodes were opened as may be, and the search isn't over.
    Over,
    /// A plan is to be found in another way than by ONFI_PLAIN, ONFI_WITHIN or ONFI_RULE.
    BadBy,
    /// Words that ask for nothing that this call answers.
    BadWords,
    /// A command or a post takes no time.
    ZeroSpan,
    /// A length or a wait is 2^50 ns or more.
    LongSpan,
    /// More than 2 bits name the plane.
    BadPlaneBits,
    /// The kind of a want is above 2.
    BadKind,
    /// A running group has more than 4 members.
    BadMembers,
    /// More than eight wants, no LUN, or more than eight; or 64 requests wait for the LUN.
    TooMany,
    /// A want or a running group that the LUNs can't have, an erase of another page than 0, or ids of wants that are equal or don't rise.
    BadLun,
    /// Times that reach 2^62 ns.
    Clock,
    /// A LUN, block or page that the device doesn't have.
    BadPlace,
    /// A geometry that no parameter page gives.
    BadGeometry,
    /// The number of a request isn't above that of the last one that waits for its LUN, or one of that number waits.
    BadOrder,
    /// A read of so many sectors without a post of as many, or sectors of what is no read.
    NoLengths,
    /// Sectors of a read that its page doesn't have, or that have no byte.
    BadSectors,
    /// A count of a schedule is out of its range, or a start is 2^63 ns or more.
    BadSchedule,
    /// No phase is left, or none was given since something changed.
    NothingDue,
    /// The phase isn't the one that is due.
    NotDue,
    /// The phase started before it may.
    TooSoon,
    /// No request of that number waits.
    NotWaiting,
    /// A dispatcher is none: something else wrote its memory.
    BadDispatcher,
    /// The header line is none of a certificate.
    BadHeader,
    /// No token stands at the place, or so many good ones do and the text doesn't end with one LF after them.
    BadToken,
    /// A certificate has more than 100,000,000 tokens.
    TooManyTokens,
    /// The header names another option than the channel has.
    OtherOption,
    /// The schedule isn't legal.
    Illegal,
    /// The tokens end inside a tree.
    Short,
    /// A token stands after the tree.
    Trailing,
    /// A branch has another width than there are moves, or there is no move.
    Width,
    /// A bound doesn't reach the finish, or there is none.
    BoundLow,
    /// A move of the LUN that is yielded to doesn't end in time, or there is none.
    YieldNoFit,
    /// A move yields to its own LUN, to one that yields, or was yielded to.
    YieldLoop,
    /// Something is left to do, or less time has passed.
    NotEnd,
    /// The schedule ends before the time that is given.
    EndsBefore,
    /// A parameter page has fewer than 256 bytes.
    PageShort,
    /// No copy of a parameter page has two signature bytes and the right check value.
    NoCopy,
    /// The data bus has 16 bits.
    WideBus,
    /// The device has no Read Status Enhanced.
    NoStatusEnhanced,
    /// The device has no Change Read Column Enhanced.
    NoColumnEnhanced,
    /// Several LUNs, and not at the same time.
    NoMultiLun,
    /// No LUN, or more than eight.
    LunCount,
    /// More than 2 plane address bits.
    PlaneBits,
    /// No page, no block or no data byte.
    Zero,
    /// A row address doesn't fit the row address cycles.
    RowTooWide,
    /// A column address doesn't fit the column address cycles.
    ColumnTooWide,
    /// More than 4,096 pages a block, 65,536 blocks a LUN or 65,535 bytes a page.
    TooLarge,
    /// The sheet gives no value for a parameter.
    SheetMissing,
    /// The sheet gives a parameter twice.
    SheetRepeated,
    /// A row of the sheet is no parameter with its value.
    SheetUnknown,
    /// The value of a row of the sheet is no number.
    SheetNotANumber,
    /// tWC or tRC is 0.
    SheetZeroCycle,
    /// A value is 2^32 ns or more.
    SheetTooLong,
    /// The strobes give no value for a parameter.
    StrobeMissing,
    /// The strobes give a parameter twice.
    StrobeRepeated,
    /// A row of the strobes is no parameter with its value.
    StrobeUnknown,
    /// The value of a row of the strobes is no number.
    StrobeNotANumber,
    /// No open node has ended as that number.
    UnknownNode,
    /// Something else is left at the node that is named.
    OtherLeft,
    /// A LUN may go on sooner than is asked at the node that is named.
    Sooner,
    /// More than 1,048,576 open nodes.
    TooManyNodes,
}

/// Each of them.
pub const ALL: [Status; 65] = [
    Status::Done,
    Status::NoRoom,
    Status::Memory,
    Status::BadLimit,
    Status::Over,
    Status::BadBy,
    Status::BadWords,
    Status::ZeroSpan,
    Status::LongSpan,
    Status::BadPlaneBits,
    Status::BadKind,
    Status::BadMembers,
    Status::TooMany,
    Status::BadLun,
    Status::Clock,
    Status::BadPlace,
    Status::BadGeometry,
    Status::BadOrder,
    Status::NoLengths,
    Status::BadSectors,
    Status::BadSchedule,
    Status::NothingDue,
    Status::NotDue,
    Status::TooSoon,
    Status::NotWaiting,
    Status::BadDispatcher,
    Status::BadHeader,
    Status::BadToken,
    Status::TooManyTokens,
    Status::OtherOption,
    Status::Illegal,
    Status::Short,
    Status::Trailing,
    Status::Width,
    Status::BoundLow,
    Status::YieldNoFit,
    Status::YieldLoop,
    Status::NotEnd,
    Status::EndsBefore,
    Status::PageShort,
    Status::NoCopy,
    Status::WideBus,
    Status::NoStatusEnhanced,
    Status::NoColumnEnhanced,
    Status::NoMultiLun,
    Status::LunCount,
    Status::PlaneBits,
    Status::Zero,
    Status::RowTooWide,
    Status::ColumnTooWide,
    Status::TooLarge,
    Status::SheetMissing,
    Status::SheetRepeated,
    Status::SheetUnknown,
    Status::SheetNotANumber,
    Status::SheetZeroCycle,
    Status::SheetTooLong,
    Status::StrobeMissing,
    Status::StrobeRepeated,
    Status::StrobeUnknown,
    Status::StrobeNotANumber,
    Status::UnknownNode,
    Status::OtherLeft,
    Status::Sooner,
    Status::TooManyNodes,
];

impl Status {
    /// Its number.
    pub fn number(self) -> u32
        ensures { result ≡ number_of self }
    {
        match self {
            Status::Done => 0,
            Status::NoRoom => 3,
            Status::Memory => 4,
            Status::BadLimit => 5,
            Status::Over => 6,
            Status::BadBy => 7,
            Status::BadWords => 9,
            Status::ZeroSpan => 10,
            Status::LongSpan => 11,
            Status::BadPlaneBits => 12,
            Status::BadKind => 13,
            Status::BadMembers => 14,
            Status::TooMany => 20,
            Status::BadLun => 21,
            Status::Clock => 22,
            Status::BadPlace => 23,
            Status::BadGeometry => 24,
            Status::BadOrder => 27,
            Status::NoLengths => 28,
            Status::BadSectors => 29,
            Status::BadSchedule => 30,
            Status::NothingDue => 31,
            Status::NotDue => 33,
            Status::TooSoon => 34,
            Status::NotWaiting => 35,
            Status::BadDispatcher => 36,
            Status::BadHeader => 40,
            Status::BadToken => 41,
            Status::TooManyTokens => 42,
            Status::OtherOption => 43,
            Status::Illegal => 50,
            Status::Short => 51,
            Status::Trailing => 52,
            Status::Width => 53,
            Status::BoundLow => 54,
            Status::YieldNoFit => 55,
            Status::YieldLoop => 56,
            Status::NotEnd => 57,
            Status::EndsBefore => 58,
            Status::PageShort => 60,
            Status::NoCopy => 61,
            Status::WideBus => 70,
            Status::NoStatusEnhanced => 71,
            Status::NoColumnEnhanced => 72,
            Status::NoMultiLun => 73,
            Status::LunCount => 74,
            Status::PlaneBits => 75,
            Status::Zero => 76,
            Status::RowTooWide => 77,
            Status::ColumnTooWide => 78,
            Status::TooLarge => 79,
            Status::SheetMissing => 80,
            Status::SheetRepeated => 81,
            Status::SheetUnknown => 82,
            Status::SheetNotANumber => 83,
            Status::SheetZeroCycle => 84,
            Status::SheetTooLong => 85,
            Status::StrobeMissing => 86,
            Status::StrobeRepeated => 87,
            Status::StrobeUnknown => 88,
            Status::StrobeNotANumber => 89,
            Status::UnknownNode => 90,
            Status::OtherLeft => 91,
            Status::Sooner => 92,
            Status::TooManyNodes => 93,
        }
    }

    /// What it says.
    pub fn text(self) -> &'static str
        ensures { result.now ≡ text_of self }
    {
        match self {
            Status::Done => "all went well",
            Status::NoRoom => "a text is longer than the room for it",
            Status::Memory => "memory was refused",
            Status::BadLimit => "a search opens 1 to 1,048,576 nodes",
            Status::Over => "the limit of nodes was met and the search isn't over",
            Status::BadBy => "a way to plan that is none",
            Status::BadWords => "words that ask for nothing that is answered",
            Status::ZeroSpan => "a phase without length",
            Status::LongSpan => "a length or a wait of 2^50 ns or more",
            Status::BadPlaneBits => "more than 2 bits name the plane",
            Status::BadKind => "a kind that is none",
            Status::BadMembers => "a running group of more than 4 members",
            Status::TooMany => "more wants than may be, or not 1 to 8 LUNs",
            Status::BadLun =>
                "a want or running group that the LUNs can't have, or ids that are equal or fall",
            Status::Clock => "times that reach 2^62 ns",
            Status::BadPlace => "a LUN, block or page that the device doesn't have",
            Status::BadGeometry => "a geometry that no parameter page gives",
            Status::BadOrder => "a number of a request that doesn't rise, or waits",
            Status::NoLengths => "sectors without lengths",
            Status::BadSectors => "sectors that a page doesn't have",
            Status::BadSchedule =>
                "a count of the schedule out of its range, or a start of 2^63 ns or more",
            Status::NothingDue => "no phase is due",
            Status::NotDue => "a phase that isn't due",
            Status::TooSoon => "a phase that started before it may",
            Status::NotWaiting => "no request of that number waits",
            Status::BadDispatcher => "the memory of a dispatcher was written by something else",
            Status::BadHeader => "the header line is none of a certificate",
            Status::BadToken => "no token of a certificate",
            Status::TooManyTokens => "more than 100,000,000 tokens",
            Status::OtherOption => "the header names another option than the channel has",
            Status::Illegal => "the schedule isn't legal",
            Status::Short => "the tokens end too soon",
            Status::Trailing => "a token behind the tree",
            Status::Width => "a branch of another width than there are moves",
            Status::BoundLow => "a bound that doesn't reach the finish",
            Status::YieldNoFit => "a yield that doesn't fit",
            Status::YieldLoop => "a yield that goes round",
            Status::NotEnd => "no end",
            Status::EndsBefore => "the schedule ends before the time that is told",
            Status::PageShort => "fewer than 256 bytes of a parameter page",
            Status::NoCopy => "no copy of the parameter page is sound",
            Status::WideBus => "the data bus has 16 bits",
            Status::NoStatusEnhanced => "the device has no Read Status Enhanced",
            Status::NoColumnEnhanced => "the device has no Change Read Column Enhanced",
            Status::NoMultiLun => "several LUNs, and not at the same time",
            Status::LunCount => "no LUN, or more than 8",
            Status::PlaneBits => "more than 2 plane address bits",
            Status::Zero => "no page, no block or no data byte",
            Status::RowTooWide => "a row address doesn't fit the row address cycles",
            Status::ColumnTooWide => "a column address doesn't fit the column address cycles",
            Status::TooLarge =>
                "more than 4096 pages a block, 65536 blocks a LUN or 65535 bytes a page",
            Status::SheetMissing => "the sheet gives no value for a parameter",
            Status::SheetRepeated => "the sheet gives a parameter twice",
            Status::SheetUnknown => "a row of the sheet is no parameter with its value",
            Status::SheetNotANumber => "the value of a row of the sheet is no number",
            Status::SheetZeroCycle => "a cycle without length",
            Status::SheetTooLong => "a value of 2^32 ns or more",
            Status::StrobeMissing => "the strobes give no value for a parameter",
            Status::StrobeRepeated => "the strobes give a parameter twice",
            Status::StrobeUnknown => "a row of the strobes is no parameter with its value",
            Status::StrobeNotANumber => "the value of a row of the strobes is no number",
            Status::UnknownNode => "a node that hasn't ended",
            Status::OtherLeft => "a node at which something else is left",
            Status::Sooner => "a node that goes on later",
            Status::TooManyNodes => "more than 1,048,576 open nodes",
        }
    }

    /// The status for a fault of lengths.
    pub fn of_spans(fault: SpanFault) -> Status
        ensures { result ≡ spans_status fault }
    {
        match fault {
            SpanFault::Zero => Status::ZeroSpan,
            SpanFault::TooLong => Status::LongSpan,
        }
    }

    /// The status that says why what is said is no problem.
    pub fn of_problem(fault: ProblemFault) -> Status
        ensures { result ≡ problem_status fault }
    {
        match fault {
            ProblemFault::TooMany => Status::TooMany,
            ProblemFault::BadLun => Status::BadLun,
            ProblemFault::NoLengths => Status::NoLengths,
            ProblemFault::Clock => Status::Clock,
            ProblemFault::Memory => Status::Memory,
        }
    }

    /// The status for a fault of a request that a dispatcher doesn't take.
    pub fn of_accept(fault: AcceptFault) -> Status
        ensures { result ≡ accept_status fault }
    {
        match fault {
            AcceptFault::BadLun => Status::BadLun,
            AcceptFault::Full => Status::TooMany,
            AcceptFault::BadOrder | AcceptFault::Waits => Status::BadOrder,
        }
    }

    /// The status for a phase that didn't run.
    pub fn of_ran(fault: RanFault) -> Status
        ensures { result ≡ ran_status fault }
    {
        match fault {
            RanFault::NothingDue => Status::NothingDue,
            RanFault::TooSoon => Status::TooSoon,
            RanFault::TooLate => Status::Clock,
        }
    }

    /// The status for a LUN that isn't ready early.
    pub fn of_ready(fault: ReadyFault) -> Status
        ensures { result ≡ ready_status fault }
    {
        match fault {
            ReadyFault::BadLun => Status::BadLun,
            ReadyFault::NotInArray => Status::NotDue,
        }
    }

    /// The status of what is said with sectors that have no length, whatever else speaks against a problem of it.
    pub fn of_lacking(fault: Option<ProblemFault>) -> Status
        ensures { result ≡ lacking_status fault }
    {
        match fault {
            Some(ProblemFault::TooMany) => Status::TooMany,
            Some(ProblemFault::BadLun) => Status::BadLun,
            _ => Status::NoLengths,
        }
    }

    /// The status that says why there is no plan.
    pub fn of_plan(fault: PlanFault) -> Status
        ensures { result ≡ plan_status fault }
    {
        match fault {
            PlanFault::Over { .. } => Status::Over,
            PlanFault::Memory => Status::Memory,
        }
    }
}
