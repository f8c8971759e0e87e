//! What a reader is shown of each fault.
use onfi_addr::GeometryFault;
use onfi_chip::ChipFault;
use onfi_param::PageFault;
use onfi_request::RequestFault;
use onfi_timing::{Parameter, SheetFault, SpanFault, Strobe, StrobeFault};

#[test]
fn texts_of_pages_and_requests(rt: HostRuntime) {
    for (fault, text) in [
        (PageFault::Short, "fewer than 256 bytes"),
        (
            PageFault::NoCopy,
            "no copy has two signature bytes and the right check value",
        ),
    ] {
        let told = format!(in rt.alloc(); "{fault}").expect(&rt, "memory");
        assert_eq!(rt; told.as_str(), text);
    }
    for (fault, text) in [
        (RequestFault::Lun, "no such LUN"),
        (RequestFault::Block, "no such block"),
        (RequestFault::Page, "no such page"),
        (RequestFault::DataLength, "a wrong count of data bytes"),
        (RequestFault::Sectors, "no such sectors"),
    ] {
        let told = format!(in rt.alloc(); "{fault}").expect(&rt, "memory");
        assert_eq!(rt; told.as_str(), text);
    }
}

#[test]
fn texts_of_devices_and_chips(rt: HostRuntime) {
    for (fault, text) in [
        (GeometryFault::WideBus, "the data bus has 16 bits"),
        (
            GeometryFault::NoStatusEnhanced,
            "the device has no Read Status Enhanced",
        ),
        (
            GeometryFault::NoColumnEnhanced,
            "the device has no Change Read Column Enhanced",
        ),
        (
            GeometryFault::NoMultiLun,
            "several LUNs, and not at the same time",
        ),
        (GeometryFault::LunCount, "no LUN, or more than 8"),
        (GeometryFault::PlaneBits, "more than 2 plane address bits"),
        (GeometryFault::Zero, "no page, no block or no data byte"),
        (
            GeometryFault::RowTooWide,
            "a row address doesn't fit the row address cycles",
        ),
        (
            GeometryFault::ColumnTooWide,
            "a column address doesn't fit the column address cycles",
        ),
        (
            GeometryFault::TooLarge,
            "more than 4096 pages a block, 65536 blocks a LUN or 65535 bytes a page",
        ),
    ] {
        let told = format!(in rt.alloc(); "{fault}").expect(&rt, "memory");
        assert_eq!(rt; told.as_str(), text);
    }
    for (fault, text) in [
        (ChipFault::Bus, "the bus failed"),
        (ChipFault::Memory, "out of memory"),
    ] {
        let told = format!(in rt.alloc(); "{fault}").expect(&rt, "memory");
        assert_eq!(rt; told.as_str(), text);
    }
}

#[test]
fn texts_of_sheets_and_lengths(rt: HostRuntime) {
    for (fault, text) in [
        (SheetFault::Missing(Parameter::Twc), "no value for tWC"),
        (SheetFault::Missing(Parameter::Tadl), "no value for tADL"),
        (SheetFault::Missing(Parameter::Twb), "no value for tWB"),
        (
            SheetFault::Missing(Parameter::Tplebsy),
            "no value for tPLEBSY",
        ),
        (
            SheetFault::Repeated(Parameter::Trc),
            "a second value for tRC",
        ),
        (
            SheetFault::Repeated(Parameter::Twhr),
            "a second value for tWHR",
        ),
        (
            SheetFault::Repeated(Parameter::Trhw),
            "a second value for tRHW",
        ),
        (
            SheetFault::Repeated(Parameter::Tplrbsy),
            "a second value for tPLRBSY",
        ),
        (
            SheetFault::Repeated(Parameter::Tplpbsy),
            "a second value for tPLPBSY",
        ),
        (
            SheetFault::Unknown(1),
            "row 1 is no parameter with its value",
        ),
        (SheetFault::NotANumber(2), "the value of row 2 is no number"),
        (SheetFault::ZeroCycle, "a cycle without length"),
        (SheetFault::TooLong, "a value of 2^32 ns or more"),
        (SheetFault::Memory, "out of memory"),
    ] {
        let told = format!(in rt.alloc(); "{fault}").expect(&rt, "memory");
        assert_eq!(rt; told.as_str(), text);
    }
    for (fault, text) in [
        (SpanFault::Zero, "a phase without length"),
        (SpanFault::TooLong, "a length or a wait of 2^50 ns or more"),
    ] {
        let told = format!(in rt.alloc(); "{fault}").expect(&rt, "memory");
        assert_eq!(rt; told.as_str(), text);
    }
}

#[test]
fn texts_of_strobes(rt: HostRuntime) {
    for (fault, text) in [
        (
            StrobeFault::Sheet(SheetFault::Missing(Parameter::Twc)),
            "no value for tWC",
        ),
        (
            StrobeFault::Missing(Strobe::Trpre),
            "no value for tRPRE of the strobes",
        ),
        (
            StrobeFault::Missing(Strobe::Twpre),
            "no value for tWPRE of the strobes",
        ),
        (
            StrobeFault::Repeated(Strobe::Tdsc),
            "a second value for tDSC of the strobes",
        ),
        (
            StrobeFault::Unknown(1),
            "row 1 is no parameter of strobes with its value",
        ),
        (
            StrobeFault::NotANumber(2),
            "the value of row 2 of the strobes is no number",
        ),
        (
            StrobeFault::ZeroCycle,
            "a cycle of the strobes without length",
        ),
        (StrobeFault::TooLong, "a value of 2^32 ps or more"),
        (StrobeFault::Memory, "out of memory"),
    ] {
        let told = format!(in rt.alloc(); "{fault}").expect(&rt, "memory");
        assert_eq!(rt; told.as_str(), text);
    }
}
