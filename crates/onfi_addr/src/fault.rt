use std::fmt;
use thiserror::Error;

/// Why a device can't be driven, in the order in which it is reported.
#[derive(Clone, Copy, Debug, PartialEq, Eq, Error)]
pub enum GeometryFault {
    WideBus,
    NoStatusEnhanced,
    NoColumnEnhanced,
    NoMultiLun,
    LunCount,
    PlaneBits,
    Zero,
    RowTooWide,
    ColumnTooWide,
    TooLarge,
}

impl GeometryFault {
    // What a reader is shown of it.
    fn text(&self) -> &'static str {
        match self {
            GeometryFault::WideBus => "the data bus has 16 bits",
            GeometryFault::NoStatusEnhanced => "the device has no Read Status Enhanced",
            GeometryFault::NoColumnEnhanced => "the device has no Change Read Column Enhanced",
            GeometryFault::NoMultiLun => "several LUNs, and not at the same time",
            GeometryFault::LunCount => "no LUN, or more than 8",
            GeometryFault::PlaneBits => "more than 2 plane address bits",
            GeometryFault::Zero => "no page, no block or no data byte",
            GeometryFault::RowTooWide => "a row address doesn't fit the row address cycles",
            GeometryFault::ColumnTooWide =>
                "a column address doesn't fit the column address cycles",
            GeometryFault::TooLarge => {
                "more than 4096 pages a block, 65536 blocks a LUN or 65535 bytes a page"
            }
        }
    }
}

impl fmt::Display for GeometryFault {
    fn fmt<W: fmt::Write>(&self, f: &mut fmt::Formatter<W>) -> fmt::Result {
        f.write_str(self.text())
    }
}
