//! The rows of a script.
ghost use Rattle.std.specs.Prelude.{◌≡◌, ◌≤◌};
ghost use Rattle.onfi_script.specs.Seen.{form_in, moment_in, sheet_in, strobes_in};
ghost use Rattle.onfi_script.specs.Device.{bytes_in, is_page};
ghost use Rattle.onfi_script.specs.Setup.{is_beyond, names_absent, want_in};
ghost use Rattle.onfi_script.specs.Subject.{subject_of, settles, is_subject, is_kind, is_op};

use crate::count::Count;
use crate::device::Device;
use crate::device_row::{PageRow, ShapeRow, SpansRow};
use crate::layout::GeometryRow;
use crate::operation::Operation;
use crate::problem_row::RunningRow;
use crate::row_name::Form;
use crate::sector_row::{RunSectorsRow, SectorPostRow};
use onfi_addr::plane_at;
use onfi_request::{Fault, Want};
use onfi_timing::{Kind, Sheet, Strobes};

/// A row of a script; times are in ns.
#[derive(Drop)]
pub enum Row {
    Shape(ShapeRow),
    Spans(SpansRow),
    /// Some bytes of the parameter page.
    Page(PageRow),
    /// The timing sheet with this row and the rows before it.
    Sheet(Sheet),
    /// The strobes with this row and the rows before it.
    Strobe(Strobes),
    Bus {
        bus_free: u64,
    },
    Free {
        lun: u8,
        since: u64,
    },
    Running(RunningRow),
    Want {
        kind: Kind,
        lun: u8,
        block: u16,
        page: u16,
    },
    /// How much the want of that number counts, 0 to 7 in the order of their rows, where plans are made better.
    Weight {
        request: u8,
        weight: u16,
    },
    /// How long an output of some sectors holds the bus.
    SectorPost(SectorPostRow),
    /// How many bytes a sector has.
    Sector {
        bytes: u16,
    },
    /// How many sectors the read of that number puts out, 0 to 7 in the order of their rows; 0 is all of a page.
    Sectors {
        request: u8,
        count: u8,
    },
    /// .. the members of what runs on a LUN.
    RunSectors(RunSectorsRow),
    Strict {
        strict: bool,
    },
    /// How many channels there are.
    Channels {
        count: Count<4>,
    },
    /// How many hosts there are.
    Hosts {
        count: Count<4>,
    },
    /// How many wants one plan takes up.
    Batch {
        count: Count<8>,
    },
    /// How many items a submission queue holds.
    SubmitCap {
        count: Count<1024>,
    },
    /// How many replies a completion queue holds.
    PostCap {
        count: Count<1024>,
    },
    Op(Operation),
    /// A program or erase of the channel's chip that fails.
    Fault {
        channel: u8,
        fault: Fault,
    },
    /// The number, from 0, of a call whose bus fails.
    ChipFail {
        channel: u8,
        number: u32,
    },
    /// The number, from 0, of a status call that says that a LUN isn't ready.
    NotReady {
        channel: u8,
        number: u32,
    },
    /// How long the array of a LUN of the channel's chip really takes at its operation of that number, from 0.
    Array {
        channel: u8,
        lun: u8,
        number: u32,
        length: u64,
    },
    /// When the operations after it arrive, up to the next such row; those before the first arrive as they are submitted.
    At {
        moment: u64,
    },
    /// What a run asks of a device of the first form beside its shape.
    Geometry(GeometryRow),
}

/// What a row settles for a script; two rows that settle the same don't go together.
#[derive(Clone, Copy)]
pub enum Subject {
    Shape,
    Spans(Kind),
    Bus,
    Lun(u8),
    /// The weight of a want.
    Weight(u8),
    /// The post of so many sectors.
    SectorPost(u8),
    Sector,
    /// The sectors of a want.
    Sectors(u8),
    /// The sectors of what runs on a LUN.
    RunSectors(u8),
    Strict,
    Channels,
    Hosts,
    Batch,
    SubmitCap,
    PostCap,
    /// An operation of an array.
    Array { channel: u8, lun: u8, number: u32 },
    Geometry,
}

impl Row {
    /// What the row settles; wants, bytes of a page and values of a sheet or of strobes settle nothing here.
    pub fn subject(&self) -> Option<Subject>
        ensures { result ≡ subject_of self.now }
    {
        match self {
            Row::Shape(_) => Some(Subject::Shape),
            Row::Spans(row) => Some(Subject::Spans(row.kind())),
            Row::Page(_) | Row::Sheet(_) | Row::Strobe(_) => None,
            Row::Bus { .. } => Some(Subject::Bus),
            Row::Free { lun, .. } => Some(Subject::Lun(*lun)),
            Row::Running(row) => Some(Subject::Lun(row.lun())),
            Row::Want { .. } => None,
            Row::Weight { request, .. } => Some(Subject::Weight(*request)),
            Row::SectorPost(row) => Some(Subject::SectorPost(row.count())),
            Row::Sector { .. } => Some(Subject::Sector),
            Row::Sectors { request, .. } => Some(Subject::Sectors(*request)),
            Row::RunSectors(row) => Some(Subject::RunSectors(row.lun())),
            Row::Strict { .. } => Some(Subject::Strict),
            Row::Channels { .. } => Some(Subject::Channels),
            Row::Hosts { .. } => Some(Subject::Hosts),
            Row::Batch { .. } => Some(Subject::Batch),
            Row::SubmitCap { .. } => Some(Subject::SubmitCap),
            Row::PostCap { .. } => Some(Subject::PostCap),
            Row::Op(_)
            | Row::Fault { .. }
            | Row::ChipFail { .. }
            | Row::NotReady { .. }
            | Row::At { .. } => None,
            Row::Array {
                channel,
                lun,
                number,
                ..
            } => Some(Subject::Array {
                channel: *channel,
                lun: *lun,
                number: *number,
            }),
            Row::Geometry(_) => Some(Subject::Geometry),
        }
    }

    /// Whether it is an operation of a host.
    pub fn is_op(&self) -> bool
        ensures { result ≡ is_op self.now }
    {
        matches!(self, Row::Op(_))
    }

    /// The moment of arrival that it gives, in ns.
    pub fn moment(&self) -> Option<u64>
        ensures { result ≡ moment_in self.now }
    {
        match self {
            Row::At { moment } => Some(*moment),
            _ => None,
        }
    }

    /// The form whose row it is.
    pub fn form(&self) -> Option<Form>
        ensures { result ≡ form_in self.now }
    {
        match self {
            Row::Shape(_) | Row::Spans(_) | Row::Geometry(_) => Some(Form::First),
            Row::SectorPost(_) => Some(Form::First),
            Row::Page(_) | Row::Sheet(_) | Row::Strobe(_) => Some(Form::Second),
            Row::Sector { .. } => Some(Form::Second),
            _ => None,
        }
    }

    /// The sheet of a row of it.
    pub fn sheet(&self) -> Option<Sheet>
        ensures { result ≡ sheet_in self.now }
    {
        match self {
            Row::Sheet(sheet) => Some(*sheet),
            _ => None,
        }
    }

    /// The strobes of a row of them.
    pub fn strobes(&self) -> Option<Strobes>
        ensures { result ≡ strobes_in self.now }
    {
        match self {
            Row::Strobe(strobes) => Some(*strobes),
            _ => None,
        }
    }

    /// Whether it is one of bytes of the page.
    pub fn is_page(&self) -> bool
        ensures { result ≡ is_page self.now }
    {
        matches!(self, Row::Page(_))
    }

    /// Its bytes of the page.
    pub fn bytes(&self) -> &[u8]
        ensures { result.now ≡ bytes_in self.now }
    {
        match self {
            Row::Page(page) => page.bytes(),
            _ => b"",
        }
    }

    /// Its want, with this number.
    pub fn want(&self, id: u64, plane_bits: u8) -> Option<Want>
        requires { plane_bits ≤ 2 }
        ensures { result ≡ want_in plane_bits id self.now }
    {
        match self {
            Row::Want {
                kind,
                lun,
                block,
                page,
            } => Some(Want {
                id,
                kind: *kind,
                lun: *lun,
                plane: plane_at(plane_bits, *block),
                block: *block,
                page: *page,
            }),
            _ => None,
        }
    }

    /// Whether it names a LUN that isn't there.
    pub fn names_absent(&self, luns: u8) -> bool
        ensures { result ≡ names_absent luns self.now }
    {
        match self {
            Row::Free { lun, .. } => *lun >= luns,
            Row::Running(row) => row.lun() >= luns,
            _ => false,
        }
    }

    /// Whether it names a LUN that the device lacks, or a sector with more bytes than its page.
    pub fn is_beyond(&self, device: &Device) -> bool
        ensures { result ≡ is_beyond device.now self.now }
    {
        match self {
            Row::Sector { .. } => !device
                .timing
                .states(Kind::ReadSectors { first: 0, count: 1 }),
            _ => self.names_absent(device.luns),
        }
    }

    /// Whether it settles that.
    pub fn settles(&self, subject: Subject) -> bool
        ensures { result ≡ settles subject self.now }
    {
        match self.subject() {
            Some(other) => subject.is(other),
            None => false,
        }
    }
}

impl Subject {
    /// Whether both are the same.
    fn is(self, other: Subject) -> bool
        ensures { result ≡ is_subject self other }
    {
        match (self, other) {
            (Subject::Shape, Subject::Shape)
            | (Subject::Bus, Subject::Bus)
            | (Subject::Sector, Subject::Sector)
            | (Subject::Strict, Subject::Strict)
            | (Subject::Channels, Subject::Channels)
            | (Subject::Hosts, Subject::Hosts)
            | (Subject::Batch, Subject::Batch)
            | (Subject::SubmitCap, Subject::SubmitCap)
            | (Subject::PostCap, Subject::PostCap)
            | (Subject::Geometry, Subject::Geometry) => true,
            (Subject::Spans(kind), Subject::Spans(other)) => is_kind(kind, other),
            (Subject::Lun(lun), Subject::Lun(other)) => lun == other,
            (Subject::Weight(request), Subject::Weight(other)) => request == other,
            (Subject::SectorPost(count), Subject::SectorPost(other)) => count == other,
            (Subject::Sectors(request), Subject::Sectors(other)) => request == other,
            (Subject::RunSectors(lun), Subject::RunSectors(other)) => lun == other,
            (
                Subject::Array {
                    channel,
                    lun,
                    number,
                },
                Subject::Array {
                    channel: on,
                    lun: at,
                    number: other,
                },
            ) => channel == on && lun == at && number == other,
            _ => false,
        }
    }
}

/// Whether both are the same.
pub fn is_kind(kind: Kind, other: Kind) -> bool
    ensures { result ≡ is_kind kind other }
{
    match (kind, other) {
        (Kind::Read, Kind::Read) | (Kind::Program, Kind::Program) | (Kind::Erase, Kind::Erase) =>
            true,
        _ => false,
    }
}
