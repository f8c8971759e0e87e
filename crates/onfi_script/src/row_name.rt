ghost use Rattle.std.specs.Prelude.{◌≡◌};
ghost use Rattle.csv.specs.Records.{fields_of};
ghost use Rattle.onfi_script.specs.RowName as spec;

use crate::field::{field, is_word};
use crate::purpose::Purpose;
use csv::ByteRecord;

/// The name that a row of a script begins with.
#[derive(Clone, Copy)]
pub enum RowName {
    Shape,
    Spans,
    Page,
    Sheet,
    Strobe,
    Bus,
    Free,
    Running,
    Want,
    Weight,
    SectorPost,
    Sector,
    Sectors,
    RunSectors,
    Strict,
    Channels,
    Hosts,
    Batch,
    SubmitCap,
    PostCap,
    Op,
    OpRead,
    Fault,
    ChipFail,
    NotReady,
    Array,
    At,
    Geometry,
}

/// The two forms of a script.
#[derive(Clone, Copy)]
pub enum Form {
    /// Phase lengths stand in the script.
    First,
    /// They come from a parameter page and a timing sheet, and from strobes where there are any.
    Second,
}

impl Form {
    /// Whether both are the same.
    pub fn is(self, other: Form) -> bool
        ensures { result ≡ spec.is_form self other }
    {
        match (self, other) {
            (Form::First, Form::First) | (Form::Second, Form::Second) => true,
            _ => false,
        }
    }
}

impl RowName {
    /// The row name that a text spells.
    pub fn of(text: &[u8]) -> Option<RowName>
        ensures { result ≡ spec.name_of text.now }
    {
        if is_word(text, "shape") {
            Some(RowName::Shape)
        } else if is_word(text, "spans") {
            Some(RowName::Spans)
        } else if is_word(text, "page") {
            Some(RowName::Page)
        } else if is_word(text, "sheet") {
            Some(RowName::Sheet)
        } else if is_word(text, "strobe") {
            Some(RowName::Strobe)
        } else if is_word(text, "bus") {
            Some(RowName::Bus)
        } else if is_word(text, "free") {
            Some(RowName::Free)
        } else if is_word(text, "running") {
            Some(RowName::Running)
        } else if is_word(text, "want") {
            Some(RowName::Want)
        } else if is_word(text, "weight") {
            Some(RowName::Weight)
        } else if is_word(text, "strict") {
            Some(RowName::Strict)
        } else {
            RowName::of_sectors(text).or(RowName::of_run(text))
        }
    }

    /// The name of a row of reads of some sectors.
    fn of_sectors(text: &[u8]) -> Option<RowName>
        ensures { result ≡ spec.sectors_name_of text.now }
    {
        if is_word(text, "sectorpost") {
            Some(RowName::SectorPost)
        } else if is_word(text, "sector") {
            Some(RowName::Sector)
        } else if is_word(text, "sectors") {
            Some(RowName::Sectors)
        } else if is_word(text, "runsectors") {
            Some(RowName::RunSectors)
        } else {
            None
        }
    }

    /// The name of a row that the command `run` alone takes.
    fn of_run(text: &[u8]) -> Option<RowName>
        ensures { result ≡ spec.run_name_of text.now }
    {
        if is_word(text, "channels") {
            Some(RowName::Channels)
        } else if is_word(text, "hosts") {
            Some(RowName::Hosts)
        } else if is_word(text, "batch") {
            Some(RowName::Batch)
        } else if is_word(text, "submitcap") {
            Some(RowName::SubmitCap)
        } else if is_word(text, "postcap") {
            Some(RowName::PostCap)
        } else if is_word(text, "op") {
            Some(RowName::Op)
        } else if is_word(text, "opread") {
            Some(RowName::OpRead)
        } else if is_word(text, "fault") {
            Some(RowName::Fault)
        } else if is_word(text, "chipfail") {
            Some(RowName::ChipFail)
        } else if is_word(text, "notready") {
            Some(RowName::NotReady)
        } else if is_word(text, "array") {
            Some(RowName::Array)
        } else if is_word(text, "at") {
            Some(RowName::At)
        } else if is_word(text, "geometry") {
            Some(RowName::Geometry)
        } else {
            None
        }
    }

    /// Whether it is taken for a problem alone.
    fn is_of_problem(self) -> bool
        ensures { result ≡ spec.is_of_problem self }
    {
        matches!(
            self,
            RowName::Bus
                | RowName::Free
                | RowName::Running
                | RowName::Want
                | RowName::Weight
                | RowName::SectorPost
                | RowName::Sectors
                | RowName::RunSectors
        )
    }

    /// Whether it is taken for a problem and for a run.
    fn is_of_both(self) -> bool
        ensures { result ≡ spec.is_of_both self }
    {
        matches!(
            self,
            RowName::Shape
                | RowName::Spans
                | RowName::Page
                | RowName::Sheet
                | RowName::Strobe
                | RowName::Sector
                | RowName::Strict
        )
    }

    /// Whether it is taken for a run by a clock alone.
    fn is_of_clock(self) -> bool
        ensures { result ≡ spec.is_of_clock self }
    {
        matches!(self, RowName::At)
    }

    /// Whether rows of this name are taken for that purpose.
    pub fn is_taken(self, purpose: Purpose) -> bool
        ensures { result ≡ spec.is_taken purpose self }
    {
        match purpose {
            Purpose::Problem => self.is_of_both() || self.is_of_problem(),
            Purpose::Run => self.is_of_both() || !(self.is_of_problem() || self.is_of_clock()),
            Purpose::Clocked => self.is_of_both() || !self.is_of_problem(),
        }
    }

    /// The form whose row it is.
    pub fn form(self) -> Option<Form>
        ensures { result ≡ spec.form_of self }
    {
        match self {
            RowName::Shape | RowName::Spans | RowName::Geometry => Some(Form::First),
            RowName::SectorPost => Some(Form::First),
            RowName::Page | RowName::Sheet | RowName::Strobe => Some(Form::Second),
            RowName::Sector => Some(Form::Second),
            _ => None,
        }
    }

    /// Whether its rows may stand in a script of that form; no form is known before the first row of one.
    fn fits(self, form: Option<Form>) -> bool
        ensures { result ≡ spec.fits (spec.form_of self) form }
    {
        match (self.form(), form) {
            (Some(own), Some(form)) => own.is(form),
            _ => true,
        }
    }

    /// Whether it describes a device of the first form that a problem can have too.
    fn is_of_any_device(self) -> bool
        ensures { result ≡ spec.is_of_any_device self }
    {
        matches!(self, RowName::Shape | RowName::Spans)
    }

    /// Whether its rows may stand in a script of that form and for that purpose: a run takes `shape` and `spans` after a row
    /// `geometry` alone.
    pub fn stands(self, purpose: Purpose, form: Option<Form>) -> bool
        ensures { result ≡ spec.stands purpose self form }
    {
        match purpose {
            Purpose::Problem => self.fits(form),
            Purpose::Run | Purpose::Clocked => {
                self.fits(form) && (form.is_some() || !self.is_of_any_device())
            }
        }
    }

    /// Whether a row of this name has as many fields as it needs, the name with them.
    pub fn has_fields(self, row: &ByteRecord) -> bool
        ensures { result ≡ spec.has_fields self (fields_of row.now) }
    {
        let count = row.len();
        match self {
            RowName::Page
            | RowName::Bus
            | RowName::Sector
            | RowName::Strict
            | RowName::Channels
            | RowName::Hosts
            | RowName::Batch
            | RowName::SubmitCap
            | RowName::PostCap
            | RowName::At => count == 2,
            RowName::Sheet
            | RowName::Strobe
            | RowName::Free
            | RowName::Weight
            | RowName::SectorPost
            | RowName::Sectors
            | RowName::ChipFail
            | RowName::NotReady => count == 3,
            RowName::Shape | RowName::Want | RowName::Fault | RowName::Array | RowName::Geometry =>
                count == 5,
            RowName::Spans => count == 6,
            RowName::Running => 7 <= count && count <= 10,
            RowName::RunSectors => 3 <= count && count <= 6,
            RowName::Op => count == op_fields(row),
            RowName::OpRead => count == 8,
        }
    }
}

/// How many fields a row `op` needs: one more for the bytes of a program.
fn op_fields(row: &ByteRecord) -> usize
    ensures { result ≡ spec.op_fields (fields_of row.now) }
{
    if is_word(field(row, 3), "program") {
        8
    } else {
        7
    }
}
