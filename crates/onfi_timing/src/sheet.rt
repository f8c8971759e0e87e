ghost use Rattle.std.specs.Prelude.{◌≡◌, Ok, Err, map, MatchResult};
ghost use Rattle.csv.specs.Records.{fields_of};

use crate::decimal::read_number;
use crate::fault::SheetFault;
use crate::parameter::Parameter;
use crate::records::{field, read_records};
use csv::ByteRecord;
use std::alloc::Global;

/// The timing parameters of a device in ns, as far as they were given.
#[derive(Clone, Copy, Debug, PartialEq, Eq)]
pub struct Sheet {
    pub t_wc: Option<u32>,
    pub t_rc: Option<u32>,
    pub t_adl: Option<u32>,
    pub t_whr: Option<u32>,
    pub t_rhw: Option<u32>,
    pub t_wb: Option<u32>,
    pub t_plrbsy: Option<u32>,
    pub t_plpbsy: Option<u32>,
    pub t_plebsy: Option<u32>,
}

impl Sheet {
    ghost use Rattle.onfi_timing.specs.Sheet.{nothing, given, with_value, with_row, with_record, with_records, IsSheetOf};

    /// A sheet that gives nothing yet.
    pub fn new() -> Sheet
        ensures { result ≡ nothing }
    {
        Sheet {
            t_wc: None,
            t_rc: None,
            t_adl: None,
            t_whr: None,
            t_rhw: None,
            t_wb: None,
            t_plrbsy: None,
            t_plpbsy: None,
            t_plebsy: None,
        }
    }

    /// What the sheet gives for a parameter, in ns.
    pub fn get(&self, parameter: Parameter) -> Option<u32>
        ensures { result ≡ given self.now parameter }
    {
        match parameter {
            Parameter::Twc => self.t_wc,
            Parameter::Trc => self.t_rc,
            Parameter::Tadl => self.t_adl,
            Parameter::Twhr => self.t_whr,
            Parameter::Trhw => self.t_rhw,
            Parameter::Twb => self.t_wb,
            Parameter::Tplrbsy => self.t_plrbsy,
            Parameter::Tplpbsy => self.t_plpbsy,
            Parameter::Tplebsy => self.t_plebsy,
        }
    }

    fn set(&mut self, parameter: Parameter, value: u32)
        ensures { self.new ≡ with_value self.old parameter value }
    {
        match parameter {
            Parameter::Twc => self.t_wc = Some(value),
            Parameter::Trc => self.t_rc = Some(value),
            Parameter::Tadl => self.t_adl = Some(value),
            Parameter::Twhr => self.t_whr = Some(value),
            Parameter::Trhw => self.t_rhw = Some(value),
            Parameter::Twb => self.t_wb = Some(value),
            Parameter::Tplrbsy => self.t_plrbsy = Some(value),
            Parameter::Tplpbsy => self.t_plpbsy = Some(value),
            Parameter::Tplebsy => self.t_plebsy = Some(value),
        }
    }

    /// Takes one row of a sheet: the name of a parameter and its value in ns, in digits.
    ///
    /// # Errors
    /// `Unknown(row)` where no parameter has the name; else `Repeated` where it has a value already; else
    /// `NotANumber(row)` where the value is not in digits; else `TooLong` where it is 2^32 or more. The sheet is then
    /// as before.
    pub fn put(&mut self, row: usize, name: &[u8], value: &[u8]) -> Result<(), SheetFault>
        ensures { MatchResult result (λ _. with_row self.old row name.now value.now ≡ Ok self.new) (λ fault. (with_row self.old row name.now value.now ≡ Err fault) × (self.new ≡ self.old)) }
    {
        let Some(parameter) = Parameter::from_name(name) else {
            return Err(SheetFault::Unknown(row));
        };
        if self.get(parameter).is_some() {
            return Err(SheetFault::Repeated(parameter));
        }
        let Some(number) = read_number(value) else {
            return Err(SheetFault::NotANumber(row));
        };
        let Ok(number) = u32::try_from(number) else {
            return Err(SheetFault::TooLong);
        };
        self.set(parameter, number);
        Ok(())
    }

    // Takes one row of text.
    fn put_record(&mut self, row: usize, fields: &ByteRecord) -> Result<(), SheetFault>
        ensures { MatchResult result (λ _. with_record self.old row (fields_of fields.now) ≡ Ok self.new) (λ fault. with_record self.old row (fields_of fields.now) ≡ Err fault) }
    {
        if fields.len() == 2 {
            self.put(row, field(fields, 0), field(fields, 1))
        } else {
            Err(SheetFault::Unknown(row))
        }
    }

    /// The sheet of a text with a row `name,value` for each parameter, taken from the top.
    ///
    /// # Errors
    /// What `put` answers of the first row that is refused, counted from 1; `Unknown` also where a row has not two
    /// fields; `Memory` only where memory was refused.
    pub fn read(alloc: Global, text: &[u8]) -> Result<Sheet, SheetFault>
        ensures { IsSheetOf text.now result }
    {
        match read_records(alloc, text) {
            Ok(records) => Sheet::of_records(records.as_slice()),
            Err(_) => Err(SheetFault::Memory),
        }
    }

    // The sheet of these rows, taken from the top.
    fn of_records(records: &[ByteRecord]) -> Result<Sheet, SheetFault>
        ensures { with_records nothing 1 (map fields_of records.now) ≡ result }
    {
        let mut sheet = Sheet::new();
        for (at, record) in records.iter().enumerate() {
            if let Err(fault) = sheet.put_record(at + 1, record) {
                return Err(fault);
            }
        }
        Ok(sheet)
    }
}
