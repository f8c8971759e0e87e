ghost use Rattle.std.specs.Prelude.{◌≡◌, Ok, Err, map, MatchResult};
ghost use Rattle.csv.specs.Records.{fields_of};

use crate::decimal::read_number;
use crate::records::{field, read_records};
use crate::strobe::Strobe;
use crate::strobe_fault::StrobeFault;
use csv::ByteRecord;
use std::alloc::Global;

/// The parameters of a device's strobes in ps, as far as they were given: with them data and status bytes go by NV-DDR2 or
/// NV-DDR3 (ONFI 4.2, data interfaces), and without them by the asynchronous interface.
#[derive(Clone, Copy, Debug, PartialEq, Eq)]
pub struct Strobes {
    pub t_rpre: Option<u32>,
    pub t_rc: Option<u32>,
    pub t_rpst: Option<u32>,
    pub t_rpsth: Option<u32>,
    pub t_wpre: Option<u32>,
    pub t_dsc: Option<u32>,
    pub t_wpst: Option<u32>,
    pub t_wpsth: Option<u32>,
}

impl Strobes {
    ghost use Rattle.onfi_timing.specs.StrobeRows.{no_strobes, strobe_given, with_strobe, with_strobe_row, with_strobe_record, with_strobe_records, AreStrobesOf};

    /// Strobes that give nothing yet.
    pub fn new() -> Strobes
        ensures { result ≡ no_strobes }
    {
        Strobes {
            t_rpre: None,
            t_rc: None,
            t_rpst: None,
            t_rpsth: None,
            t_wpre: None,
            t_dsc: None,
            t_wpst: None,
            t_wpsth: None,
        }
    }

    /// What the strobes give for a parameter, in ps.
    pub fn get(&self, strobe: Strobe) -> Option<u32>
        ensures { result ≡ strobe_given self.now strobe }
    {
        match strobe {
            Strobe::Trpre => self.t_rpre,
            Strobe::Trc => self.t_rc,
            Strobe::Trpst => self.t_rpst,
            Strobe::Trpsth => self.t_rpsth,
            Strobe::Twpre => self.t_wpre,
            Strobe::Tdsc => self.t_dsc,
            Strobe::Twpst => self.t_wpst,
            Strobe::Twpsth => self.t_wpsth,
        }
    }

    fn set(&mut self, strobe: Strobe, value: u32)
        ensures { self.new ≡ with_strobe self.old strobe value }
    {
        match strobe {
            Strobe::Trpre => self.t_rpre = Some(value),
            Strobe::Trc => self.t_rc = Some(value),
            Strobe::Trpst => self.t_rpst = Some(value),
            Strobe::Trpsth => self.t_rpsth = Some(value),
            Strobe::Twpre => self.t_wpre = Some(value),
            Strobe::Tdsc => self.t_dsc = Some(value),
            Strobe::Twpst => self.t_wpst = Some(value),
            Strobe::Twpsth => self.t_wpsth = Some(value),
        }
    }

    /// Takes one row: the name of a parameter of strobes and its value in ps, in digits.
    ///
    /// # Errors
    /// `Unknown(row)` where no parameter of strobes has the name; else `Repeated` where it has a value already; else
    /// `NotANumber(row)` where the value is not in digits; else `TooLong` where it is 2^32 or more. The strobes are then
    /// as before.
    pub fn put(&mut self, row: usize, name: &[u8], value: &[u8]) -> Result<(), StrobeFault>
        ensures { MatchResult result (λ _. with_strobe_row self.old row name.now value.now ≡ Ok self.new) (λ fault. (with_strobe_row self.old row name.now value.now ≡ Err fault) × (self.new ≡ self.old)) }
    {
        let Some(strobe) = Strobe::from_name(name) else {
            return Err(StrobeFault::Unknown(row));
        };
        if self.get(strobe).is_some() {
            return Err(StrobeFault::Repeated(strobe));
        }
        let Some(number) = read_number(value) else {
            return Err(StrobeFault::NotANumber(row));
        };
        let Ok(number) = u32::try_from(number) else {
            return Err(StrobeFault::TooLong);
        };
        self.set(strobe, number);
        Ok(())
    }

    // Takes one row of text.
    fn put_record(&mut self, row: usize, fields: &ByteRecord) -> Result<(), StrobeFault>
        ensures { MatchResult result (λ _. with_strobe_record self.old row (fields_of fields.now) ≡ Ok self.new) (λ fault. with_strobe_record self.old row (fields_of fields.now) ≡ Err fault) }
    {
        if fields.len() == 2 {
            self.put(row, field(fields, 0), field(fields, 1))
        } else {
            Err(StrobeFault::Unknown(row))
        }
    }

    /// The strobes of a text with a row `name,value` for each parameter, taken from the top.
    ///
    /// # Errors
    /// What `put` answers of the first row that is refused, counted from 1; `Unknown` also where a row has not two
    /// fields; `Memory` only where memory was refused.
    pub fn read(alloc: Global, text: &[u8]) -> Result<Strobes, StrobeFault>
        ensures { AreStrobesOf text.now result }
    {
        match read_records(alloc, text) {
            Ok(records) => Strobes::of_records(records.as_slice()),
            Err(_) => Err(StrobeFault::Memory),
        }
    }

    // The strobes of these rows, taken from the top.
    fn of_records(records: &[ByteRecord]) -> Result<Strobes, StrobeFault>
        ensures { with_strobe_records no_strobes 1 (map fields_of records.now) ≡ result }
    {
        let mut strobes = Strobes::new();
        for (at, record) in records.iter().enumerate() {
            if let Err(fault) = strobes.put_record(at + 1, record) {
                return Err(fault);
            }
        }
        Ok(strobes)
    }
}
