ghost use Rattle.std.specs.Prelude.{◌≡◌, Some, None, MatchResult};

use crate::parameter::Parameter;
use crate::sheet::Sheet;

/// A value in ns for each timing parameter of a sheet.
#[derive(Clone, Copy, Debug, PartialEq, Eq)]
pub struct Values {
    pub t_wc: u32,
    pub t_rc: u32,
    pub t_adl: u32,
    pub t_whr: u32,
    pub t_rhw: u32,
    pub t_wb: u32,
    pub t_plrbsy: u32,
    pub t_plpbsy: u32,
    pub t_plebsy: u32,
}

impl Values {
    ghost use Rattle.onfi_timing.specs.Table.{Gives, first_missing};

    /// The values of a sheet.
    ///
    /// # Errors
    /// The first parameter, in their order, that the sheet doesn't give.
    pub fn of(sheet: &Sheet) -> Result<Values, Parameter>
        ensures { MatchResult result (λ values. Gives sheet.now values × (first_missing sheet.now ≡ None)) (λ parameter. first_missing sheet.now ≡ Some parameter) }
    {
        Ok(Values {
            t_wc: sheet.t_wc.ok_or(Parameter::Twc)?,
            t_rc: sheet.t_rc.ok_or(Parameter::Trc)?,
            t_adl: sheet.t_adl.ok_or(Parameter::Tadl)?,
            t_whr: sheet.t_whr.ok_or(Parameter::Twhr)?,
            t_rhw: sheet.t_rhw.ok_or(Parameter::Trhw)?,
            t_wb: sheet.t_wb.ok_or(Parameter::Twb)?,
            t_plrbsy: sheet.t_plrbsy.ok_or(Parameter::Tplrbsy)?,
            t_plpbsy: sheet.t_plpbsy.ok_or(Parameter::Tplpbsy)?,
            t_plebsy: sheet.t_plebsy.ok_or(Parameter::Tplebsy)?,
        })
    }
}
