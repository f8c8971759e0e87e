ghost use Rattle.std.specs.Prelude.{◌≡◌, Some, None, MatchResult};

use crate::strobe::Strobe;
use crate::strobes::Strobes;

/// A value in ps for each parameter of the strobes.
#[derive(Clone, Copy, Debug, PartialEq, Eq)]
pub struct StrobeValues {
    pub t_rpre: u32,
    pub t_rc: u32,
    pub t_rpst: u32,
    pub t_rpsth: u32,
    pub t_wpre: u32,
    pub t_dsc: u32,
    pub t_wpst: u32,
    pub t_wpsth: u32,
}

impl StrobeValues {
    ghost use Rattle.onfi_timing.specs.Strobes.{Give, first_missing_strobe};

    /// The values of strobes.
    ///
    /// # Errors
    /// The first parameter, in their order, that the strobes don't give.
    pub fn of(strobes: &Strobes) -> Result<StrobeValues, Strobe>
        ensures { MatchResult result (λ values. Give strobes.now values × (first_missing_strobe strobes.now ≡ None)) (λ strobe. first_missing_strobe strobes.now ≡ Some strobe) }
    {
        Ok(StrobeValues {
            t_rpre: strobes.t_rpre.ok_or(Strobe::Trpre)?,
            t_rc: strobes.t_rc.ok_or(Strobe::Trc)?,
            t_rpst: strobes.t_rpst.ok_or(Strobe::Trpst)?,
            t_rpsth: strobes.t_rpsth.ok_or(Strobe::Trpsth)?,
            t_wpre: strobes.t_wpre.ok_or(Strobe::Twpre)?,
            t_dsc: strobes.t_dsc.ok_or(Strobe::Tdsc)?,
            t_wpst: strobes.t_wpst.ok_or(Strobe::Twpst)?,
            t_wpsth: strobes.t_wpsth.ok_or(Strobe::Twpsth)?,
        })
    }
}
