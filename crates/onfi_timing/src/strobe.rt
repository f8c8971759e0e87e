use std::fmt;

/// A parameter of the strobes of NV-DDR2 and NV-DDR3, in ps (ONFI 4.2, timing parameters), in the order in which a missing
/// one is reported.
#[derive(Clone, Copy, Debug, PartialEq, Eq)]
pub enum Strobe {
    /// tRPRE: the preamble of RE_n before data out, warm-up cycles among it.
    Trpre,
    /// tRC: one cycle of RE_n, two bytes out.
    Trc,
    /// tRPST: the postamble of RE_n after data out, tDQSRE among it.
    Trpst,
    /// tRPSTH: how long the postamble of RE_n is held.
    Trpsth,
    /// tWPRE: the preamble of DQS before data in, tCDQSS and warm-up cycles among it.
    Twpre,
    /// tDSC: one cycle of DQS, two bytes in.
    Tdsc,
    /// tWPST: the postamble of DQS after data in.
    Twpst,
    /// tWPSTH: how long the postamble of DQS is held.
    Twpsth,
}

impl Strobe {
    ghost use Rattle.std.specs.Prelude.{◌≡◌, Some};
    ghost use Rattle.onfi_timing.specs.StrobeRows.{strobe_named, strobe_in_named};

    /// The name that the standard and a row give it.
    pub fn name(self) -> &'static str
        ensures { strobe_named result.now ≡ Some self }
    {
        match self {
            Strobe::Trpre => "tRPRE",
            Strobe::Trc => "tRC",
            Strobe::Trpst => "tRPST",
            Strobe::Trpsth => "tRPSTH",
            Strobe::Twpre => "tWPRE",
            Strobe::Tdsc => "tDSC",
            Strobe::Twpst => "tWPST",
            Strobe::Twpsth => "tWPSTH",
        }
    }

    /// The parameter of that name, or None.
    pub fn from_name(name: &[u8]) -> Option<Strobe>
        ensures { result ≡ strobe_named name.now }
    {
        if name == b"tRPRE".as_slice() {
            Some(Strobe::Trpre)
        } else if name == b"tRC".as_slice() {
            Some(Strobe::Trc)
        } else if name == b"tRPST".as_slice() {
            Some(Strobe::Trpst)
        } else if name == b"tRPSTH".as_slice() {
            Some(Strobe::Trpsth)
        } else {
            Strobe::of_data_in(name)
        }
    }

    fn of_data_in(name: &[u8]) -> Option<Strobe>
        ensures { result ≡ strobe_in_named name.now }
    {
        if name == b"tWPRE".as_slice() {
            Some(Strobe::Twpre)
        } else if name == b"tDSC".as_slice() {
            Some(Strobe::Tdsc)
        } else if name == b"tWPST".as_slice() {
            Some(Strobe::Twpst)
        } else if name == b"tWPSTH".as_slice() {
            Some(Strobe::Twpsth)
        } else {
            None
        }
    }
}

impl fmt::Display for Strobe {
    fn fmt<W: fmt::Write>(&self, f: &mut fmt::Formatter<W>) -> fmt::Result {
        f.write_str(self.name())
    }
}
