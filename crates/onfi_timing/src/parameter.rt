use std::fmt;

/// A timing parameter that a sheet gives, in ns (ONFI 4.2, timing parameters), in the order in which a missing one is
/// reported.
#[derive(Clone, Copy, Debug, PartialEq, Eq)]
pub enum Parameter {
    /// tWC: one write cycle of a command, an address or a data byte.
    Twc,
    /// tRC: one read cycle of a data byte.
    Trc,
    /// tADL: from the last address cycle to the first data byte in.
    Tadl,
    /// tWHR: from a command to a status byte out.
    Twhr,
    /// tRHW: from the last byte out to the next command.
    Trhw,
    /// tWB: from the last write cycle to busy.
    Twb,
    /// tPLRBSY: the short busy time between the planes of a multi-plane read.
    Tplrbsy,
    /// tPLPBSY: the same of a multi-plane program.
    Tplpbsy,
    /// tPLEBSY: the same of a multi-plane erase.
    Tplebsy,
}

impl Parameter {
    ghost use Rattle.std.specs.Prelude.{◌≡◌, Some};
    ghost use Rattle.onfi_timing.specs.Sheet.{parameter_named, busy_time_named};

    /// The name that the standard and a sheet give it.
    pub fn name(self) -> &'static str
        ensures { parameter_named result.now ≡ Some self }
    {
        match self {
            Parameter::Twc => "tWC",
            Parameter::Trc => "tRC",
            Parameter::Tadl => "tADL",
            Parameter::Twhr => "tWHR",
            Parameter::Trhw => "tRHW",
            Parameter::Twb => "tWB",
            Parameter::Tplrbsy => "tPLRBSY",
            Parameter::Tplpbsy => "tPLPBSY",
            Parameter::Tplebsy => "tPLEBSY",
        }
    }

    /// The parameter of that name, or None.
    pub fn from_name(name: &[u8]) -> Option<Parameter>
        ensures { result ≡ parameter_named name.now }
    {
        if name == b"tWC".as_slice() {
            Some(Parameter::Twc)
        } else if name == b"tRC".as_slice() {
            Some(Parameter::Trc)
        } else if name == b"tADL".as_slice() {
            Some(Parameter::Tadl)
        } else if name == b"tWHR".as_slice() {
            Some(Parameter::Twhr)
        } else if name == b"tRHW".as_slice() {
            Some(Parameter::Trhw)
        } else {
            Parameter::of_busy_time(name)
        }
    }

    fn of_busy_time(name: &[u8]) -> Option<Parameter>
        ensures { result ≡ busy_time_named name.now }
    {
        if name == b"tWB".as_slice() {
            Some(Parameter::Twb)
        } else if name == b"tPLRBSY".as_slice() {
            Some(Parameter::Tplrbsy)
        } else if name == b"tPLPBSY".as_slice() {
            Some(Parameter::Tplpbsy)
        } else if name == b"tPLEBSY".as_slice() {
            Some(Parameter::Tplebsy)
        } else {
            None
        }
    }
}

impl fmt::Display for Parameter {
    fn fmt<W: fmt::Write>(&self, f: &mut fmt::Formatter<W>) -> fmt::Result {
        f.write_str(self.name())
    }
}
