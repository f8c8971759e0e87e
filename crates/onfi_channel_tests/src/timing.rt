use crate::page::{read, sample_page};
use onfi_samples::{sample_geometry, sample_timing};
use onfi_timing::{Parameter, Sheet, SheetFault, Strobe, Strobes, Timing, Values};
use std::process::Abort;

const SHEET: &str =
    "tWC,20\ntRC,20\ntADL,100\ntWHR,80\ntRHW,100\ntWB,100\ntPLRBSY,500\ntPLPBSY,500\ntPLEBSY,500\n";

/// The timing of the sample page by a sheet.
fn timing_by(rt: &impl Abort, sheet: &Sheet) -> Result<Timing, SheetFault> {
    Timing::of(&read(rt, sample_page()), &sample_geometry(), sheet)
}

#[test]
fn the_sample_device(rt: HostRuntime) {
    let sheet = Sheet::read(rt.alloc(), SHEET.as_bytes()).expect(&rt, "a sheet");
    assert_eq!(rt; sheet.get(Parameter::Twhr), Some(80));
    assert_eq!(rt; Values::of(&sheet).expect(&rt, "whole").t_wb, 100);
    assert_eq!(rt; timing_by(&rt, &sheet), Ok(sample_timing()));
    for (text, row) in [("tWC,20,\n", 1), ("tWC,20\ntRC\n", 2)] {
        let sheet = Sheet::read(rt.alloc(), text.as_bytes());
        assert_eq!(rt; sheet, Err(SheetFault::Unknown(row)), "{text}");
    }
}

#[test]
fn a_parameter_of_strobes(rt: HostRuntime) {
    let strobes = Strobes::read(rt.alloc(), b"tRC,1667\ntRPST,26000\n").expect(&rt, "strobes");
    assert_eq!(rt; strobes.get(Strobe::Trpst), Some(26_000));
    assert_eq!(rt; strobes.get(Strobe::Trpre), None);
}
