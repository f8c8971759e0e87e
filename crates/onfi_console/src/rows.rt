//! What rows of scripts look like.
use std::alloc::{AllocError, Global};
use strsim::levenshtein;

/// The names of rows; of several that a word is near to, the first one is given.
const NAMES: [&str; 28] = [
    "shape",
    "spans",
    "page",
    "sheet",
    "bus",
    "free",
    "running",
    "want",
    "weight",
    "strict",
    "strobe",
    "channels",
    "hosts",
    "batch",
    "submitcap",
    "postcap",
    "op",
    "opread",
    "fault",
    "chipfail",
    "notready",
    "array",
    "at",
    "geometry",
    "sectorpost",
    "sector",
    "sectors",
    "runsectors",
];

/// The form of a row of this name.
pub fn form_of(name: &[u8]) -> Option<&'static str> {
    match std::str::from_utf8(name) {
        Ok(name) => problem_form(name).or(run_form(name)),
        Err(_) => None,
    }
}

/// Whether `run` alone takes rows of this name.
pub fn is_of_run(name: &[u8]) -> bool {
    match std::str::from_utf8(name) {
        Ok(name) => run_form(name).is_some(),
        Err(_) => false,
    }
}

/// The form of a row that describes a device or a problem.
fn problem_form(name: &str) -> Option<&'static str> {
    match name {
        "shape" => Some(
            "shape,LUNS,PLANEBITS,READ,WRITE: 1 to 8 LUNs, 0 to 2 plane bits, two flags 0 or 1",
        ),
        "spans" => Some(
            "spans,KIND,CMD,GAP,ARRAY,POST: read, program or erase; ns below 2^50, CMD and POST at least 1",
        ),
        "page" => Some("page,HEX: bytes of the parameter page, two hexadecimal digits each"),
        "sheet" => Some(
            "sheet,NAME,VALUE: tWC, tRC, tADL, tWHR, tRHW, tWB, tPLRBSY, tPLPBSY or tPLEBSY, in whole ns",
        ),
        "strobe" => Some(
            "strobe,NAME,PS: tRPRE, tRC, tRPST, tRPSTH, tWPRE, tDSC, tWPST or tWPSTH, in whole ps",
        ),
        "bus" => Some("bus,T: the bus is free from T ns, below 2^62"),
        "free" => Some("free,LUN,T: LUN 0 to 7 of the device is free from T ns, below 2^62"),
        "running" => Some(
            "running,LUN,NEXT,READY,KIND,PAGE,BLOCK..: one to four blocks on rising planes; phase NEXT may start from READY ns",
        ),
        "want" => Some(
            "want,KIND,LUN,BLOCK,PAGE: read, program or erase; LUN of the device, BLOCK below 65536, PAGE below 4096",
        ),
        "weight" => Some(
            "weight,REQUEST,N: want REQUEST, 0 to 7 by the order of their rows, counts N times, 1 to 65535",
        ),
        "strict" => Some("strict,FLAG: 0 or 1"),
        _ => sectors_form(name),
    }
}

/// The form of a row of reads of some sectors.
fn sectors_form(name: &str) -> Option<&'static str> {
    match name {
        "sectorpost" => Some(
            "sectorpost,N,POST: the output of N sectors, 1 to 7, holds the bus for POST ns, 1 to 2^50 - 1",
        ),
        "sector" => Some(
            "sector,BYTES: the bytes of a sector, 1 to 65535, at most those of a page",
        ),
        "sectors" => Some(
            "sectors,REQUEST,N: read REQUEST, 0 to 7 by the order of their rows, puts out N sectors, 0 to 7; 0 is the page",
        ),
        "runsectors" => Some(
            "runsectors,LUN,N..: so many sectors of each block that runs on the LUN, one to four numbers, 0 to 7",
        ),
        _ => None,
    }
}

/// The form of a row that `run` alone takes.
fn run_form(name: &str) -> Option<&'static str> {
    match name {
        "channels" => Some("channels,N: 1 to 4"),
        "hosts" => Some("hosts,N: 1 to 4"),
        "batch" => Some("batch,N: 1 to 8"),
        "submitcap" => Some("submitcap,N: places of a submission queue"),
        "postcap" => Some("postcap,N: places of a completion queue"),
        "op" => Some(
            "op,HOST,CHANNEL,KIND,LUN,BLOCK,PAGE and for a program DATA: hexadecimal bytes, or * and one byte",
        ),
        "opread" => Some(
            "opread,HOST,CHANNEL,LUN,BLOCK,PAGE,FIRST,COUNT: a read of COUNT sectors, 1 to 7, from sector FIRST, 0 to 255",
        ),
        "fault" => Some(
            "fault,CHANNEL,LUN,BLOCK,N: program or erase N of that block, counted from 0, fails",
        ),
        "chipfail" => Some(
            "chipfail,CHANNEL,N: the call of the chip, counted from 0, whose bus fails",
        ),
        "notready" => Some(
            "notready,CHANNEL,N: the status, counted from 0, that comes before its LUN is ready",
        ),
        "array" => Some(
            "array,CHANNEL,LUN,NUMBER,NS: operation NUMBER of the LUN's array, counted from 0, really takes NS ns, below 2^50",
        ),
        "at" => Some(
            "at,NS: the moment at which the rows 'op' behind it arrive, below 2^62; in a run with --clock simulated",
        ),
        "geometry" => Some(
            "geometry,BLOCKS,PAGES,BYTES,ANYORDER: 1 to 65536 blocks of a LUN, 1 to 4096 pages of a block, 1 to 65535 bytes of a page, 0 or 1",
        ),
        _ => None,
    }
}

/// Whether a word is at most two letters off this name, and not all of them.
fn is_near(alloc: Global, word: &str, name: &str) -> Result<bool, AllocError> {
    let off = levenshtein(alloc, word, name)?;
    Ok(off <= 2 && off < name.len())
}

/// The name of a row that a misspelt one is near to.
pub fn near_name(alloc: Global, word: &[u8]) -> Result<Option<&'static str>, AllocError> {
    let Ok(word) = std::str::from_utf8(word) else {
        return Ok(None);
    };
    if word.len() > 16 {
        return Ok(None);
    }
    for name in NAMES {
        if is_near(alloc, word, name)? {
            return Ok(Some(name));
        }
    }
    Ok(None)
}
