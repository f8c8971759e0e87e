//! The parameter page of the sample device.
use onfi_param::{ParamPage, crc16, read_page};
use std::process::Abort;

/// Its bytes that aren't 0, each after its place, but for the check value: tR is 25, tPROG 200 and tBERS 1,500
/// microseconds, tCCS 200 ns.
const BYTES: [(u8, u8); 21] = [
    (0, 0x4F),
    (1, 0x4E),
    (2, 0x46),
    (3, 0x49),
    (6, 0x4A),
    (8, 0x48),
    (32, b'M'),
    (44, b'N'),
    (81, 0x02),
    (84, 0x10),
    (92, 0x40),
    (96, 0xE8),
    (97, 0x03),
    (100, 0x02),
    (101, 0x23),
    (113, 0x01),
    (133, 0xC8),
    (135, 0xDC),
    (136, 0x05),
    (137, 0x19),
    (139, 0xC8),
];

/// The page with these bytes changed, each given after its place.
pub(crate) fn changed(mut page: [u8; 256], changes: &[(u8, u8)]) -> [u8; 256] {
    for (at, byte) in changes {
        page[usize::from(*at)] = *byte;
    }
    page
}

/// The page, whose check value isn't set.
pub(crate) fn sample_page() -> [u8; 256] {
    changed([0; 256], &BYTES)
}

/// The check value of all bytes but the last two.
pub(crate) fn crc_of_front(page: &[u8; 256]) -> u16 {
    let (front, _) = page.split_at(254);
    crc16(front)
}

/// The page with the check value of its other bytes.
pub(crate) fn with_crc(page: [u8; 256]) -> [u8; 256] {
    let [low, high] = crc_of_front(&page).to_le_bytes();
    changed(page, &[(254, low), (255, high)])
}

/// The page as it is read, with the check value of its other bytes.
pub(crate) fn read(rt: &impl Abort, page: [u8; 256]) -> ParamPage {
    read_page(&with_crc(page)).expect(rt, "a good copy")
}
