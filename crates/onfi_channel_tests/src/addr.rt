use crate::page::{read, sample_page};
use onfi_addr::{Geometry, Place};
use onfi_samples::sample_geometry;

fn place(lun: u8, block: u16, page: u16) -> Place {
    Place { lun, block, page }
}

#[test]
fn the_sample_device(rt: HostRuntime) {
    let geometry = Geometry::of(&read(&rt, sample_page()));
    assert_eq!(rt; geometry, Ok(sample_geometry()));
    assert_eq!(rt; sample_geometry().page_bytes(), 528);
}

#[test]
fn rows_of_the_sample_device(rt: HostRuntime) {
    let geometry = sample_geometry();
    for (place, row, cycles, plane) in [
        (place(1, 5, 3), 65859, [0x43, 0x01, 0x01], 1),
        (place(1, 999, 63), 129535, [0xFF, 0xF9, 0x01], 1),
        (place(0, 0, 0), 0, [0, 0, 0], 0),
    ] {
        assert!(rt; geometry.is_in_range(&place));
        assert_eq!(rt; geometry.row(&place), row);
        assert_eq!(rt; geometry.unrow(row), Some(place));
        assert_eq!(rt; geometry.plane_of(place.block), plane);
        let [first, second, third, .., last] = geometry.row_cycles(row);
        assert_eq!(rt; [first, second, third], cycles);
        assert_eq!(rt; last, 0);
    }
}
