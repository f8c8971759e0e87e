use crate::page::{crc_of_front, read, sample_page};
use onfi_param::crc16;

#[test]
fn known_check_values(rt: HostRuntime) {
    for (text, value) in [("", 0x4F4E), ("ON", 0), ("ONF", 0x8197), ("ONFI", 0x15B3)] {
        assert_eq!(rt; crc16(text.as_bytes()), value, "{text}");
    }
}

#[test]
fn every_field_is_read(rt: HostRuntime) {
    let page = read(&rt, sample_page());
    assert_eq!(rt;
        [
            page.has_wide_bus(),
            page.has_multiple_lun_operations(),
            page.has_non_sequential_programming(),
            page.has_multi_plane_program_and_erase(),
            page.has_multi_plane_read(),
            page.has_read_status_enhanced(),
            page.has_change_read_column_enhanced(),
        ],
        [false, true, false, true, true, true, true]
    );
    assert_eq!(rt; page.signature(), b"ONFI".as_slice());
    assert_eq!(rt; page.manufacturer(), b"M\0\0\0\0\0\0\0\0\0\0\0".as_slice());
    assert_eq!(rt;
        page.model(),
        b"N\0\0\0\0\0\0\0\0\0\0\0\0\0\0\0\0\0\0\0".as_slice()
    );
    assert_eq!(rt;
        [
            page.data_bytes(),
            page.pages_per_block(),
            page.blocks_per_lun(),
        ],
        [512, 64, 1000]
    );
    assert_eq!(rt;
        [
            page.lun_count(),
            page.column_cycles(),
            page.row_cycles(),
            page.plane_address_bits(),
        ],
        [2, 2, 3, 1]
    );
    assert_eq!(rt;
        [
            page.features(),
            page.optional_commands(),
            page.spare_bytes(),
            page.stored_crc(),
        ],
        [0x4A, 0x48, 16, crc_of_front(&sample_page())]
    );
    assert_eq!(rt;
        [page.t_prog(), page.t_bers(), page.t_r(), page.t_ccs()],
        [200, 1500, 25, 200]
    );
}
