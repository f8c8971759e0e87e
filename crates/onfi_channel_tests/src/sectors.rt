ghost use Rattle.std.specs.Prelude.{◌≡◌, IfOk};

use onfi_addr::Geometry;
use onfi_core::{Setup, SetupFault};
use onfi_group::Rules;
use onfi_samples::{sample_geometry, sample_timing};
use onfi_timing::Timing;
use std::process::Abort;

// The sample device with four sectors of 132 bytes a page.
fn sectored(rt: &impl Abort) -> Geometry {
    sample_geometry()
        .with_sector_bytes(132)
        .expect(rt, "four sectors")
}

// Its timing: a sector takes 2,750 ns, and 220 ns come before the first.
pub(crate) fn sectored_timing(rt: &impl Abort) -> Timing {
    let mut timing = sample_timing();
    for count in 1..5u8 {
        timing = timing
            .with_sectors(count, 220 + 2_750 * u64::from(count))
            .expect(rt, "a length");
    }
    timing
}

// One channel of one host.
pub(crate) fn setup(rt: &impl Abort, timing: Timing) -> Result<Setup, SetupFault>
    ensures { IfOk result (λ setup. setup.channels ≡ 1) }
{
    let rules = Rules::new(true, true, false, 1);
    Setup::new(sectored(rt), timing, rules, 1, 1, 8, 8, 8, 1_000)
}

#[test]
fn a_setup_states_the_posts_of_all_sectors_of_a_page(rt: HostRuntime) {
    assert!(rt; setup(&rt, sectored_timing(&rt)).is_ok());
    assert_eq!(rt;
        setup(&rt, sample_timing()).err(),
        Some(SetupFault::Lengths)
    );
    let one = sample_timing()
        .with_sectors(1, 3_000)
        .expect(&rt, "a length");
    assert_eq!(rt; setup(&rt, one).err(), Some(SetupFault::Lengths));
}
