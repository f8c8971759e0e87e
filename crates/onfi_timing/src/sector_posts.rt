//! Posts of reads of some sectors: as they are given, or by page, sheet and strobes.
ghost use Rattle.std.specs.Prelude.{◌≡◌, ◌≢◌, ◌<◌, ◌≤◌, ◌^◌, ℕ, suc, None, MatchResult};
ghost use Rattle.std.specs.List.{AllByRecursion as Each};
ghost use Rattle.onfi_addr.specs.Rows.{page_bytes_of};
ghost use Rattle.onfi_timing.specs.Kinds.{stated};
ghost use Rattle.onfi_timing.specs.SectorPosts.{HasPages, HasPosts, IsSectorTiming, IsStrobedSectorTiming, bytes_of, output_time, post_or_none, sector_post, sector_posts, strobed_output};
ghost use Rattle.onfi_timing.specs.Strobes.{IsStrobedFault};
ghost use Rattle.onfi_timing.specs.Table.{IsTimingFault};

use crate::fault::SheetFault;
use crate::lengths::command_time;
use crate::sheet::Sheet;
use crate::strobe_fault::StrobeFault;
use crate::strobe_values::StrobeValues;
use crate::strobed::{rounded_up, time_out, values_beside};
use crate::strobes::Strobes;
use crate::timing::Timing;
use crate::values::Values;
use onfi_addr::Geometry;
use onfi_param::ParamPage;

// How long an output of that many bytes of a page holds the bus.
fn output_time(page: &ParamPage, geometry: &Geometry, values: &Values, bytes: u16) -> u64
    ensures value { result ≡ output_time page.now geometry.now values.now bytes }
    ensures short { result < 2 ^ 50 }
{
    let data = u64::from(bytes) * u64::from(values.t_rc);
    command_time(geometry, values.t_wc) + u64::from(page.t_ccs()) + data + u64::from(values.t_rhw)
}

// .. by strobes.
fn strobed_output(
    page: &ParamPage,
    geometry: &Geometry,
    values: &Values,
    strobes: &StrobeValues,
    bytes: u16,
) -> u64
    ensures value { result ≡ strobed_output page.now geometry.now values.now strobes.now bytes }
    ensures short { result < 2 ^ 50 }
{
    let plain = command_time(geometry, values.t_wc)
        + u64::from(page.t_ccs())
        + u64::from(values.t_rhw);
    rounded_up(plain, time_out(strobes, bytes))
}

// The bytes of that many sectors, where a page has as many; none where sectors have none.
fn bytes_of(geometry: &Geometry, sector_bytes: u16, count: u8) -> Option<u16>
    requires few { count ≤ 7 }
    ensures { result ≡ bytes_of (page_bytes_of geometry.now) sector_bytes count }
{
    let bytes = u32::from(count) * u32::from(sector_bytes);
    if 1 <= sector_bytes && bytes <= u32::from(geometry.page_bytes()) {
        Some(bytes as u16)
    } else {
        None
    }
}

// The post of that many sectors; 0 where a page has fewer.
fn post_of(
    page: &ParamPage,
    geometry: &Geometry,
    values: &Values,
    sector_bytes: u16,
    count: u8,
) -> u64
    requires few { count ≤ 7 }
    ensures value { result ≡ sector_post (output_time page.now geometry.now values.now) (page_bytes_of geometry.now) sector_bytes count }
    ensures short { result < 2 ^ 50 }
{
    match bytes_of(geometry, sector_bytes, count) {
        Some(bytes) => output_time(page, geometry, values, bytes),
        None => 0,
    }
}

// .. by strobes.
fn strobed_post_of(
    page: &ParamPage,
    geometry: &Geometry,
    values: &Values,
    strobes: &StrobeValues,
    sector_bytes: u16,
    count: u8,
) -> u64
    requires few { count ≤ 7 }
    ensures value { result ≡ sector_post (strobed_output page.now geometry.now values.now strobes.now) (page_bytes_of geometry.now) sector_bytes count }
    ensures short { result < 2 ^ 50 }
{
    match bytes_of(geometry, sector_bytes, count) {
        Some(bytes) => strobed_output(page, geometry, values, strobes, bytes),
        None => 0,
    }
}

// The posts of one to seven sectors.
fn posts_of(page: &ParamPage, geometry: &Geometry, values: &Values, sector_bytes: u16) -> [u64; 7]
    ensures value { result ≡ sector_posts (output_time page.now geometry.now values.now) (page_bytes_of geometry.now) sector_bytes }
    ensures short { Each (λ post. post < 2 ^ 50) result }
{
    [
        post_of(page, geometry, values, sector_bytes, 1),
        post_of(page, geometry, values, sector_bytes, 2),
        post_of(page, geometry, values, sector_bytes, 3),
        post_of(page, geometry, values, sector_bytes, 4),
        post_of(page, geometry, values, sector_bytes, 5),
        post_of(page, geometry, values, sector_bytes, 6),
        post_of(page, geometry, values, sector_bytes, 7),
    ]
}

// .. by strobes.
fn strobed_posts_of(
    page: &ParamPage,
    geometry: &Geometry,
    values: &Values,
    strobes: &StrobeValues,
    sector_bytes: u16,
) -> [u64; 7]
    ensures value { result ≡ sector_posts (strobed_output page.now geometry.now values.now strobes.now) (page_bytes_of geometry.now) sector_bytes }
    ensures short { Each (λ post. post < 2 ^ 50) result }
{
    [
        strobed_post_of(page, geometry, values, strobes, sector_bytes, 1),
        strobed_post_of(page, geometry, values, strobes, sector_bytes, 2),
        strobed_post_of(page, geometry, values, strobes, sector_bytes, 3),
        strobed_post_of(page, geometry, values, strobes, sector_bytes, 4),
        strobed_post_of(page, geometry, values, strobes, sector_bytes, 5),
        strobed_post_of(page, geometry, values, strobes, sector_bytes, 6),
        strobed_post_of(page, geometry, values, strobes, sector_bytes, 7),
    ]
}

impl Timing {
    /// This timing with these posts of reads of one to seven sectors, in ns, and no others; none are stated where 0 stands.
    pub fn with_posts(self, posts: &[u64; 7]) -> Timing
        requires short { Each (λ post. post < 2 ^ 50) posts.now }
        ensures pages { HasPages self result }
        ensures sectors { HasPosts result posts.now }
    {
        let mut timing = Timing::new(self.read, self.program, self.erase);
        for before in 0..7u8 {
            timing = timing.with_post(before, posts[before as usize]);
        }
        timing
    }

    // This timing with a post of one sector more than that, where that is not 0.
    fn with_post(self, before: u8, post: u64) -> Timing
        requires few { before < 7 }
        requires none { stated self (suc before) ≡ None }
        requires short { post < 2 ^ 50 }
        ensures pages { HasPages self result }
        ensures own { post_or_none (stated result (suc before)) ≡ post }
        ensures others { (n : ℕ) → n ≢ before → stated result (suc n) ≡ stated self (suc n) }
    {
        if post == 0 {
            return self;
        }
        self.with_sectors(before + 1, post).unwrap()
    }

    /// The timing of a device as [`Timing::of`] has it, with reads of sectors of that many bytes: of one to seven, where a page
    /// has their bytes, the post is that of a page with their bytes for its own. Of 0 bytes there are none.
    ///
    /// # Errors
    /// Those of [`Timing::of`].
    pub fn of_sectors(
        page: &ParamPage,
        geometry: &Geometry,
        sheet: &Sheet,
        sector_bytes: u16,
    ) -> Result<Timing, SheetFault>
        ensures { MatchResult result (λ timing. IsSectorTiming page.now geometry.now sheet.now sector_bytes timing) (λ fault. IsTimingFault sheet.now fault) }
    {
        let values = match Values::of(sheet) {
            Ok(values) => values,
            Err(parameter) => return Err(SheetFault::Missing(parameter)),
        };
        let timing = Timing::of(page, geometry, sheet)?;
        let posts = posts_of(page, geometry, &values, sector_bytes);
        Ok(timing.with_posts(&posts))
    }

    /// The timing of a device as [`Timing::of_strobes`] has it, with reads of sectors as by [`Timing::of_sectors`].
    ///
    /// # Errors
    /// Those of [`Timing::of_strobes`].
    pub fn of_strobed_sectors(
        page: &ParamPage,
        geometry: &Geometry,
        sheet: &Sheet,
        strobes: &Strobes,
        sector_bytes: u16,
    ) -> Result<Timing, StrobeFault>
        ensures { MatchResult result (λ timing. IsStrobedSectorTiming page.now geometry.now sheet.now strobes.now sector_bytes timing) (λ fault. IsStrobedFault sheet.now strobes.now fault) }
    {
        let values = match values_beside(sheet) {
            Ok(values) => values,
            Err(fault) => return Err(StrobeFault::Sheet(fault)),
        };
        let by_strobes = match StrobeValues::of(strobes) {
            Ok(by_strobes) => by_strobes,
            Err(strobe) => return Err(StrobeFault::Missing(strobe)),
        };
        let timing = Timing::of_strobes(page, geometry, sheet, strobes)?;
        let posts = strobed_posts_of(page, geometry, &values, &by_strobes, sector_bytes);
        Ok(timing.with_posts(&posts))
    }
}
