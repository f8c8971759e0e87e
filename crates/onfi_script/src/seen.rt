ghost use Rattle.std.specs.Prelude.{◌≡◌};
ghost use Rattle.onfi_script.specs.Seen as spec;

use crate::row::Row;
use crate::row_name::Form;
use onfi_timing::{Sheet, Strobes};

/// The most operations of a script.
const MOST_OPS: u16 = 10_000;

/// What the rows so far show of a script.
#[derive(Clone, Copy)]
pub struct Seen {
    /// The form of the script, where a row gave it.
    pub form: Option<Form>,
    pub sheet: Sheet,
    /// The strobes, where a row gave any.
    pub strobes: Option<Strobes>,
    /// How many operations may come.
    pub ops_left: u16,
    /// When the operations arrive that come next, in ns.
    pub moment: u64,
}

impl Seen {
    /// What no row shows.
    pub fn nothing() -> Seen
        ensures { result ≡ spec.nothing_seen }
    {
        Seen {
            form: None,
            sheet: Sheet::new(),
            strobes: None,
            ops_left: MOST_OPS,
            moment: 0,
        }
    }

    /// With one row more.
    pub fn after(self, row: &Row) -> Seen
        ensures { result ≡ spec.seen_after self row.now }
    {
        Seen {
            form: self.form.or(row.form()),
            sheet: row.sheet().unwrap_or(self.sheet),
            strobes: row.strobes().or(self.strobes),
            ops_left: if row.is_op() {
                self.ops_left.saturating_sub(1)
            } else {
                self.ops_left
            },
            moment: row.moment().unwrap_or(self.moment),
        }
    }

    /// What rows show.
    pub fn of(rows: &[Row]) -> Seen
        ensures { result ≡ spec.seen rows.now }
    {
        rows.iter()
            .fold(Seen::nothing(), |seen, row| seen.after(row))
    }
}
