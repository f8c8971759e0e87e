//! Which operations of arrays rows named.
ghost use Rattle.std.specs.Prelude.{◌≡◌, [], ◌∷◌, ◌++◌, List, OnOk};
ghost use Rattle.std.specs.List.{list_any};
ghost use Rattle.onfi_script.specs.ArraysTold.{AreTold, is_same, array_of as spec_array_of};
ghost use Rattle.onfi_script.specs.declared.row.Row.{Row as ARow};

use crate::row::{Row, Subject};
use std::alloc::{AllocError, Global};
use std::collections::HashSet;

/// The operations of arrays that rows named, by channel, LUN and number. One is found without a look at the others, since a
/// script may have a row for each operation of a run.
#[derive(Drop)]
pub struct ArraysTold {
    names: HashSet<(u8, u8, u32)>,
}

/// The operation of an array that a row settles.
fn array_of(subject: Option<Subject>) -> Option<(u8, u8, u32)>
    ensures { result ≡ spec_array_of subject }
{
    match subject {
        Some(
            Subject::Array {
                channel,
                lun,
                number,
            },
        ) => Some((channel, lun, number)),
        _ => None,
    }
}

impl ArraysTold {
    /// None.
    pub fn new(alloc: Global) -> ArraysTold
        ensures { AreTold [] result.names.keys }
    {
        ArraysTold {
            names: HashSet::new(alloc),
        }
    }

    /// Whether a row named that one.
    pub fn has(&self, channel: u8, lun: u8, number: u32) -> bool
        ensures { result ≡ list_any (is_same (channel, lun, number)) self.now.names.keys }
    {
        self.names.contains(&(channel, lun, number))
    }

    /// With the operation of a further row, where it names one.
    ///
    /// # Errors
    /// Where memory was refused.
    pub fn put(&mut self, row: &Row) -> Result<(), AllocError>
        ensures { OnOk result ((rows : List ARow) → AreTold rows self.old.names.keys → AreTold (rows ++ row.now ∷ []) self.new.names.keys) }
    {
        if let Some(name) = array_of(row.subject()) {
            self.names.insert(name)?;
        }
        Ok(())
    }
}
