//! A log that is followed line by line.

ghost use Rattle.std.specs.Prelude.{◌≡◌, true, IfOk, OnOk, slice_index_or};
ghost use Rattle.onfi_gap.specs.Cuts.{begins_at};
ghost use Rattle.onfi_gap.specs.Following as spec;

use onfi_audit::{Audit, Line, LunStage};
use onfi_log::{Requests, bring};
use std::alloc::AllocError;
use std::marker::Model;

/// How many LUNs a channel has at most: the number of the first group that begins in a log.
pub(crate) const LUNS: usize = 8;

/// A log as far as it was followed: what it has left, and of each LUN the number of the group that began on it last. What LUNs
/// run as the log begins have the numbers of these LUNs, and groups that begin in the log those from 8 on.
#[derive(Drop)]
pub(crate) struct Walk {
    audit: Audit,
    requests: Requests,
    on: [usize; LUNS],
    begun: usize,
}

impl Model for Walk {
    ghost use Rattle.onfi_gap.specs.Following.{Followed};

    ghost Value = { Followed };

    ghost view = { λ w. record { audit = w.audit; requests = w.requests; on = w.on; begun = w.begun } };
}

impl Walk {
    /// A log of which nothing was followed.
    ///
    /// # Errors
    /// Where memory was refused.
    pub(crate) fn of(opening: &Audit, requests: Requests) -> Result<Walk, AllocError>
        ensures { IfOk result (λ w. w ≡ spec.unfollowed opening.now requests) }
    {
        let audit = opening.copy()?;
        Ok(Walk {
            audit,
            requests,
            on: [0, 1, 2, 3, 4, 5, 6, 7],
            begun: LUNS,
        })
    }

    /// What the log has left.
    pub(crate) fn audit(&self) -> &Audit
        ensures { result.now ≡ self.now.audit }
    {
        &self.audit
    }

    /// The number of the group that began on the LUN last.
    pub(crate) fn number_on(&self, lun: usize) -> usize
        ensures { result ≡ slice_index_or self.now.on lun 0 }
    {
        self.on.get(lun).copied().unwrap_or(0)
    }

    /// Whether the line is a command that begins a group.
    fn begins_group(&self, line: &Line) -> bool
        ensures { result ≡ spec.begins_group self.now.audit line.now }
    {
        if line.is_post {
            return false;
        }
        match self.audit.luns().get(usize::from(line.lun)) {
            Some(LunStage::Free { .. }) => true,
            Some(LunStage::Running { .. } | LunStage::Open { .. }) | None => false,
        }
    }

    /// Whether the line begins the group of that number.
    pub(crate) fn begins_at(&self, number: usize, line: &Line) -> bool
        ensures { result ≡ begins_at self.now number line.now }
    {
        self.begins_group(line) && self.begun == number
    }

    /// A group begins on the LUN.
    fn begin(&mut self, lun: usize) -> Result<(), AllocError>
        ensures { OnOk result (self.new ≡ spec.with_group true lun self.old) }
    {
        let Some(begun) = self.begun.checked_add(1) else {
            return Err(AllocError);
        };
        if lun < LUNS {
            self.on[lun] = self.begun;
        }
        self.begun = begun;
        Ok(())
    }

    /// The line's phase happens, with the request that it brings.
    ///
    /// # Errors
    /// Where memory was refused, or the phase may not come: each line of a legal log may.
    pub(crate) fn step(&mut self, line: &Line) -> Result<(), AllocError>
        ensures { OnOk result (self.new ≡ spec.followed self.old line.now) }
    {
        let begins = self.begins_group(line);
        bring(&mut self.audit, self.requests, line)?;
        if self.audit.judge(line).is_err() {
            return Err(AllocError);
        }
        if begins {
            return self.begin(usize::from(line.lun));
        }
        Ok(())
    }
}
