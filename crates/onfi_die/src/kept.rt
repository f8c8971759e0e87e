#![tactic(auto, unfolding(crate::specs::Contents::contents_after, crate::specs::Contents::answer_of))]

ghost use Rattle.std.specs.Prelude.{◌≡◌, ◌<◌, ◌==◌, ◌&&◌};
ghost use Rattle.std.specs.List.{list_any};
ghost use Rattle.onfi_die.specs.Contents.{contents_after, answer_of, is_fault};
ghost use Rattle.onfi_die.specs.Prepared.{kind_of, HasRoom, IsAnswerTo};
ghost use Rattle.onfi_die.specs.Requests.{request_of};

use crate::block::Block;
use crate::changes::Changes;
use crate::prepared::Prepared;
use onfi_addr::Place;
use onfi_request::{Answer, Fault};

/// A block of a device, and how often it was changed.
#[derive(Debug, Drop)]
pub struct Kept {
    pub block: Block,
    /// How many programs and erases the block was asked for.
    pub changes: Changes,
}

impl Kept {
    ghost use Rattle.onfi_die.specs.Store.{contents_of};

    /// Does a prepared operation at a place on this block, and counts it.
    pub(crate) fn run(&mut self, faults: &[Fault], place: Place, operation: Prepared) -> Answer
        requires page { place.page < self.old.block.shape.pages }
        requires room { HasRoom self.old.block.shape.bytes operation }
        ensures contents { contents_of self.new
            ≡ contents_after (record { shape = self.old.block.shape; faults = faults.now }) (request_of place operation) (contents_of self.old) }
        ensures answer { result ≡ answer_of (record { shape = self.old.block.shape; faults = faults.now }) (request_of place operation) (contents_of self.old) }
        ensures form { IsAnswerTo self.old.block.shape (kind_of operation) result }
        ensures shape { self.new.block.shape ≡ self.old.block.shape }
    {
        let fault = is_next(faults, place, &self.changes);
        if operation.is_change() {
            self.changes.step();
        }
        self.block.run(place.page, operation, fault)
    }
}

/// Whether one of the faults names the next program or erase of the block.
fn is_next(faults: &[Fault], place: Place, changes: &Changes) -> bool
    ensures { result ≡ list_any (is_fault place.lun place.block changes.now) faults.now }
{
    faults.iter().any(|fault| fault.lun == place.lun
        && (fault.block == place.block && changes.is(fault.number)))
}
