ghost use Rattle.std.specs.Prelude.{◌≡◌, ◌≢◌, ℕ, ◌<◌, length, IfOk, OnOk, OnErr};
ghost use Rattle.onfi_timing.specs.declared.kind.Kind.TheVariants as kind;
ghost use Rattle.onfi_timing.specs.Kinds.{operation_of};

use crate::block::Block;
use crate::changes::Changes;
use crate::kept::Kept;
use crate::page::Page;
use crate::prepared::Prepared;
use crate::shape::Shape;
use onfi_addr::{Geometry, Place};
use onfi_request::{Answer, Fault, Request};
use onfi_timing::{Kind, Operation};
use std::alloc::{AllocError, Global};
use std::collections::HashMap;
use std::marker::Model;

/// The blocks of a device by LUN and number, with its injected faults. A block that no program or erase named takes no
/// memory: it is erased.
#[derive(Debug, Drop)]
pub struct Store {
    shape: Shape,
    faults: Vec<Fault>,
    kept: HashMap<(u8, u16), Kept>,
}

impl Model for Store {
    ghost use Rattle.onfi_die.specs.Store.{Stored, HaveShape};

    ghost Value = { Stored };

    ghost view = { λ s. record { device = record { shape = s.shape; faults = s.faults.items }; kept = s.kept.entries } };

    ghost invariant = { λ s. HaveShape s.shape s.kept.entries };
}

impl Store {
    ghost use Rattle.onfi_die.specs.Shapes.{device_of};
    ghost use Rattle.onfi_die.specs.Contents.{answer_of};
    ghost use Rattle.onfi_die.specs.Blocks.{fresh_blocks, changed, block_of};
    ghost use Rattle.onfi_die.specs.Prepared.{kind_of, HasRoom, IsAnswerTo};
    ghost use Rattle.onfi_die.specs.Requests.{request_of};
    ghost use Rattle.onfi_die.specs.Store.{blocks_of, IsKept};

    /// The erased blocks of a device with this geometry, with these faults injected.
    pub fn new(alloc: Global, geometry: &Geometry, faults: Vec<Fault>) -> Store
        ensures device { result.device ≡ device_of geometry.now faults.items }
        ensures blocks { blocks_of result ≡ fresh_blocks (device_of geometry.now faults.items) }
    {
        Store {
            shape: Shape::of(geometry),
            faults,
            kept: HashMap::new(alloc),
        }
    }

    /// Does a request on its block and answers it, as [`Block::apply`] does.
    ///
    /// # Errors
    /// Where memory was refused; the contents of all blocks are then unchanged.
    pub fn apply(&mut self, alloc: Global, request: &Request) -> Result<Answer, AllocError>
        requires page { request.now.place.page < self.old.device.shape.pages }
        requires data { request.now.kind ≡ kind.Program → length request.now.bytes ≡ self.old.device.shape.bytes }
        ensures device { self.new.device ≡ self.old.device }
        ensures blocks { OnOk result (blocks_of self.new ≡ changed self.old.device request.now (blocks_of self.old)) }
        ensures answer { IfOk result (λ answer. answer ≡ answer_of self.old.device request.now (block_of request.now (blocks_of self.old))) }
        ensures err { OnErr result (blocks_of self.new ≡ blocks_of self.old) }
    {
        let operation = Prepared::of(
            alloc,
            request.kind,
            request.bytes.as_slice(),
            self.shape.bytes,
        )?;
        self.keep(alloc, request.kind, request.place)?;
        Ok(self.run(request.place, operation))
    }

    /// Makes room for what an operation of a kind leaves on the block of a place, so that [`Store::run`] can be called. A
    /// read leaves nothing, so nothing is kept for it.
    ///
    /// # Errors
    /// Where memory was refused. The contents of all blocks are unchanged, whatever is answered.
    pub fn keep(&mut self, alloc: Global, kind: Kind, place: Place) -> Result<(), AllocError>
        ensures kept { OnOk result (operation_of kind ≢ Operation.Read → IsKept place.lun place.block self.new) }
        ensures read { operation_of kind ≡ Operation.Read → self.new ≡ self.old }
        ensures others { (lun block : ℕ) → IsKept lun block self.old → IsKept lun block self.new }
        ensures device { self.new.device ≡ self.old.device }
        ensures blocks { blocks_of self.new ≡ blocks_of self.old }
    {
        let key = key_of(place);
        if kind.operation() == Operation::Read || self.kept.contains_key(&key) {
            return Ok(());
        }
        let block = Block::of(alloc, self.shape)?;
        self.kept.insert(
            key,
            Kept {
                block,
                changes: Changes::none(),
            },
        )?;
        Ok(())
    }

    /// Does a prepared operation at a place, whose block is kept for a program or an erase; this takes no memory.
    pub fn run(&mut self, place: Place, operation: Prepared) -> Answer
        requires kept { operation_of (kind_of operation) ≢ Operation.Read → IsKept place.lun place.block self.old }
        requires page { place.page < self.old.device.shape.pages }
        requires room { HasRoom self.old.device.shape.bytes operation }
        ensures device { self.new.device ≡ self.old.device }
        ensures blocks { blocks_of self.new ≡ changed self.old.device (request_of place operation) (blocks_of self.old) }
        ensures answer { result ≡ answer_of self.old.device (request_of place operation) (block_of (request_of place operation) (blocks_of self.old)) }
        ensures form { IsAnswerTo self.old.device.shape (kind_of operation) result }
        ensures others { (lun block : ℕ) → IsKept lun block self.old → IsKept lun block self.new }
        ensures no_more { (lun block : ℕ) → IsKept lun block self.new → IsKept lun block self.old }
    {
        let Some(kept) = self.kept.get_mut(&key_of(place)) else {
            return operation.read(self.shape, &Page::Erased);
        };
        kept.run(self.faults.as_slice(), place, operation)
    }
}

// The name of the block of a place on its device.
fn key_of(place: Place) -> (u8, u16)
    ensures { result ≡ (place.lun, place.block) }
{
    (place.lun, place.block)
}
