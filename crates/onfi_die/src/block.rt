ghost use Rattle.std.specs.Prelude.{◌≡◌, ◌<◌, length, replicate, slice_index_or, [], IfOk, OnErr};
ghost use Rattle.onfi_die.specs.declared.page.Page.TheVariants.{Erased};

use crate::page::Page;
use crate::pages::{erased_pages, make_all, may_program};
use crate::prepared::Prepared;
use crate::shape::Shape;
use onfi_request::{Answer, Bytes};
use onfi_timing::{Kind, Operation};
use std::alloc::{AllocError, Global};
use std::marker::Model;

/// A block of a die.
///
/// Contracts see it as its shape and the list of its pages.
#[derive(Debug, Drop)]
pub struct Block {
    shape: Shape,
    pages: Vec<Page>,
}

impl Model for Block {
    ghost use Rattle.onfi_die.specs.Whole.{ShapedPages, IsWhole};

    ghost Value = { ShapedPages };

    ghost view = { λ b. record { shape = b.shape; pages = b.pages.items } };

    ghost invariant = { λ b. IsWhole b.shape b.pages.items };
}

impl Block {
    ghost use Rattle.onfi_die.specs.Block.{did, put_out, shown};
    ghost use Rattle.onfi_timing.specs.Kinds.{operation_of};
    ghost use Rattle.onfi_die.specs.Prepared.{kind_of, data_of, HasRoom, IsAnswerTo};

    /// A block of `pages` pages, all erased, of `n` data and spare bytes each, read as a whole; `any_order` says that its pages may be
    /// programmed in any order (ONFI 4.2, parameter page, features bit 2).
    ///
    /// # Errors
    /// Where memory was refused.
    pub fn erased(alloc: Global, pages: u16, n: u16, any_order: bool) -> Result<Block, AllocError>
        ensures shape { IfOk result (λ b. b.shape ≡ record { pages = pages; bytes = n; any_order = any_order; sector_bytes = 0 }) }
        ensures pages { IfOk result (λ b. b.pages ≡ replicate pages Erased) }
    {
        Block::of(
            alloc,
            Shape {
                pages,
                bytes: n,
                any_order,
                sector_bytes: 0,
            },
        )
    }

    /// A block of this shape, all its pages erased.
    ///
    /// # Errors
    /// Where memory was refused.
    pub fn of(alloc: Global, shape: Shape) -> Result<Block, AllocError>
        ensures shape { IfOk result (λ b. b.shape ≡ shape) }
        ensures pages { IfOk result (λ b. b.pages ≡ replicate shape.pages Erased) }
    {
        let pages = erased_pages(alloc, shape.pages)?;
        Ok(Block { shape, pages })
    }

    /// Does an operation on the block and answers it. `page` is the page of a read or a program; `fault` says that an
    /// injected fault makes this program or erase fail.
    ///
    /// A read gives the page, or the sectors of it that it puts out, erased pages as FFh and torn ones as 00h throughout. A program of a page that isn't erased
    /// fails and changes nothing; so does, where pages are programmed in order, a program below a page that isn't erased.
    /// An erase makes every page erased. A fault leaves the page, of an erase every page, torn.
    ///
    /// # Errors
    /// Where memory was refused; the block is then unchanged.
    pub fn apply(
        &mut self,
        alloc: Global,
        kind: Kind,
        page: u16,
        bytes: &[u8],
        fault: bool,
    ) -> Result<Answer, AllocError>
        requires page { page < self.old.shape.pages }
        requires data { kind ≡ Kind.Program → length bytes.now ≡ self.old.shape.bytes }
        ensures pages { IfOk result (λ _. self.new ≡ record self.old { pages = (did self.old.shape kind page bytes.now fault self.old.pages).pages }) }
        ensures answer { IfOk result (λ answer. answer ≡ (did self.old.shape kind page bytes.now fault self.old.pages).answer) }
        ensures err { OnErr result (self.new ≡ self.old) }
    {
        let operation = Prepared::of(alloc, kind, bytes, self.shape.bytes)?;
        Ok(self.run(page, operation, fault))
    }

    /// Does a prepared operation on the block and answers it, as [`Block::apply`] does; this takes no memory.
    pub fn run(&mut self, page: u16, operation: Prepared, fault: bool) -> Answer
        requires page { page < self.old.shape.pages }
        requires room { HasRoom self.old.shape.bytes operation }
        ensures pages { self.new ≡ record self.old { pages = (did self.old.shape (kind_of operation) page (data_of operation) fault self.old.pages).pages } }
        ensures answer { result ≡ (did self.old.shape (kind_of operation) page (data_of operation) fault self.old.pages).answer }
        ensures form { IsAnswerTo self.old.shape (kind_of operation) result }
    {
        match operation {
            Prepared::Program(bytes) => self.program(page, bytes, fault),
            Prepared::Erase => self.erase(fault),
            read => self.read(page, read),
        }
    }

    fn read(&self, page: u16, operation: Prepared) -> Answer
        requires page { page < self.now.shape.pages }
        requires read { operation_of (kind_of operation) ≡ Operation.Read }
        requires room { HasRoom self.now.shape.bytes operation }
        ensures answer { result ≡ Answer.Read (put_out self.now.shape (kind_of operation) (shown self.now.shape.bytes (slice_index_or self.now.pages page Erased))) }
        ensures form { IsAnswerTo self.now.shape (kind_of operation) result }
    {
        operation.read(self.shape, &self.pages[usize::from(page)])
    }

    fn program(&mut self, page: u16, bytes: Bytes, fault: bool) -> Answer
        requires page { page < self.old.shape.pages }
        requires data { length bytes ≡ self.old.shape.bytes }
        ensures pages { self.new ≡ record self.old { pages = (did self.old.shape Kind.Program page bytes fault self.old.pages).pages } }
        ensures answer { result ≡ (did self.old.shape Kind.Program page bytes fault self.old.pages).answer }
        ensures form { IsAnswerTo self.old.shape Kind.Program result }
    {
        let page = usize::from(page);
        if fault {
            self.pages[page] = Page::Torn;
            return Answer::Failed;
        }
        if !may_program(self.shape.any_order, page, self.pages.as_slice()) {
            return Answer::Failed;
        }
        self.pages[page] = Page::Holds(bytes);
        Answer::Done
    }

    fn erase(&mut self, fault: bool) -> Answer
        ensures pages { self.new ≡ record self.old { pages = (did self.old.shape Kind.Erase 0 [] fault self.old.pages).pages } }
        ensures answer { result ≡ (did self.old.shape Kind.Erase 0 [] fault self.old.pages).answer }
        ensures form { IsAnswerTo self.old.shape Kind.Erase result }
    {
        make_all(self.pages.as_mut_slice(), fault);
        if fault { Answer::Failed } else { Answer::Done }
    }
}
