ghost use Rattle.std.specs.Prelude.{◌≡◌, ◌≤◌, ℕ, ◌+◌, length, take, drop, if◌then◌else◌, IfOk};
ghost use Rattle.onfi_timing.specs.declared.operation.Operation.TheVariants as operation;
ghost use Rattle.onfi_timing.specs.Kinds.{operation_of};
ghost use Rattle.onfi_request.specs.declared.answer.Answer.TheVariants as answer;
ghost use Rattle.onfi_die.specs.Contents.{counted};
ghost use Rattle.onfi_die.specs.Block.{put_out, shown};
ghost use Rattle.onfi_die.specs.Prepared.{kind_of, data_of, HasRoom, IsAnswerTo};
ghost use Rattle.onfi_die.specs.Whole.{IsWide};

use crate::page::Page;
use crate::shape::Shape;
use onfi_request::{Answer, Bytes};
use onfi_timing::Kind;
use std::alloc::{AllocError, Global};

/// An operation on a page or a block with all the memory that it needs: to do it can't fail for memory.
#[derive(Debug, Drop)]
pub enum Prepared {
    /// A read, with room for the data and spare bytes of a page.
    Read(Vec<u8>),
    /// A read of which `count` sectors from sector `first` on are put out, with room for the page.
    ReadSectors { first: u8, count: u8, room: Vec<u8> },
    /// A program of these data and spare bytes.
    Program(Bytes),
    /// An erase.
    Erase,
}

impl Prepared {
    /// An operation on pages of `page_bytes` bytes; a program copies `bytes`, the others don't look at them.
    ///
    /// # Errors
    /// Where memory was refused.
    pub fn of(
        alloc: Global,
        kind: Kind,
        bytes: &[u8],
        page_bytes: u16,
    ) -> Result<Prepared, AllocError>
        requires { kind ≡ Kind.Program → length bytes.now ≡ page_bytes }
        ensures kind { IfOk result (λ p. kind_of p ≡ kind) }
        ensures data { IfOk result (λ p. kind ≡ Kind.Program → data_of p ≡ bytes.now) }
        ensures room { IfOk result (λ p. HasRoom page_bytes p) }
    {
        match kind {
            Kind::Read => Ok(Prepared::Read(vec![in alloc; 0; usize::from(page_bytes)]?)),
            Kind::ReadSectors { first, count } => Ok(Prepared::ReadSectors {
                first,
                count,
                room: vec![in alloc; 0; usize::from(page_bytes)]?,
            }),
            Kind::Program => Ok(Prepared::Program(Bytes::of(Vec::from_slice(alloc, bytes)?))),
            Kind::Erase => Ok(Prepared::Erase),
        }
    }

    /// Whether it is a read, a program or an erase.
    pub fn kind(&self) -> Kind
        ensures { result ≡ kind_of self.now }
    {
        match self {
            Prepared::Read(_) => Kind::Read,
            Prepared::ReadSectors { first, count, .. } => Kind::ReadSectors {
                first: *first,
                count: *count,
            },
            Prepared::Program(_) => Kind::Program,
            Prepared::Erase => Kind::Erase,
        }
    }

    /// Whether it is a program or an erase: these are counted.
    pub fn is_change(&self) -> bool
        ensures { (n : ℕ) → (if result then n + 1 else n) ≡ counted (kind_of self.now) n }
    {
        !matches!(self, Prepared::Read(_) | Prepared::ReadSectors { .. })
    }

    /// Does a read of a page that holds this, in a block of that shape.
    pub(crate) fn read(self, shape: Shape, page: &Page) -> Answer
        requires read { operation_of (kind_of self) ≡ operation.Read }
        requires room { HasRoom shape.bytes self }
        requires wide { IsWide shape.bytes page.now }
        ensures answer { result ≡ answer.Read (put_out shape (kind_of self) (shown shape.bytes page.now)) }
        ensures form { IsAnswerTo shape (kind_of self) result }
    {
        match self {
            Prepared::Read(room) => read_part(page, 0, usize::from(shape.bytes), room),
            Prepared::ReadSectors { first, count, room } => {
                let (from, bytes) = shape.part(first, count);
                read_part(page, from, bytes, room)
            }
            Prepared::Program(_) | Prepared::Erase => unreachable!(),
        }
    }
}

// That many bytes of a page, from that one on, in room that has as many or more.
fn read_part(page: &Page, from: usize, count: usize, room: Vec<u8>) -> Answer
    requires there { (bytes : ℕ) × IsWide bytes page.now × (from + count ≤ bytes) }
    requires room { count ≤ length room.items }
    ensures { (bytes : ℕ) → IsWide bytes page.now → from + count ≤ bytes → result ≡ answer.Read (take count (drop from (shown bytes page.now))) }
{
    let mut room = room;
    room.truncate(count);
    page.show_part(from, room.as_mut_slice());
    Answer::Read(Bytes::of(room))
}
