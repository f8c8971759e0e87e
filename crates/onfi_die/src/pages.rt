ghost use Rattle.std.specs.Prelude.{◌≡◌, ◌<◌, length, replicate, if◌then◌else◌, IfOk};
ghost use Rattle.std.specs.List.{list_all};
ghost use Rattle.onfi_die.specs.Block.{may_program, is_erased};
ghost use Rattle.onfi_die.specs.declared.page.Page.TheVariants.{Erased, Torn};

use crate::page::Page;
use std::alloc::{AllocError, Global};

/// That many erased pages.
pub(crate) fn erased_pages(alloc: Global, count: u16) -> Result<Vec<Page>, AllocError>
    ensures { IfOk result (λ pages. pages.items ≡ replicate count Erased) }
{
    let mut pages = Vec::with_capacity(alloc, usize::from(count))?;
    for _page in 0..count {
        pages.push(Page::Erased)?;
    }
    Ok(pages)
}

/// Makes each page torn, or else erased.
pub(crate) fn make_all(pages: &mut [Page], torn: bool)
    ensures { pages.new ≡ replicate (length pages.old) (if torn then Torn else Erased) }
{
    for page in pages.iter_mut() {
        *page = if torn { Page::Torn } else { Page::Erased };
    }
}

/// Whether the page is erased and, where pages are programmed in order, so is each higher page.
pub(crate) fn may_program(any_order: bool, page: usize, pages: &[Page]) -> bool
    requires { page < length pages.now }
    ensures { result ≡ may_program any_order page pages.now }
{
    if !pages[page].is_erased() {
        return false;
    }
    any_order || are_erased(&pages[page + 1..])
}

fn are_erased(pages: &[Page]) -> bool
    ensures { result ≡ list_all is_erased pages.now }
{
    pages.iter().all(|page| page.is_erased())
}
