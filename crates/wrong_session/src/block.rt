//! Wrong answers of the block that a kept book is handed out in.
ghost use Rattle.std.specs.Prelude.{◌≡◌, None, IsSome};

use buck_c_session::{Block, KeptBook};
use std::alloc::Global;

/// The book is taken out, and the block still says that it holds one.
pub fn taken_book_stays_in_its_block(alloc: Global, block: &mut Block) -> Option<Box<KeptBook>> {
    let book = block.take(alloc);
    let right = block.is_open();
    let wrong = true;
    prove!(right != wrong);
    book
}

/// A block that holds a book answers that it holds none.
pub fn book_not_found_in_its_block(alloc: Global, block: &mut Block) -> Option<Box<KeptBook>>
    requires { IsSome block.old.handle.held }
{
    let book = block.take(alloc);
    let right = book.is_none();
    let wrong = true;
    prove!(right != wrong);
    book
}

/// A book that is put into a block isn't there.
pub fn book_lost_on_its_way_in(block: &mut Block, book: Box<KeptBook>)
    requires { block.old.handle.held ≡ None }
{
    block.put(book);
    let right = block.is_open();
    let wrong = false;
    prove!(right != wrong);
}
