//! The block of a caller's memory that a kept book is handed out in.
ghost use Rattle.std.specs.Prelude.{◌≡◌, Some, None, IfSome, IfNone, IsTrue, ◌↔◌, IsSome};
ghost use Rattle.buck_c_session.specs.Block.{IsMarked};

use crate::handle::Handle;
use crate::kept::KeptBook;
use std::alloc::Global;
use std::mem::replace;

/// What stands in a block that holds a book.
const MARK: u64 = 7_094_686_100_856_205_163;

/// A block of a caller's memory, which holds a book or none. One of zeros holds none.
#[repr(C)]
#[derive(Drop)]
pub struct Block {
    mark: u64,
    /// The handle of the value that it owns.
    pub handle: Handle,
    ghost marked: { IsMarked mark handle.held },
}

impl Block {
    /// Takes the book out, if there is one; the block then holds none.
    pub fn take(&mut self, alloc: Global) -> Option<Box<KeptBook>>
        ensures some { IfSome result (λ book. self.old.handle.held ≡ Some book.value) }
        ensures none { IfNone result (self.old.handle.held ≡ None) }
        ensures left { self.new.handle.held ≡ None }
    {
        if self.mark != MARK {
            return None;
        }
        let handle = replace(&mut self.handle, Handle::none());
        self.mark = 0;
        Some(handle.into_box(alloc))
    }

    /// Puts a book into a block that holds none.
    pub fn put(&mut self, book: Box<KeptBook>)
        requires { self.old.handle.held ≡ None }
        ensures { self.new.handle.held ≡ Some book.value }
    {
        self.handle = Handle::of(book);
        self.mark = MARK;
    }

    /// Whether it holds a book.
    pub fn is_open(&self) -> bool
        ensures { IsTrue result ↔ IsSome self.now.handle.held }
    {
        self.mark == MARK
    }
}
