//! A kept book as a plain pointer, which a program in another language may hold.
ghost use Rattle.std.specs.Prelude.{◌≡◌, Some, None, IsSome, Option};
ghost use Rattle.buck_c_session.specs.Kept.{KeptParts};

use crate::kept::KeptBook;
use std::alloc::Global;
use std::marker::Model;
use std::ptr::null_mut;

/// A pointer, and what it owns: a kept book, or nothing.
#[repr(C)]
#[derive(Drop)]
pub struct Handle {
    at: *mut u8,
    /// The book that it owns, if it owns one.
    pub ghost held: { Option KeptParts },
}

impl Model for Handle {
    ghost use Rattle.buck_c_session.specs.Block.{where_some, boxed_at};
    ghost use Rattle.buck_c_session.specs.contracts.kept.KeptBook.{the_row};

    ghost also_owns = { λ h. where_some (λ x. boxed_at the_row h.at x) h.held };
}

impl Handle {
    /// One that owns nothing.
    pub(crate) fn none() -> Handle
        ensures { result.held ≡ None }
    {
        Handle { at: null_mut() }
    }

    /// One that owns a book.
    pub(crate) fn of(book: Box<KeptBook>) -> Handle
        ensures { result.held ≡ Some book.value }
    {
        let at = Box::into_raw(book);
        Handle { at: at as *mut u8 }
    }

    /// The book that it owns.
    pub(crate) fn into_box(self, alloc: Global) -> Box<KeptBook>
        requires { IsSome self.held }
        ensures { self.held ≡ Some result.value }
    {
        let Handle { at } = self;
        unsafe { Box::from_raw(alloc, at as *mut KeptBook) }
    }
}
