//! A part of a file's items.
ghost use Rattle.std.specs.Prelude.{◌≡◌};

use crate::item::Piece;
use std::marker::Model;

/// Some items of a file, one after the other. Contracts see their list.
#[derive(Drop)]
pub struct Group<'a> {
    items: &'a [Piece<'a>],
}

impl<'a> Model for Group<'a> {
    ghost use Rattle.std.specs.Prelude.{List};
    ghost use Rattle.buck_record.specs.Item.{ItemParts};

    ghost Value = { List ItemParts };

    ghost view = { λ s. s.items.now };
}

impl<'a> Group<'a> {
    /// The group of these items.
    pub fn of(items: &'a [Piece<'a>]) -> Group<'a>
        ensures { result ≡ items.now }
    {
        Group { items }
    }

    /// Its items, in file order.
    pub fn items(&self) -> &'a [Piece<'a>]
        ensures { result.now ≡ self.now }
    {
        self.items
    }
}
