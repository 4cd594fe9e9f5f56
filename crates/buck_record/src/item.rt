//! Items.
use std::marker::Model;

/// An item of a file: the number and the kind of its head, and what follows the head, trimmed.
#[derive(Debug, Drop)]
pub struct Item {
    /// The first word of the head, from 0 to 65,535.
    pub number: u16,
    /// The second word of the head, from 0 to 65,535.
    pub kind: u16,
    /// The bytes after the head, as they stand, without whitespace at both ends. It may be empty.
    pub rest: Vec<u8>,
}

impl Model for Item {
    ghost use Rattle.buck_record.specs.Item.{ItemParts};

    ghost Value = { ItemParts };

    ghost view = { λ i. record { number = i.number; kind = i.kind; rest = i.rest.items } };
}

/// An item that borrows its rest from the bytes of its file. Contracts see the same as of an [`Item`].
#[derive(Debug, Drop)]
pub struct Piece<'a> {
    /// The first word of the head, from 0 to 65,535.
    pub number: u16,
    /// The second word of the head, from 0 to 65,535.
    pub kind: u16,
    /// The bytes after the head, as they stand, without whitespace at both ends. It may be empty.
    pub rest: &'a [u8],
}

impl<'a> Model for Piece<'a> {
    ghost use Rattle.buck_record.specs.Item.{ItemParts};

    ghost Value = { ItemParts };

    ghost view = { λ i. record { number = i.number; kind = i.kind; rest = i.rest.now } };
}
