//! Snapshots.
ghost use Rattle.std.specs.Prelude.{◌≡◌, ◌+◌};
ghost use Rattle.std.specs.Option.{ForSome, ForNone};
ghost use Rattle.boxcar.specs.Table.{Shows};

use crate::board::Board;
use boxcar::Pushed;
use buck_value::Sheet;
use std::sync::Arc;

/// A sheet that a seat was shown, borrowed from the board.
#[derive(Drop)]
pub struct Snapshot<'a> {
    pub(crate) board: &'a Board,
    pub(crate) version: u32,
    pub(crate) sheet: &'a Arc<Sheet>,
    pub(crate) pushed: Option<Pushed<Arc<Sheet>>>,
    ghost dated: { sheet.now.value.version ≡ version },
    ghost base: { ForNone pushed ((version ≡ 0) × (sheet.now ≡ board.now.base)) },
    ghost later: { ForSome pushed (λ p. Shows board.now.later p) },
    ghost place: { ForSome pushed (λ p. p.index + 1 ≡ version) },
    ghost held: { ForSome pushed (λ p. p.value ≡ sheet.now) },
}

impl<'a> Snapshot<'a> {
    ghost use Rattle.buck_board.specs.Board.{version_of, sheet_of};

    /// The version that was the newest when the seat read.
    pub fn version(&self) -> u32
        ensures { result ≡ version_of self.now }
    {
        self.version
    }

    /// The sheet of that version.
    pub fn sheet(&self) -> &'a Arc<Sheet>
        ensures sheet { result.now.value ≡ sheet_of self.now }
        ensures dated { (sheet_of self.now).version ≡ version_of self.now }
    {
        self.sheet
    }
}
