//! What follows from the definitions, for all files: each law is the contract of an empty function.
ghost use Rattle.std.specs.Prelude.{◌≡◌, ℕ, List};
ghost use Rattle.buck_record.specs.bytes.Record.{items_of};
ghost use Rattle.buck_record.specs.checking.Table.{only_in};
ghost use Rattle.buck_stem.specs.Stm.{table, stm_of};

/// An item that stands in no slot of the table changes nothing: files that are alike without such items have the same
/// stems, or the same refusal.
#[tactic(auto, unfolding(crate::specs::Stm::stm_of))]
pub fn items_of_no_table_say_nothing()
    ensures { (a b : List ℕ) → only_in table (items_of a) ≡ only_in table (items_of b) → stm_of a ≡ stm_of b }
{}
