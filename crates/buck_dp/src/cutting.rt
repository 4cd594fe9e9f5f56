//! Cuttings.
use buck_value::Log;

/// The logs cut from one stem, from the butt on. Any logs may stand in it; [`admissible`](crate::admissible) says
/// whether they can be cut.
#[derive(Debug, Drop, PartialEq, Eq)]
pub struct Cutting {
    pub logs: Vec<Log>,
}
