//! What shows that a sheet was put up.
use boxcar::Pushed;
use buck_value::Sheet;
use std::sync::Arc;

/// That a sheet stands among those put up on a board. Only the board that it was put up on gives it.
#[derive(Drop)]
pub struct PutUp {
    pub(crate) pushed: Pushed<Arc<Sheet>>,
}
