//! Wrong bodies of what is asked of a closed fleet.
ghost use Rattle.std.specs.Prelude.{◌≢◌, []};
ghost use Rattle.buck_book_postings.specs.History.{version_of};

use buck_fleet::Closed;

/// No posting is handed out.
pub fn entries_hidden(closed: &Closed)
    requires { closed.now.history.postings ≢ [] }
{
    let right = closed.entries().len();
    let wrong = 0;
    prove!(right != wrong);
}

/// No sheet is handed out.
pub fn sheets_hidden(closed: &Closed)
    requires { closed.now.history.sheets ≢ [] }
{
    let right = closed.sheets().len();
    let wrong = 0;
    prove!(right != wrong);
}

/// No list of what was kept is handed out.
pub fn kept_lists_hidden(closed: &Closed)
    requires { closed.now.kept ≢ [] }
{
    let right = closed.kept().len();
    let wrong = 0;
    prove!(right != wrong);
}

/// The base sheet is given for the last one.
pub fn last_sheet_is_the_base(closed: &Closed)
    requires { version_of closed.now.history ≢ 0 }
{
    let right = closed.last_sheet().version();
    let wrong = 0;
    prove!(right != wrong);
}

/// No target is handed out.
pub fn targets_at_the_end_hidden(closed: &Closed) {
    if closed.instruction().classes() > 0 {
        let right = closed.targets().len();
        let wrong = 0;
        prove!(right != wrong);
    }
}

/// No class count is handed out.
pub fn counts_hidden(closed: &Closed) {
    if closed.instruction().classes() > 0 {
        let right = closed.counts().len();
        let wrong = 0;
        prove!(right != wrong);
    }
}
