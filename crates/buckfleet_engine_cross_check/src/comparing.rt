//! Whether the stems that harvesters cut are those of their files.
ghost use Rattle.std.specs.Prelude.{◌≡◌, ℕ, ◌<◌, ◌≤◌, All, IfSome, IfNone, length};
ghost use Rattle.std.specs.Option.{option_map};
ghost use Rattle.buck_book_postings.specs.Posting.{harvester_of};
ghost use Rattle.buck_book_postings.specs.History.{HistoryParts};
ghost use Rattle.buckfleet_engine_cross_check.specs.Ties.{DifferBy, IsStemsFault, CutTheirFiles, stems_of_file};
ghost use Rattle.buckfleet_engine_cross_check.specs.inner.Tie.{stem_of_own, stems_cut_in, stems_in_lists};

use buck_book_postings::Posting;
use buck_stem_shape::Stem;
use buckfleet_engine_files::CheckFault;

/// The stem that a posting cut, if it is a harvester's.
fn own_stem(posting: &Posting, harvester: u32) -> Option<&Stem>
    ensures { option_map (λ s. s.now) result ≡ stem_of_own harvester posting.now }
{
    match posting {
        Posting::Cut(entry) if entry.harvester == harvester => Some(&entry.stem),
        _ => None,
    }
}

/// How the stems that a harvester cut first differ from those of its file.
fn first_difference(postings: &[Posting], file: &[Stem], harvester: u32) -> Option<CheckFault>
    ensures none { IfNone result (stems_cut_in harvester postings.now ≡ file.now) }
    ensures found { IfSome result (DifferBy harvester (stems_cut_in harvester postings.now) file.now) }
{
    let mut cuts = 0usize;
    for posting in postings {
        match own_stem(posting, harvester) {
            None => {}
            Some(stem) => {
                if cuts >= file.len() {
                    let place = cuts + 1;
                    return Some(CheckFault::Surplus { harvester, place });
                }
                if !stem.same(&file[cuts]) {
                    let place = cuts + 1;
                    return Some(CheckFault::Other { harvester, place });
                }
                cuts += 1;
            }
        }
    }
    if cuts < file.len() {
        let place = cuts + 1;
        return Some(CheckFault::Uncut { harvester, place });
    }
    None
}

/// The greatest number that a harvester has among some postings, and at least this one.
fn last_harvester(postings: &[Posting], least: u32) -> u32
    ensures all { All (λ x. harvester_of x ≤ result) postings.now }
    ensures least { least ≤ result }
{
    let mut last = least;
    for posting in postings {
        last = last.max(posting.harvester());
    }
    last
}

/// The stems of a harvester's file; none if it has no file.
fn file_of(files: &[Vec<Stem>], harvester: u32) -> &[Stem]
    requires { 0 < harvester }
    ensures { result.now ≡ stems_of_file (stems_in_lists files.now) harvester }
{
    match files.get(harvester as usize - 1) {
        Some(file) => file.as_slice(),
        None => &[],
    }
}

/// How the stems that the harvesters cut first differ from those of their files: at the least harvester for which they
/// do. It goes over the postings once for each harvester, and takes no memory.
pub(crate) fn compare_stems(postings: &[Posting], files: &[Vec<Stem>]) -> Option<CheckFault>
    requires few { length files.now ≤ 64 }
    ensures none { IfNone result ((h : HistoryParts) → h.postings ≡ postings.now
        → CutTheirFiles (stems_in_lists files.now) h) }
    ensures found { IfSome result (λ fault. (h : HistoryParts) → h.postings ≡ postings.now
        → IsStemsFault (stems_in_lists files.now) h fault) }
{
    for at in 0..last_harvester(postings, files.len() as u32) {
        let harvester = at + 1;
        match first_difference(postings, file_of(files, harvester), harvester) {
            Some(fault) => return Some(fault),
            None => {}
        }
    }
    None
}
