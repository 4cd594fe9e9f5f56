//! What holds of every run of a world, for every instruction and any number of harvesters: each law is the contract of
//! an empty function.
ghost use Rattle.buck_fleet_world.specs.Laws.{HistoryIsLawful, PostingsAreThoseAdded, NoOldPlanIsAdded, StaleAtMostThree, OneAnswered, FrontIsNearVersion, ReadsNeverFall, ReadsAfterReplies, LiftsAreTheFront, StaleAndLiftsAtMostFront, StaleAtMostLiftsOfOthers, AllStaleAtMost};

/// After each run the history is lawful, and its postings are those that the run's tries, locked cuts and new targets
/// added, in order, each once. No plan is added that was made under a sheet no longer in force.
pub fn every_history()
    ensures lawful { HistoryIsLawful }
    ensures added { PostingsAreThoseAdded }
    ensures no_old_plan { NoOldPlanIsAdded }
{}

/// After each run nobody has made more than three stale attempts in its call, at most one harvester is answered, nobody
/// has seen a version past the front, and the front is at most the version in force, which it equals if nobody is
/// answered.
pub fn every_world()
    ensures stale { StaleAtMostThree }
    ensures one_answered { OneAnswered }
    ensures front { FrontIsNearVersion }
{}

/// In each run the versions that a harvester reads never fall, and a read isn't older than what its harvester added
/// before it.
pub fn every_read()
    ensures never_fall { ReadsNeverFall }
    ensures after_replies { ReadsAfterReplies }
{}

/// After each fresh run the lifts are as many as the front; one harvester's stale events and lifts together are at most
/// the front, so that it has at most as many stale events as the others have lifts; and all stale events together are
/// at most the number of the other harvesters times the version in force.
pub fn every_fresh_run()
    ensures lifts { LiftsAreTheFront }
    ensures one_harvester { StaleAndLiftsAtMostFront }
    ensures others { StaleAtMostLiftsOfOthers }
    ensures all_stale { AllStaleAtMost }
{}
