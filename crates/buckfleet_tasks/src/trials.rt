//! What is asked of sweeps and trials.
use crate::combination::Combination;
use buck_apt_instruction::Settings;
use buck_rule::NamedRule;
use buckfleet_trial_draws::Draws;

/// The arguments of a sweep.
#[derive(Drop)]
pub struct SweepTask<'a> {
    /// The runs, in the order of their lines.
    pub combinations: Vec<Combination>,
    /// The name of the instruction file.
    pub apt: &'a str,
    /// The names of the stem files, one for each harvester.
    pub stms: Vec<&'a str>,
    /// How many runs may be done at once, in threads of their own; if nothing is said, as many as the machine has.
    pub threads: Option<u8>,
}

/// The arguments of a sweep with other targets, or with draws.
#[derive(Drop)]
pub struct TrialTask<'a> {
    /// The runs, in the order of their lines.
    pub combinations: Vec<Combination>,
    /// The name of the instruction file.
    pub apt: &'a str,
    /// The names of the stem files, one for each harvester.
    pub stms: Vec<&'a str>,
    /// The name of the file of targets, if there is one.
    pub targets: Option<&'a str>,
    /// The orders that are drawn, if there are some.
    pub draws: Option<Draws>,
    /// How many runs may be done at once, in threads of their own; if nothing is said, as many as the machine has.
    pub threads: Option<u8>,
}

/// The arguments of a trial whose lines also say what an owner pays.
#[derive(Drop)]
pub struct OwnedTask<'a> {
    /// The arguments of the trial itself.
    pub trial: TrialTask<'a>,
    /// The name of the file of the owner's instruction.
    pub own: &'a str,
}

/// The arguments of a run of wishes.
#[derive(Drop)]
pub struct WishesTask<'a> {
    /// How prices follow what was cut.
    pub rule: NamedRule,
    /// The numbers that are put in the place of the instruction's own.
    pub settings: Settings,
    /// The name of the instruction file.
    pub apt: &'a str,
    /// The names of the stem files, one for each harvester.
    pub stms: Vec<&'a str>,
    /// The name of the file of targets, if there is one.
    pub targets: Option<&'a str>,
    /// The orders that are drawn, if there are some.
    pub draws: Option<Draws>,
    /// How many runs may be done at once, in threads of their own; if nothing is said, as many as the machine has.
    pub threads: Option<u8>,
}

/// The arguments of a run that tunes an instruction.
#[derive(Drop)]
pub struct TuneTask<'a> {
    /// How prices follow what is cut.
    pub rule: NamedRule,
    /// The numbers that are put in the place of the instruction's own, for the run alone.
    pub settings: Settings,
    /// The name of the instruction file.
    pub apt: &'a str,
    /// The names of the stem files, one for each harvester.
    pub stms: Vec<&'a str>,
    /// The name of the file of targets, if there is one.
    pub targets: Option<&'a str>,
    /// How many threads may read at once; if nothing is said, as many as the machine has.
    pub threads: Option<u8>,
}
