//! What is asked of stems that are cut: by themselves, by a fleet, or as they are felled.
use buck_apt_instruction::Settings;
use buck_rule::NamedRule;

/// The arguments of a bucking.
#[derive(Drop)]
pub struct BuckTask<'a> {
    /// The name of the instruction file.
    pub apt: &'a str,
    /// The name of the stem file.
    pub stm: &'a str,
    /// How many threads may read or cut stems at once; if nothing is said, as many as the machine has.
    pub threads: Option<u8>,
}

/// In which order harvesters cut.
#[derive(Clone, Copy, Debug, PartialEq, Eq, Drop)]
pub enum Order {
    /// All at once, each in a thread of its own; which one commits first is open.
    AtOnce,
    /// In turn, one stem each, round by round.
    InTurn,
}

/// The arguments of a fleet.
#[derive(Drop)]
pub struct FleetTask<'a> {
    /// In which order the harvesters cut.
    pub order: Order,
    /// How prices follow what was cut.
    pub rule: NamedRule,
    /// The numbers that are put in the place of the instruction's own.
    pub settings: Settings,
    /// The name of the file that the journal goes into, if one is wanted.
    pub journal: Option<&'a str>,
    /// The name of the instruction file.
    pub apt: &'a str,
    /// The names of the stem files, one for each harvester.
    pub stms: Vec<&'a str>,
}

/// The arguments of a run of requests.
#[derive(Drop)]
pub struct LiveTask<'a> {
    /// How prices follow what was cut.
    pub rule: NamedRule,
    /// The numbers that are put in the place of the instruction's own.
    pub settings: Settings,
    /// The name of the file that the journal goes into, if one is wanted.
    pub journal: Option<&'a str>,
    /// The name of the instruction file.
    pub apt: &'a str,
}
