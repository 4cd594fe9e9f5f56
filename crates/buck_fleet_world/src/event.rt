//! Events.
ghost use Rattle.std.specs.Prelude.{◌≡◌};
ghost use Rattle.buck_fleet_world.specs.Run.{harvester_of_event};

use buck_stem_shape::Stem;
use std::sync::Arc;

/// One atomic step of one harvester. In each, `harvester` is its number, from 1.
#[derive(Drop)]
pub enum Event {
    /// One load of the front, which showed this version, from 0.
    Read {
        harvester: u32,
        version: u32,
    },
    /// A plan for a stem, under the sheet of the version that was read.
    Plan {
        harvester: u32,
        stem: Arc<Stem>,
    },
    /// One critical section up to and with the commit of the plan, or its refusal as stale.
    Try {
        harvester: u32,
    },
    /// One critical section up to and with the commit of a plan that is made in it, under the sheet in force.
    Locked {
        harvester: u32,
        stem: Arc<Stem>,
    },
    /// One critical section up to and with the commit of new targets: the number of logs wanted of each class,
    /// assortment by assortment and row by row.
    Retarget {
        harvester: u32,
        targets: Arc<Vec<u32>>,
    },
    /// The front is raised to the version in force, before the lock is given back.
    Raise {
        harvester: u32,
    },
    /// The end of a call that was refused, or that only read.
    Leave {
        harvester: u32,
    },
}

impl Event {
    /// Whose event it is.
    pub(crate) fn harvester(&self) -> u32
        ensures { result ≡ harvester_of_event self.now }
    {
        match self {
            Event::Read { harvester, .. }
            | Event::Plan { harvester, .. }
            | Event::Try { harvester }
            | Event::Locked { harvester, .. }
            | Event::Retarget { harvester, .. }
            | Event::Raise { harvester }
            | Event::Leave { harvester } => *harvester,
        }
    }
}
