//! A plain second writing of the table of events, over numbers alone.
use crate::fixtures::{Act, Do, FULL, NO, OK, Place};
use buck_fleet_world::StepFault;

/// What one harvester is at.
#[derive(Clone, Copy)]
pub struct Seat {
    pub place: Place,
    pub seen: u32,
    pub stale: u32,
}

/// A world of at most three harvesters: how many postings it has and may have, how many cuts make a period and came
/// since the last end, the version in force, the front, and the harvesters.
#[derive(Clone, Copy)]
pub struct Plain {
    pub capacity: u32,
    pub period: u32,
    pub harvesters: u32,
    pub postings: usize,
    pub cuts: u32,
    pub version: u32,
    pub front: u32,
    pub seats: [Seat; 3],
}

/// The opening of a world of so many harvesters, with this capacity and this period in stems.
pub fn opened(world: (u32, u32, u32)) -> Plain {
    let seat = Seat {
        place: Place::Idle,
        seen: 0,
        stale: 0,
    };
    Plain {
        capacity: world.1,
        period: world.2,
        harvesters: world.0,
        postings: 0,
        cuts: 0,
        version: 0,
        front: 0,
        seats: [seat; 3],
    }
}

/// Whether a harvester may do it, by the table.
fn may(plain: &Plain, seat: Seat, act: Act) -> bool {
    let free = plain.seats[0].place != Place::Answered
        && plain.seats[1].place != Place::Answered
        && plain.seats[2].place != Place::Answered;
    match (act, seat.place) {
        (Act::Read(v), Place::Idle) => seat.stale < 3 && seat.seen <= v && v <= plain.front,
        (Act::Plan, Place::Reading) => true,
        (Act::Try, Place::Planned) => free,
        (Act::Locked | Act::Retarget, Place::Idle | Place::Reading) => free,
        (Act::Raise, Place::Answered) => true,
        (Act::Leave, Place::Idle | Place::Reading | Place::Planned) => true,
        _ => false,
    }
}

/// Adds a posting, which ends the period or not.
fn add(plain: &mut Plain, is_cut: bool) {
    plain.postings = plain.postings.saturating_add(1);
    plain.cuts = plain.cuts.saturating_add(1);
    if !is_cut || plain.cuts == plain.period {
        plain.cuts = 0;
        plain.version = plain.version.saturating_add(1);
    }
}

/// What becomes of the harvester, and of the rest.
fn follow(plain: &mut Plain, mut seat: Seat, act: Act) -> Seat {
    match act {
        Act::Read(v) => {
            seat.seen = v;
            seat.place = Place::Reading;
        }
        Act::Plan => seat.place = Place::Planned,
        Act::Try if seat.seen < plain.version => {
            seat.stale = seat.stale.saturating_add(1);
            seat.place = Place::Idle;
        }
        Act::Try | Act::Locked => {
            add(plain, true);
            seat.place = Place::Answered;
        }
        Act::Retarget => {
            add(plain, false);
            seat.place = Place::Answered;
        }
        Act::Raise => {
            plain.front = plain.version;
            seat.seen = plain.version;
            seat.stale = 0;
            seat.place = Place::Idle;
        }
        Act::Leave => {
            seat.stale = 0;
            seat.place = Place::Idle;
        }
    }
    seat
}

/// Does one thing: the answer.
pub fn does(plain: &mut Plain, what: Do) -> Option<StepFault> {
    let Do(act, harvester) = what;
    let h = harvester as usize;
    if harvester == 0 || harvester > plain.harvesters || h > 3 {
        return NO;
    }
    let seat = plain.seats[h - 1];
    if !may(plain, seat, act) {
        return NO;
    }
    if matches!(act, Act::Try | Act::Locked | Act::Retarget)
        && plain.postings == plain.capacity as usize
    {
        return FULL;
    }
    let after = follow(plain, seat, act);
    plain.seats[h - 1] = after;
    OK
}
