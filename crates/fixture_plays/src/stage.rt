//! A stage on which harvesters meet: a gate that holds harvester 1, and the answers to all calls.
use buck_book_postings::{Plan, TargetsFault};
use buck_fleet::{Gate, Path};
use buck_value::Sheet;
use std::alloc::{AllocError, Global};
use std::sync::atomic::{AtomicBool, AtomicU64, Ordering};
use std::sync::{Arc, Mutex, Wait};
use std::thread;

/// How many turns of a loop a harvester waits at most.
const MOST_TURNS: u64 = 50_000_000;

/// Lets other threads run at some of the turns of a loop that waits.
fn rest(turn: u64) {
    if turn % 16 == 15 {
        thread::yield_now();
    }
}

/// What a call answered.
#[derive(Clone, Copy, PartialEq, Drop)]
pub enum Told {
    /// A stem was cut: position, attempts and path.
    Cut(u32, u8, Path),
    /// New targets are in force: position.
    Demand(u32),
    /// A sheet of this version was shown.
    Shown(u32),
    /// No sheet was shown.
    NothingShown,
    /// The history was at its capacity.
    Full,
    /// It was so, and a plan of this worth was given back.
    FullForPlan(u64),
    /// Another sheet was in force, and a plan of this worth was given back.
    Stale(u64),
    /// The targets weren't valid.
    Targets(TargetsFault),
    /// An allocation failed.
    Memory,
}

/// A gate that holds the first plans of harvester 1, each until so many more calls of others were answered. It notes
/// version and worth of each plan of harvester 1, and the answer to each call.
#[derive(Drop)]
pub struct Stage {
    held: u64,
    calls: u64,
    is_patient: bool,
    was_refused: AtomicBool,
    plans: AtomicU64,
    answers: AtomicU64,
    is_late: AtomicBool,
    is_short: AtomicBool,
    noted: Mutex<Vec<(u32, u64)>>,
    told: Mutex<Vec<(u32, Told)>>,
    shown: Mutex<Vec<Arc<Sheet>>>,
}

impl Stage {
    /// A gate that holds so many plans of harvester 1, each until so many more calls of others were answered.
    pub fn holding(alloc: Global, held: u64, calls: u64) -> Result<Stage, AllocError> {
        Ok(Stage {
            held,
            calls,
            is_patient: false,
            was_refused: AtomicBool::new(false),
            plans: AtomicU64::new(0),
            answers: AtomicU64::new(0),
            is_late: AtomicBool::new(false),
            is_short: AtomicBool::new(false),
            noted: Mutex::new(Vec::with_capacity(alloc, 16)?),
            told: Mutex::new(Vec::with_capacity(alloc, 16)?),
            shown: Mutex::new(Vec::with_capacity(alloc, 16)?),
        })
    }

    /// A gate that holds nobody.
    pub fn open(alloc: Global) -> Result<Stage, AllocError> {
        Stage::holding(alloc, 0, 0)
    }

    /// A gate that holds nobody, and with which a call that is refused for want of memory is made once more.
    pub fn patient(alloc: Global) -> Result<Stage, AllocError> {
        let mut stage = Stage::holding(alloc, 0, 0)?;
        stage.is_patient = true;
        Ok(stage)
    }

    /// Whether a call with this answer is made once more. It is noted that one was.
    pub fn asks_again(&self, told: &Told) -> bool {
        let asks = self.is_patient && matches!(told, Told::Memory);
        if asks {
            self.was_refused.store(true, Ordering::SeqCst);
        }
        asks
    }

    /// Whether a call was made once more.
    pub fn was_refused(&self) -> bool {
        self.was_refused.load(Ordering::SeqCst)
    }

    /// Waits until a counter has come to a number, for some turns at most.
    fn wait(&self, counter: &AtomicU64, number: u64) {
        for turn in 0..MOST_TURNS {
            if counter.load(Ordering::SeqCst) >= number {
                return;
            }
            if self.is_short.load(Ordering::SeqCst) {
                return;
            }
            rest(turn);
        }
        self.is_late.store(true, Ordering::SeqCst);
    }

    /// Waits until harvester 1 has made so many plans.
    pub fn wait_for_plans(&self, number: u64) {
        self.wait(&self.plans, number);
    }

    /// Notes the answer to a call of a harvester.
    pub fn tell<R: Wait>(&self, rt: &R, harvester: u32, told: Told) {
        if matches!(told, Told::Memory) {
            self.is_short.store(true, Ordering::SeqCst);
        }
        if self.told.lock(rt).push((harvester, told)).is_err() {
            self.is_short.store(true, Ordering::SeqCst);
        }
        if harvester != 1 {
            self.answers.fetch_add(1, Ordering::SeqCst);
        }
    }

    /// Keeps a sheet that was shown, or that was named as the one in force.
    pub fn show<R: Wait>(&self, rt: &R, sheet: Arc<Sheet>) {
        if self.shown.lock(rt).push(sheet).is_err() {
            self.is_short.store(true, Ordering::SeqCst);
        }
    }

    /// Whether an allocation failed in a call.
    pub fn is_short(&self) -> bool {
        self.is_short.load(Ordering::SeqCst)
    }

    /// Whether nobody waited for too long, and the calls had these answers, in this order.
    pub fn has_told<R: Wait>(&self, rt: &R, wants: &[(u32, Told)]) -> bool {
        !self.is_late.load(Ordering::SeqCst) && self.told.lock(rt).as_slice() == wants
    }

    /// Whether nobody waited for too long, and the last answer of all was this one to a harvester.
    pub fn was_told_last<R: Wait>(&self, rt: &R, harvester: u32, told: Told) -> bool {
        !self.is_late.load(Ordering::SeqCst)
            && self.told.lock(rt).last() == Some(&(harvester, told))
    }

    /// Whether harvester 1 made plans of these versions, each of this worth.
    pub fn has_noted<R: Wait>(&self, rt: &R, versions: &[u32], worth: u64) -> bool {
        let noted = self.noted.lock(rt);
        if noted.len() != versions.len() {
            return false;
        }
        for (note, version) in noted.as_slice().iter().zip(versions.iter()) {
            if note.0 != *version || note.1 != worth {
                return false;
            }
        }
        true
    }

    /// The sheet that was shown at this place, if there is one.
    pub fn shown_at<R: Wait>(&self, rt: &R, at: usize) -> Option<Arc<Sheet>> {
        let shown = self.shown.lock(rt);
        shown.get(at)?.clone().ok()
    }
}

impl Gate for Stage {
    fn planned<R: Wait>(&self, rt: &R, harvester: u32, _attempt: u8, plan: &Plan) {
        if harvester != 1 {
            return;
        }
        let note = (plan.sheet().version(), plan.worth());
        if self.noted.lock(rt).push(note).is_err() {
            self.is_short.store(true, Ordering::SeqCst);
        }
        let before = self.plans.fetch_add(1, Ordering::SeqCst);
        if before < self.held {
            let number = before.saturating_add(1).saturating_mul(self.calls);
            self.wait(&self.answers, number);
        }
    }
}

/// A gate at which the first plans of all harvesters wait for each other.
#[derive(Drop)]
pub struct Meeting {
    number: u64,
    come: AtomicU64,
    is_late: AtomicBool,
}

impl Meeting {
    /// A meeting of so many harvesters.
    pub fn of(number: u64) -> Meeting {
        Meeting {
            number,
            come: AtomicU64::new(0),
            is_late: AtomicBool::new(false),
        }
    }

    /// Whether all have met.
    pub fn have_met(&self) -> bool {
        !self.is_late.load(Ordering::SeqCst) && self.come.load(Ordering::SeqCst) >= self.number
    }
}

impl Gate for Meeting {
    fn planned<R: Wait>(&self, _rt: &R, _harvester: u32, attempt: u8, _plan: &Plan) {
        if attempt != 1 {
            return;
        }
        self.come.fetch_add(1, Ordering::SeqCst);
        for turn in 0..MOST_TURNS {
            if self.come.load(Ordering::SeqCst) >= self.number {
                return;
            }
            rest(turn);
        }
        self.is_late.store(true, Ordering::SeqCst);
    }
}
