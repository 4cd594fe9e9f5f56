//! Whole runs of a fleet.
ghost use Rattle.std.specs.Prelude.{◌≡◌};
ghost use Rattle.buckfleet_engine.specs.fleet.Serving.{RunsFleet};

use crate::fleet::running::cut_files;
use crate::fleet::turning::cut_files_in_turn;
use crate::fleet::writing::write_made;
use buck_rule::{Rule, Standing};
use buckfleet_engine_files::{EngineFault, Make, Onlooker, Open, make_journal, open_inputs};
use buckfleet_tasks::{FleetTask, Order};
use std::alloc::Global;
use std::io;
use std::sync::Wait;
use std::thread::Threads;

/// Runs a fleet over the files of a task, by its rule. The onlooker is shown what was read and, while the fleet works,
/// how far it is; [`Nobody`](buckfleet_engine_files::Nobody) is one that doesn't ask.
///
/// The input files are opened in the order of the words before one of them is read; one that can't be opened is `Read`
/// with its number. Then the file of the journal is made, if one is wanted; if it can't be made, that is `Write`.
/// Each fault and what is written before it are those of [`run_fleet_files`](crate::run_fleet_files), or of
/// [`run_in_turn`](crate::run_in_turn) if the task asks for turns. The instruction is read, and refused, by its own
/// numbers; then those of the task take their place.
pub fn serve_fleet<T: Threads + Wait + Sync, L: Onlooker + Sync, O: Open + Make, W: io::Write>(
    rt: &T,
    alloc: Global,
    task: &FleetTask<'_>,
    onlooker: &L,
    opener: &mut O,
    writer: &mut W,
) -> Result<(), EngineFault>
    ensures { RunsFleet O.opens O.makes O.File.remaining O.Made.contents opener.old opener.new task.now
        (W.contents writer.old) (W.contents writer.new) result }
{
    let named = task.rule;
    let rule = Rule::new(move |s: &Standing| named.price(s));
    let (mut apt, mut stems) = open_inputs(alloc, opener, task.apt, task.stms.as_slice())?;
    // OUT after the inputs, because it may be none of them, and before they are read: else a run that can't write would
    // work in vain.
    let journal = make_journal(opener, task.journal)?;
    let stems = stems.as_mut_slice();
    match task.order {
        Order::AtOnce => {
            let closed = cut_files(rt, alloc, &mut apt, stems, rule, &task.settings, onlooker)?;
            write_made(alloc, closed.parts(), journal, writer)
        }
        Order::InTurn => {
            let turned = cut_files_in_turn(alloc, &mut apt, stems, rule, &task.settings, onlooker)?;
            write_made(alloc, &turned, journal, writer)
        }
    }
}
