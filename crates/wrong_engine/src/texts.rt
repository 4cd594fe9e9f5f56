//! Wrong bodies of the text of a bucking. What is cut is determined by the instruction and the stems: the first of the
//! best cuttings of each.
ghost use Rattle.std.specs.Prelude.{◌≡◌, ◌≢◌, ◌++◌, List, length};
ghost use Rattle.std.specs.List.{flat_map};
ghost use Rattle.buckfleet_engine_text.specs.Bucking.{CutStem, IsBucking, base_sheet, logs_of, stem_lines, total_line, worth_of_all};
ghost use Rattle.wrong_engine.specs.Texts.{butt_lines, half_lines, last_total, text_with};

use buck_apt_instruction::Instruction;
use buck_stem_shape::Stem;
use buckfleet_engine_text::buck_text;
use std::alloc::Global;

/// The diameter at a log's butt end stands in its line in the place of the one at its top.
pub fn butt_diameter_printed(alloc: Global, instruction: &Instruction, stems: &[Stem], wrong: &[u8])
    requires wrong { (cuts : List CutStem) → IsBucking (base_sheet instruction.now) stems.now cuts
        → wrong.now ≡ text_with (butt_lines (base_sheet instruction.now)) (base_sheet instruction.now) cuts }
    requires differ { (cuts : List CutStem) → IsBucking (base_sheet instruction.now) stems.now cuts
        → flat_map (butt_lines (base_sheet instruction.now)) cuts ≢ flat_map (stem_lines (base_sheet instruction.now)) cuts }
{
    let Ok(right) = buck_text(alloc, instruction, stems) else {
        return;
    };
    prove!(right.as_slice() != wrong);
}

/// The second half of each stem's logs has no line.
pub fn log_left_out(alloc: Global, instruction: &Instruction, stems: &[Stem], wrong: &[u8])
    requires wrong { (cuts : List CutStem) → IsBucking (base_sheet instruction.now) stems.now cuts
        → wrong.now ≡ text_with (half_lines (base_sheet instruction.now)) (base_sheet instruction.now) cuts }
    requires differ { (cuts : List CutStem) → IsBucking (base_sheet instruction.now) stems.now cuts
        → flat_map (half_lines (base_sheet instruction.now)) cuts ≢ flat_map (stem_lines (base_sheet instruction.now)) cuts }
{
    let Ok(right) = buck_text(alloc, instruction, stems) else {
        return;
    };
    prove!(right.as_slice() != wrong);
}

/// The total has the worth of the last stem alone.
pub fn worth_of_the_last_stem_alone(
    alloc: Global,
    instruction: &Instruction,
    stems: &[Stem],
    wrong: &[u8],
)
    requires wrong { (cuts : List CutStem) → IsBucking (base_sheet instruction.now) stems.now cuts
        → wrong.now ≡ flat_map (stem_lines (base_sheet instruction.now)) cuts ++ last_total (base_sheet instruction.now) cuts }
    requires differ { (cuts : List CutStem) → IsBucking (base_sheet instruction.now) stems.now cuts
        → last_total (base_sheet instruction.now) cuts
        ≢ total_line (length cuts) (logs_of cuts) (worth_of_all (base_sheet instruction.now) cuts) }
{
    let Ok(right) = buck_text(alloc, instruction, stems) else {
        return;
    };
    prove!(right.as_slice() != wrong);
}
