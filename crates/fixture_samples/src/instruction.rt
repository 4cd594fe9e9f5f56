//! Instructions.
use buck_apt::read_apt;
use buck_apt_instruction::Instruction;
use std::alloc::Global;
use std::sync::Arc;
use std::test::Fail;

/// The saw instruction: module 100, period 1, limit 0; one assortment of two rows (from 100 mm and from 200 mm) and two
/// columns (3,000 and 4,000 mm).
pub const SAW: &str = "1 2 APT~901 1 100~902 1 1~903 1 0~910 1 1~
911 1 saw~912 1 1~913 1 1~914 1 1~915 1 100 200~915 2 400~
916 1 3000 4000~917 1 400 500 600 800~918 1 1 1 1 1~
";

/// The saw instruction with a second assortment, of pieces: the same but for its name, price kind and prices.
pub const SAW_AND_POLE: &str = "1 2 APT~901 1 100~902 1 1~903 1 0~910 1 2~
911 1 saw~912 1 1~913 1 1~914 1 1~915 1 100 200~915 2 400~
916 1 3000 4000~917 1 400 500 600 800~918 1 1 1 1 1~
911 1 pole~912 1 1~913 1 1~914 1 2~915 1 100 200~915 2 400~
916 1 3000 4000~917 1 0 0 100 0~918 1 1 1 1 1~
";

/// The instruction of the largest numbers: module 10, period 1, limit 1,000, and logs of 500 and 30,000 mm.
pub const MAX: &str = "1 2 APT~901 1 10~902 1 1~903 1 1000~910 1 1~
911 1 max~912 1 1~913 1 1~914 1 1~915 1 0~915 2 2000~
916 1 500 30000~917 1 10000000 10000000~918 1 1 1~
";

/// A text with its first part `old` replaced by `new`.
pub fn edited(alloc: Global, text: &str, old: &str, new: &str) -> Result<String, Fail> {
    let Some((before, after)) = text.split_once(old) else {
        return Err(Fail::from("no such part"));
    };
    Ok(format!(in alloc; "{before}{new}{after}")?)
}

/// The instruction of a text.
pub fn instruction_of(alloc: Global, text: &str) -> Result<Arc<Instruction>, Fail> {
    let instruction = read_apt(alloc, text.as_bytes())?;
    Ok(Arc::new(alloc, instruction)?)
}

/// The saw instruction with this period in stems, this limit per mille and these targets, a space between two.
pub fn saw_instruction(
    alloc: Global,
    period: u32,
    limit: u32,
    targets: &str,
) -> Result<Arc<Instruction>, Fail> {
    let text = format!(in alloc;
        "1 2 APT~901 1 100~902 1 {period}~903 1 {limit}~910 1 1~
911 1 saw~912 1 1~913 1 1~914 1 1~915 1 100 200~915 2 400~
916 1 3000 4000~917 1 400 500 600 800~918 1 {targets}~"
    )?;
    instruction_of(alloc, text.as_str())
}

/// The lower limits of 32 rows.
const ROWS: &str =
    "10 20 30 40 50 60 70 80 90 100 110 120 130 140 150 160 170 180 190 200 210 220 230 240 250 260 270 280 290 300 310 320";

/// The lengths of 32 columns in mm.
const COLUMNS: &str =
    "1000 1100 1200 1300 1400 1500 1600 1700 1800 1900 2000 2100 2200 2300 2400 2500 2600 2700 2800 2900 3000 3100 3200 3300 3400 3500 3600 3700 3800 3900 4000 4100";

/// An instruction of one assortment with 1,024 classes, of which nothing is wanted: period 1, limit 0.
pub fn largest_instruction(alloc: Global) -> Result<Arc<Instruction>, Fail> {
    let prices = " 5".repeat(alloc, 1024)?;
    let targets = " 0".repeat(alloc, 1024)?;
    let text = format!(in alloc;
        "1 2 APT~901 1 100~902 1 1~903 1 0~910 1 1~911 1 saw~912 1 1~913 1 1~914 1 1~915 1 {ROWS}~915 2 400~916 1 {COLUMNS}~917 1{prices}~918 1{targets}~"
    )?;
    instruction_of(alloc, text.as_str())
}
