//! Cuttings that someone names: worths and reasons worked out by hand.
use crate::fixtures::{base_of, log};
use buck_dp_own_logs::{Judged, Reason, judge};
use buck_stem_shape::Stem;
use buck_value::{Log, Sheet};
use fixture_samples::stem_of;
use std::test::Fail;

/// The saw instruction with a trim of 50 mm, of which logs of 4,000 mm from 200 mm on aren't bought, and poles of species 2.
const SAW_AND_POLE: &str = "1 2 APT~901 1 100~902 1 1~903 1 0~910 1 2~
911 1 saw~912 1 1~913 1 1~914 1 1~915 1 100 200~915 2 400~919 1 50~
916 1 3000 4000~917 1 400 500 600 0~918 1 1 1 1 1~
911 1 pole~912 1 2~913 1 1~914 1 2~915 1 100 200~915 2 400~
916 1 3000 4000~917 1 0 0 100 0~918 1 1 1 1 1~
";

/// A log, by its start, its length and its assortment, and why it can't stand behind a saw log of 3,000 mm at the butt.
type Told = (u32, u32, u8, Reason);

const TOLD: [Told; 11] = [
    (3000, 3000, 0, Reason::Order),
    (0, 4000, 9, Reason::Order),
    (3100, 3000, 2, Reason::Assortment),
    (3150, 3000, 1, Reason::Species),
    (3150, 3500, 0, Reason::Start),
    (3100, 3500, 0, Reason::Length),
    (6900, 3000, 0, Reason::End),
    (4_294_967_200, 4000, 0, Reason::End),
    (5000, 4000, 0, Reason::Grade),
    (4000, 4000, 0, Reason::Diameter),
    (3100, 4000, 0, Reason::Price),
];

/// A stem of 9,900 mm: 250 mm thick up to 7,500 mm, from 7,600 mm on 90 mm, and of grade 2 from 8,000 mm on.
fn stem(rt: &HostRuntime) -> Result<Stem, Fail> {
    let mut samples = [250; 100];
    for i in 76..100 {
        samples[i] = 90;
    }
    stem_of(rt.alloc(), &samples, &[(8000, 2)])
}

/// Whether each second log is reported, with its reason.
fn are_told(sheet: &Sheet, stem: &Stem) -> bool {
    for (start, length, assortment, reason) in TOLD {
        let logs = [log(0, 3000, 0), log(start, length, assortment)];
        if judge(sheet, stem, &logs) != (Judged::Refused { log: 1, reason }) {
            return false;
        }
    }
    true
}

/// Whether logs are admissible and worth this.
fn are_worth(sheet: &Sheet, stem: &Stem, logs: &[Log], worth: u64) -> bool {
    judge(sheet, stem, logs) == Judged::Admissible { worth }
}

#[test]
fn reasons_and_worths(rt: HostRuntime) -> Result<(), Fail> {
    let sheet = base_of(&rt, SAW_AND_POLE)?;
    let stem = stem(&rt)?;
    assert!(rt; are_told(&sheet, &stem));
    let logs = [log(0, 3000, 0), log(3100, 3000, 0)];
    assert!(rt; are_worth(&sheet, &stem, &logs, 176_714_400) && are_worth(&sheet, &stem, &[], 0));
    Ok(())
}
