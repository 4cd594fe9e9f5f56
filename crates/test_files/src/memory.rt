//! Refused memory: what is read or made is then refused as `Memory`, and else as with ample memory. Run with each
//! allocation failing in turn.
use buck_apt::{AptFault, read_apt};
use buck_record::Memory;
use buck_stem::{StmFault, read_stm};
use buck_stem_shape::{Profile, ProfileLists, Stem};
use fixture_samples::{SAW, uniform_stem};
use std::alloc::Global;
use std::test::Fail;

#[test]
fn refused_memory_of_an_instruction(rt: HostRuntime) -> Result<(), Fail> {
    let instruction = read_apt(rt.alloc(), SAW.as_bytes())?;
    assert!(rt; instruction.copy(rt.alloc())?.same(&instruction));
    Ok(())
}

/// The numbers of targets are looked at last.
#[test]
fn refused_memory_of_a_refused_instruction(rt: HostRuntime) -> Result<(), Fail> {
    let text = "1 2 APT~901 1 100~902 1 1~903 1 0~910 1 1~
911 1 saw~912 1 1~913 1 1~914 1 1~915 1 100 200~915 2 400~
916 1 3000 4000~917 1 400 500 600 800~918 1 1 1 1~
";
    let fault = read_apt(rt.alloc(), text.as_bytes()).err();
    if fault == Some(AptFault::Memory) {
        return Err(Fail::from(AptFault::Memory));
    }
    assert!(rt; matches!(fault, Some(AptFault::Count { number: 918, .. })));
    Ok(())
}

/// Two stems, of which the second has zones.
const TWO: &str =
    "1 2 STM~951 1 5~952 1 1~953 1 250 240~951 1 6~952 1 2~953 1 200 200~954 1 0 1 100 2~";

#[test]
fn refused_memory_of_stems(rt: HostRuntime) -> Result<(), Fail> {
    assert!(rt; read_stm(rt.alloc(), TWO.as_bytes())?.len() == 2);
    Ok(())
}

/// The order of zones is looked at last.
#[test]
fn refused_memory_of_refused_stems(rt: HostRuntime) -> Result<(), Fail> {
    let text = "1 2 STM~951 1 5~952 1 1~953 1 250 240~954 1 100 2 0 1~";
    let fault = read_stm(rt.alloc(), text.as_bytes()).err();
    if fault == Some(StmFault::Memory) {
        return Err(Fail::from(StmFault::Memory));
    }
    assert!(rt; matches!(fault, Some(StmFault::Order { .. })));
    Ok(())
}

/// Whether a profile has so many points, in lists of its own and in those of a caller.
fn has_points(alloc: Global, stem: &Stem, count: usize) -> Result<bool, Memory> {
    let own = Profile::make(alloc, stem, 100)?.points();
    let mut lists = ProfileLists::new(alloc);
    let lent = Profile::make_in(&mut lists, stem, 100)?.points();
    Ok(own == count && lent == count)
}

#[test]
fn refused_memory_of_a_profile(rt: HostRuntime) -> Result<(), Fail> {
    let stem = uniform_stem(rt.alloc(), 3, 250)?;
    assert!(rt; has_points(rt.alloc(), &stem, 3)?);
    Ok(())
}
