//! What follows from the definitions of a replay, for all histories: each law is the contract of an empty function.
ghost use Rattle.buck_apt_instruction.specs.Instruction.{IsInstruction};
ghost use Rattle.buck_book_postings.specs.History.{HistoryParts, IsLawful};
ghost use Rattle.buck_book_journal.specs.declared.replay_fault.ReplayFault.{ReplayFault};
ghost use Rattle.buck_book_replay.specs.Replay.{IsFirstFault};

/// A history in which no first fault stands is lawful.
pub fn no_fault_is_lawful()
    ensures { (h : HistoryParts) → IsInstruction h.instruction
        → ((fault : ReplayFault) → IsFirstFault h fault → ⊥)
        → IsLawful h }
{}

/// A history in which a first fault stands isn't.
pub fn faults_are_unlawful()
    ensures { (h : HistoryParts) (fault : ReplayFault) → IsInstruction h.instruction
        → IsFirstFault h fault
        → IsLawful h → ⊥ }
{}
