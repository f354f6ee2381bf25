//! Laws of histories, each the contract of a function that does nothing.

ghost use Rattle.pref_share.specs.Interleavings.{JointRunsAreSequential};
ghost use Rattle.pref_share.specs.Openings.{LegalIsHistory};

/// The calls of the operations that a client has seen are a legal history of the sequential table.
#[tactic(auto, using(crate::proofs::HistoryLaws::legal_is_history))]
pub fn legal_is_history()
    ensures { LegalIsHistory }
{}

/// Act lists that are a joint run with their replies are one run of the sequential table: along some interleaving of the
/// lists it gives just these replies.
#[tactic(auto, using(crate::proofs::InterleavingsLaws::joint_runs_are_sequential))]
pub fn joint_runs_are_sequential()
    ensures { JointRunsAreSequential }
{}
