//! Deployments as worked examples, computed by the prover: one that meets the premises of the law that a deployment is a run, and
//! others that break one premise alone, and with it a promise. Each is the contract of a function with an empty body.
#![tactic(auto)]

ghost use Rattle.std.specs.Prelude.{◌≡◌, length, codes};
ghost use Rattle.tp_records.specs.declared.peer.PeerRecord.{PeerRecord};
ghost use Rattle.tp_histories.specs.Histories.{HasSent};
ghost use Rattle.tp_deployments.specs.Deployments.{AreArranged, IsDeployment, history_at};
ghost use Rattle.tp_deployment_trials.specs.DeploymentTrials.{a1, b2, two, three, numbers, tree, branch, stopped_between, forged, in_doubt, on_an_older_log, on_a_shared_log, answer_of_another, answered_twice, in_a_ring, begun, world_of, IsButOne, SuperiorsStand, CommitStandsBesideRollback, IsEnteredAgain, IsTakenUnsent};

/// Two sites, one of which stops and starts again. A record comes before its node is declared in the second process, and is refused; it
/// comes again after that, and is taken, as it was by the first process. The premises are met.
pub fn a_record_comes_twice()
    ensures arranged { AreArranged two }
    ensures is { IsDeployment two stopped_between }
    ensures lived { length (history_at stopped_between b2) ≡ 6 }
{}

/// A branch takes an order to commit that nobody gave, while its superior rolls back. All else is a deployment; and Commit does not stand
/// alone.
pub fn a_record_is_forged()
    ensures alone { IsButOne two 14 forged }
    ensures breaks { CommitStandsBesideRollback (world_of two forged) }
{}

/// A root ordered commitment, and its branch asks for the outcome. Another process of the root's site answers, on a log without the
/// order: it started on an older copy, or beside the first process on what that one had begun with. What the branch takes was said to it
/// by that process; the branch rolls back, and Commit does not stand alone.
pub fn a_log_is_put_back()
    ensures arranged { AreArranged two }
    ensures before { IsDeployment two in_doubt }
    ensures asked { HasSent (history_at in_doubt b2) a1 (PeerRecord.RecReady tree branch) }
    ensures older { HasSent on_an_older_log b2 answer_of_another }
    ensures shared { HasSent on_a_shared_log b2 answer_of_another }
    ensures breaks { CommitStandsBesideRollback (world_of two answered_twice) }
{}

/// A root is declared under a node of its own tree, after its site has stopped. All else is a deployment; and it takes the Begin of a
/// tree that it started itself.
pub fn a_superior_is_changed()
    ensures arranged { AreArranged three }
    ensures alone { IsButOne three 19 in_a_ring }
    ensures breaks { IsEnteredAgain (world_of three in_a_ring) }
{}

/// Two roots have one number. All else is a deployment; and what a branch took is no prefix of what the node of that number sent, which is
/// another.
pub fn a_number_is_used_twice()
    ensures stand { SuperiorsStand numbers }
    ensures is { IsDeployment numbers begun }
    ensures breaks { IsTakenUnsent (world_of numbers begun) }
{}
