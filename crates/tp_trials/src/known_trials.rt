//! Worked examples of what is known of a node: histories in which the laws of the parts say something.
//!
//! Each function has an empty body; its clauses are the example.
ghost use Rattle.std.specs.Prelude.{◌≡◌, ◌&&◌, ◌||◌, true, false, Some, None, [], ◌∷◌, length};
ghost use Rattle.tp_names.specs.declared.outcome.Outcome.{Outcome};
ghost use Rattle.tp_names.specs.declared.outcome.Report.{Report};
ghost use Rattle.tp_model.specs.declared.arc.Phase.{Phase};
ghost use Rattle.tp_model.specs.declared.arc.Deferral.{Deferral};
ghost use Rattle.tp_model.specs.Parts.{Idle, Live, No_response, Response_due, Response_with_control};
ghost use Rattle.tp_model.specs.Legal.{is_start};
ghost use Rattle.tp_model.specs.Consistency.{not_idle, peers_in};
ghost use Rattle.tp_histories.specs.KnownTests.{agrees};
ghost use Rattle.tp_model.specs.Questions.{declared_in, drawn_in, awaits_in, rests_in, deferral_in, link_in, holds_in, due_in};
ghost use Rattle.tp_model.specs.Keys.{phase_in, superior_for, superior_since, branches_in, kept_in, known_in, decision_for, asked_in, told_prepare_in, owes_in, superior_rolled_in, own_in, counted_in, left_in, given_up_in, ended_in, prepared_in};
ghost use Rattle.tp_history_state.specs.Named.{address_in, units_in};
ghost use Rattle.tp_trials.specs.KnownTrials.{middle, as_branch, as_root, as_damaged, fits, grows, linked, foretelling, forgetting, branch_key, root_key, deciding, beginning, asking, preparing, leaving, responding, speaking, polarized, shaking, answering, ordering, finishing, unknowing, own_key, above, one_child, foretold_key, deferring, rolling, committing, completing, mark_of, handing, entrusting, replying, calling, recalling, granting, readying, giving_up, leaving_below, own_child, ending_below, forking, fork_key, telling_first, losing, tells_now, below, moved, moving};

/// A node is declared under its superior, and linked with it and with a subordinate: it has drawn a mark for each.
pub fn a_node_is_linked()
    ensures legal { fits middle [] linked ≡ true }
    ensures declared { declared_in (grows middle [] linked) ≡ true }
    ensures drawn { drawn_in middle (grows middle [] linked) ≡ 2 }
    ensures all { agrees middle (grows middle [] linked) ≡ true }
{}

/// The superior begins a tree with a mark that the node has yet to draw, as a tree of the node's own; the node passes it on,
/// and does not take it for one that it began.
pub fn a_tree_is_foretold()
    ensures legal { fits middle (grows middle [] linked) foretelling ≡ true }
    ensures phase { phase_in middle foretold_key (grows middle (grows middle [] linked) foretelling) ≡ Phase.Active }
    ensures other { phase_in middle root_key (grows middle (grows middle [] linked) foretelling) ≡ Phase.Nil }
    ensures branches { length (branches_in middle foretold_key (grows middle (grows middle [] linked) foretelling)) ≡ 1 }
    ensures all { agrees middle (grows middle (grows middle [] linked) foretelling) ≡ true }
{}

/// A branch starts ready, with the superior and the branch that its record names.
pub fn a_branch_starts_ready()
    ensures starts { is_start as_branch ≡ true }
    ensures phase { phase_in as_branch branch_key [] ≡ Phase.Ready }
    ensures known { known_in as_branch [] ≡ true }
    ensures superior { superior_for as_branch branch_key [] ≡ Some above }
    ensures branches { branches_in as_branch branch_key [] ≡ one_child }
    ensures all { agrees as_branch [] ≡ true }
{}

/// A root has no superior, where the record that it starts on names one too.
pub fn a_root_has_no_superior()
    ensures starts { is_start as_root ≡ true }
    ensures named { superior_since as_root root_key [] ≡ Some above }
    ensures superior { superior_for as_root root_key [] ≡ None }
    ensures all { agrees as_root [] ≡ true }
{}

/// A damage is kept from the log, and that a Forget came for it is known.
pub fn a_damage_is_kept()
    ensures starts { is_start as_damaged ≡ true }
    ensures kept { length (kept_in as_damaged []) ≡ 1 }
    ensures legal { fits as_damaged [] forgetting ≡ true }
    ensures all { agrees as_damaged (grows as_damaged [] forgetting) ≡ true }
{}

/// A ready branch decides to commit, and its decision stands.
pub fn a_branch_decides()
    ensures legal { fits as_branch [] deciding ≡ true }
    ensures decision { decision_for as_branch branch_key (grows as_branch [] deciding) ≡ Some Outcome.Commit }
    ensures all { agrees as_branch (grows as_branch [] deciding) ≡ true }
{}

/// The user of a root asks for commitment, and the transaction waits for its branch.
pub fn a_root_is_asked()
    ensures legal { (fits middle [] beginning && fits middle (grows middle [] beginning) asking) ≡ true }
    ensures before { asked_in middle own_key (grows middle [] beginning) ≡ false }
    ensures asked { asked_in middle own_key (grows middle (grows middle [] beginning) asking) ≡ true }
    ensures all { agrees middle (grows middle (grows middle [] beginning) asking) ≡ true }
{}

/// The superior asks a branch to prepare, and its user is told.
pub fn a_branch_is_prepared()
    ensures legal { (fits middle (grows middle [] linked) foretelling && fits middle (grows middle (grows middle [] linked) foretelling) preparing) ≡ true }
    ensures before { told_prepare_in middle foretold_key (grows middle (grows middle [] linked) foretelling) ≡ false }
    ensures told { told_prepare_in middle foretold_key (grows middle (grows middle (grows middle [] linked) foretelling) preparing) ≡ true }
    ensures all { agrees middle (grows middle (grows middle (grows middle [] linked) foretelling) preparing) ≡ true }
{}

/// A branch leaves, and its arc rests: a response leaves it so, and any other record of the superior ends the rest.
pub fn an_arc_rests()
    ensures legal { (fits middle [] linked && fits middle (grows middle [] linked) leaving) ≡ true }
    ensures before { rests_in middle 1 (grows middle [] linked) ≡ false }
    ensures rests { rests_in middle 1 (grows middle (grows middle [] linked) leaving) ≡ true }
    ensures responds { (fits middle (grows middle (grows middle [] linked) leaving) responding
        && rests_in middle 1 (grows middle (grows middle (grows middle [] linked) leaving) responding)) ≡ true }
    ensures speaks { fits middle (grows middle (grows middle [] linked) leaving) speaking ≡ true }
    ensures woken { rests_in middle 1 (grows middle (grows middle (grows middle [] linked) leaving) speaking) ≡ false }
    ensures all { agrees middle (grows middle (grows middle [] linked) leaving) ≡ true }
{}

/// A superior gives control with a handshake: the node holds it once it has answered. Of its own dialogue with a subordinate
/// it holds control from the start, until it grants it.
pub fn control_is_handed_on()
    ensures legal { (fits middle [] polarized && fits middle (grows middle [] polarized) entrusting
        && fits middle (grows middle (grows middle [] polarized) entrusting) replying) ≡ true }
    ensures before { holds_in middle 1 (grows middle [] polarized) ≡ false }
    ensures shaken { holds_in middle 1 (grows middle (grows middle [] polarized) entrusting) ≡ false }
    ensures answered { holds_in middle 1 (grows middle (grows middle (grows middle [] polarized) entrusting) replying) ≡ true }
    ensures grants { fits middle (grows middle [] polarized) handing ≡ true }
    ensures below { holds_in middle 3 (grows middle [] polarized) ≡ true }
    ensures handed { holds_in middle 3 (grows middle (grows middle [] polarized) handing) ≡ false }
    ensures all { agrees middle (grows middle (grows middle (grows middle [] polarized) entrusting) replying) ≡ true }
{}

/// Two dialogues stand in the order in which they were asked for; the first is broken off and asked for again, and stands
/// after the other.
pub fn arcs_stand_as_asked()
    ensures legal { (fits middle [] linked && fits middle (grows middle [] linked) calling
        && fits middle (grows middle (grows middle [] linked) calling) recalling) ≡ true }
    ensures before { peers_in (grows middle (grows middle [] linked) calling) ≡ 3 ∷ 4 ∷ [] }
    ensures after { peers_in (grows middle (grows middle (grows middle [] linked) calling) recalling) ≡ 4 ∷ 3 ∷ [] }
    ensures standing { not_idle middle (grows middle (grows middle (grows middle [] linked) calling) recalling) (4 ∷ 3 ∷ []) ≡ 4 ∷ 3 ∷ [] }
    ensures all { agrees middle (grows middle (grows middle (grows middle [] linked) calling) recalling) ≡ true }
{}

/// A handshake goes out, and its end waits for the response until that comes.
pub fn a_response_is_awaited()
    ensures legal { (fits middle [] polarized && fits middle (grows middle [] polarized) shaking
        && fits middle (grows middle (grows middle [] polarized) shaking) answering) ≡ true }
    ensures before { awaits_in middle 3 (grows middle [] polarized) ≡ false }
    ensures asked { awaits_in middle 3 (grows middle (grows middle [] polarized) shaking) ≡ true }
    ensures behind { awaits_in middle 3 (grows middle (grows middle (grows middle [] polarized) shaking) answering) ≡ false }
    ensures all { agrees middle (grows middle (grows middle [] polarized) shaking) ≡ true }
{}

/// The superior gives control with a handshake: the node owes the response that gives it, until it responds; a Grant meanwhile
/// decides of control, and the response gives none.
pub fn a_response_gives_control()
    ensures legal { (fits middle (grows middle [] polarized) entrusting
        && fits middle (grows middle (grows middle [] polarized) entrusting) replying
        && fits middle (grows middle (grows middle [] polarized) entrusting) granting) ≡ true }
    ensures before { due_in middle 1 (grows middle [] polarized) ≡ No_response }
    ensures owed { due_in middle 1 (grows middle (grows middle [] polarized) entrusting) ≡ Response_with_control }
    ensures behind { due_in middle 1 (grows middle (grows middle (grows middle [] polarized) entrusting) replying) ≡ No_response }
    ensures granted { due_in middle 1 (grows middle (grows middle (grows middle [] polarized) entrusting) granting) ≡ Response_due }
    ensures all { agrees middle (grows middle (grows middle (grows middle [] polarized) entrusting) granting) ≡ true }
{}

/// A ready branch is ordered to commit, and its user owes its done until it gives it.
pub fn a_user_owes_its_done()
    ensures legal { (fits as_branch [] ordering && fits as_branch (grows as_branch [] ordering) finishing) ≡ true }
    ensures before { owes_in as_branch branch_key [] ≡ false }
    ensures ordered { owes_in as_branch branch_key (grows as_branch [] ordering) ≡ true }
    ensures behind { owes_in as_branch branch_key (grows as_branch (grows as_branch [] ordering) finishing) ≡ false }
    ensures all { agrees as_branch (grows as_branch [] ordering) ≡ true }
{}

/// The superior knows of nothing, and the ready branch rolls back with it.
pub fn a_superior_rolls_back()
    ensures legal { fits as_branch [] unknowing ≡ true }
    ensures before { superior_rolled_in as_branch branch_key [] ≡ false }
    ensures rolled { superior_rolled_in as_branch branch_key (grows as_branch [] unknowing) ≡ true }
    ensures all { agrees as_branch (grows as_branch [] unknowing) ≡ true }
{}

/// The end of a branch is deferred while its transaction is active, and its rollback forgets it.
pub fn an_end_is_deferred()
    ensures legal { (fits middle (grows middle [] linked) foretelling && fits middle (grows middle (grows middle [] linked) foretelling) deferring) ≡ true }
    ensures before { deferral_in middle 3 (grows middle (grows middle [] linked) foretelling) ≡ Deferral.None }
    ensures deferred { deferral_in middle 3 (grows middle (grows middle (grows middle [] linked) foretelling) deferring) ≡ Deferral.End }
    ensures rolls { fits middle (grows middle (grows middle (grows middle [] linked) foretelling) deferring) rolling ≡ true }
    ensures rolled { deferral_in middle 3 (grows middle (grows middle (grows middle (grows middle [] linked) foretelling) deferring) rolling) ≡ Deferral.None }
    ensures all { agrees middle (grows middle (grows middle (grows middle [] linked) foretelling) deferring) ≡ true }
{}

/// The end of an arc is deferred until its transaction commits: the arc is live until the commitment is complete, and then idle.
pub fn an_arc_ends_with_its_commitment()
    ensures legal { (fits middle [] beginning && fits middle (grows middle [] beginning) committing) ≡ true }
    ensures before { link_in middle 3 (grows middle (grows middle [] beginning) committing) ≡ Live (mark_of 2 1) (mark_of 3 1) 4 1 }
    ensures completes { fits middle (grows middle (grows middle [] beginning) committing) completing ≡ true }
    ensures ended { link_in middle 3 (grows middle (grows middle (grows middle [] beginning) committing) completing) ≡ Idle }
    ensures all { agrees middle (grows middle (grows middle (grows middle [] beginning) committing) completing) ≡ true }
{}

/// A ready branch that decided to commit rolls back: it logs the damage, and reports it; one that decided nothing does not.
pub fn a_node_reports_its_own_damage()
    ensures legal { (fits as_branch [] deciding && fits as_branch (grows as_branch [] deciding) unknowing) ≡ true }
    ensures before { own_in as_branch branch_key (grows as_branch [] deciding) ≡ Report.None }
    ensures damage { own_in as_branch branch_key (grows as_branch (grows as_branch [] deciding) unknowing) ≡ Report.Mix }
    ensures none { own_in as_branch branch_key (grows as_branch [] unknowing) ≡ Report.None }
    ensures all { agrees as_branch (grows as_branch (grows as_branch [] deciding) unknowing) ≡ true }
{}

/// The branch of a node's own tree is counted with its Ready, and ends with the report of its Done, or is given up; or it leaves.
pub fn a_branch_is_marked()
    ensures legal { (fits middle [] beginning && fits middle (grows middle [] beginning) asking
        && fits middle (grows middle (grows middle [] beginning) asking) readying
        && fits middle (grows middle (grows middle (grows middle [] beginning) asking) readying) giving_up) ≡ true }
    ensures before { counted_in middle own_key 3 (grows middle (grows middle [] beginning) asking) ≡ false }
    ensures counted { counted_in middle own_key 3 (grows middle (grows middle (grows middle [] beginning) asking) readying) ≡ true }
    ensures ends { fits middle (grows middle (grows middle (grows middle [] beginning) asking) readying) ending_below ≡ true }
    ensures ended { ended_in middle own_key own_child
        (grows middle (grows middle (grows middle (grows middle [] beginning) asking) readying) ending_below) ≡ Some Report.Hazard }
    ensures given_up { given_up_in middle own_key 3 (grows middle (grows middle (grows middle (grows middle [] beginning) asking) readying) giving_up) ≡ true }
    ensures leaves { fits middle (grows middle (grows middle [] beginning) asking) leaving_below ≡ true }
    ensures left { left_in middle own_key 3 (grows middle (grows middle (grows middle [] beginning) asking) leaving_below) ≡ true }
    ensures all { agrees middle (grows middle (grows middle (grows middle (grows middle [] beginning) asking) readying) giving_up) ≡ true }
    ensures behind { agrees middle (grows middle (grows middle (grows middle (grows middle [] beginning) asking) readying) ending_below) ≡ true }
{}

/// A root has two branches, and tells the first one to prepare. When its user asks for commitment, only the other one is told
/// then, and both were; so the questions look back over the whole transaction, and not at the entry in which it was asked.
pub fn branches_are_told_to_prepare()
    ensures legal { (fits middle [] forking && fits middle (grows middle [] forking) telling_first
        && fits middle (grows middle (grows middle [] forking) telling_first) asking) ≡ true }
    ensures before { (prepared_in middle fork_key 3 (grows middle [] forking) || prepared_in middle fork_key 4 (grows middle [] forking)) ≡ false }
    ensures first { prepared_in middle fork_key 3 (grows middle (grows middle [] forking) telling_first) ≡ true }
    ensures other { prepared_in middle fork_key 4 (grows middle (grows middle [] forking) telling_first) ≡ false }
    ensures told { (prepared_in middle fork_key 3 (grows middle (grows middle (grows middle [] forking) telling_first) asking)
        && prepared_in middle fork_key 4 (grows middle (grows middle (grows middle [] forking) telling_first) asking)) ≡ true }
    ensures now { tells_now 4 (grows middle (grows middle (grows middle [] forking) telling_first) asking) ≡ true }
    ensures not_again { tells_now 3 (grows middle (grows middle (grows middle [] forking) telling_first) asking) ≡ false }
    ensures all { agrees middle (grows middle (grows middle (grows middle [] forking) telling_first) asking) ≡ true }
{}

/// A branch whose word is awaited is on a live association only while the transaction is active: the loss of that association
/// rolls the transaction back, and then the branch has not answered, and cannot be reached.
pub fn an_awaited_branch_is_lost()
    ensures legal { (fits middle [] forking && fits middle (grows middle [] forking) losing) ≡ true }
    ensures active { phase_in middle fork_key (grows middle [] forking) ≡ Phase.Active }
    ensures live { link_in middle 4 (grows middle [] forking) ≡ Live (mark_of 2 2) (mark_of 4 1) 1 0 }
    ensures rolling { phase_in middle fork_key (grows middle (grows middle [] forking) losing) ≡ Phase.Rolling }
    ensures lost { link_in middle 4 (grows middle (grows middle [] forking) losing) ≡ Idle }
    ensures unanswered { (counted_in middle fork_key 4 (grows middle (grows middle [] forking) losing)
        || left_in middle fork_key 4 (grows middle (grows middle [] forking) losing)) ≡ false }
    ensures all { agrees middle (grows middle (grows middle [] forking) losing) ≡ true }
{}

/// A dialogue is broken off, and another one asked for with a node of the same number at another site: the arc has the address and
/// the units that were asked for last, and not those of the first one.
pub fn an_arc_is_named_anew()
    ensures legal { (fits middle [] linked && fits middle (grows middle [] linked) moving) ≡ true }
    ensures first { address_in 3 (grows middle [] linked) ≡ Some below }
    ensures proposed { units_in 3 (grows middle [] linked) ≡ 41 }
    ensures last { address_in 3 (grows middle (grows middle [] linked) moving) ≡ Some moved }
    ensures anew { units_in 3 (grows middle (grows middle [] linked) moving) ≡ 25 }
    ensures above { address_in 1 (grows middle (grows middle [] linked) moving) ≡ Some above }
    ensures all { agrees middle (grows middle (grows middle [] linked) moving) ≡ true }
{}
