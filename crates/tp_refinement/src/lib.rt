//! Every run of the service is a run of the page of `tp_tree_commit`, tree by tree, and so is every deployment; so the page's sentences hold
//! of both.
//!
//! Each law is the contract of a function with an empty body.
#![tactic(auto)]

ghost use Rattle.std.specs.Prelude.{List};
ghost use Rattle.tp_names.specs.declared.identifiers.Aaid.{Aaid};
ghost use Rattle.tp_model.specs.World.{World};
ghost use Rattle.tp_model.specs.Happenings.{Happening, run};
ghost use Rattle.tp_deployments.specs.Deployments.{Place, Deed, AreArranged, IsDeployment};
ghost use Rattle.tp_tree_commit.specs.TreeCommit.{KeepsSentences};
ghost use Rattle.tp_refinement.specs.Refinement.{tree_in, RunsRefine, RunsAreOnThePage, SaysOfWorlds, SettledRests};
ghost use Rattle.tp_refinement.specs.Deployed.{tree_at, DeploymentsRefine, DeploymentsAreOnThePage};

// Promise 24.1 [tp_refinement/specs/Refinement.antt]: **Every run is a run of the page**: whatever
//   happens is steps of the page in every tree, or none, so what a run leaves of a tree is reached
//   there
/// Whatever happens in a run, a request, a delivery in any order or again, a loss, a decision, a giving up, a crash in the middle of a write,
/// is steps of the page in every tree. So what every run leaves of a tree is reached on the page.
pub fn every_run_is_a_run_of_the_page()
    ensures steps { RunsRefine }
    ensures reached { RunsAreOnThePage }
{}

// Promise 24.3: So these hold of every tree of every run
/// So the page's sentences hold of every tree of every run.
pub fn every_run_keeps_the_sentences_of_the_page()
    ensures { (es : List Happening) (t : Aaid) → KeepsSentences (tree_in (run es) t) }
{}

// Promise 24.4 [tp_refinement/specs/Refinement.antt]: What the page says of the trees of a world is
//   promised of the world: its first two sentences are those of the service (16.26, 16.37, and
//   16.38 but for its closing line), and by its third, where nobody rolled back or decided to and
//   no node can go on, every node that stays has committed, and was told that this is complete with
//   no report
/// What the page's sentences say of the trees that a world has is promised of the world: the first two are those of the service; and where
/// on the page nobody rolled back or decided to, and no node can do more than roll back or decide, every node that stays has committed, and
/// was told that this is complete with no report.
pub fn the_page_speaks_of_worlds()
    ensures { (w : World) → SaysOfWorlds w }
{}

// Promise 24.8 [tp_refinement/specs/Refinement.antt]: A settled tree (16.60) of a run is at rest on
//   the page, and nobody rolled back or decided to: so the page's third sentence speaks wherever
//   that of the service does
/// In every run, a tree in which each word was taken, nothing failed, no user owes its done and each asked for commitment or left is at rest
/// on the page, and nobody rolled back or decided to; so the third sentence of the page speaks wherever that of the service does.
pub fn a_settled_tree_is_at_rest_on_the_page()
    ensures { (es : List Happening) → SettledRests (run es) }
{}

// Promise 24.5 [tp_refinement/specs/Deployed.antt]: A deployment (22) is a run of the page too:
//   whatever its processes do more is steps of the page in every tree, or none, and the sentences
//   hold of what they leave
/// Whatever the processes of a deployment do more is steps of the page in every tree, by the histories that they give the nodes of their
/// sites. So what they leave of a tree is reached on the page, and keeps its sentences.
pub fn every_deployment_is_a_run_of_the_page()
    ensures steps { DeploymentsRefine }
    ensures reached { DeploymentsAreOnThePage }
    ensures sentences { (qs : List Place) (ds : List Deed) → AreArranged qs → IsDeployment qs ds → (t : Aaid) → KeepsSentences (tree_at qs ds t) }
{}
