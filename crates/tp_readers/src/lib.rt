//! What the readers of a deployment are told: the program of a root, by the code of its face; who judges its logs; and who reads the stores
//! at its nodes. Each law is the contract of a function with an empty body.
#![tactic(auto)]

ghost use Rattle.tp_readers.specs.Faces.{CommittedMeansAll};
ghost use Rattle.tp_readers.specs.Audits.{AuditsAreYes};
ghost use Rattle.tp_readers.specs.Stores.{StoresAgreeThere, StoresHoldTheirBranches};

// Promise 22.17 [tp_readers/specs/Faces.antt]: **Committed means all of them**: where the code of a
//   face at a site of a deployment is Committed, and its node is the root of the tree that was
//   complete last, every node of that tree that stays was told to commit; it holds whatever the
//   site had been through before the process of the face, and whether its log was compacted
/// Committed, the code of a face at a site of a deployment, means what it means in a run: where the node is the root of the tree that was
/// complete last, every node of that tree that stays was told to commit. It holds whatever the site had been through before the process of
/// the face, and whether its log was compacted.
pub fn committed_means_all_of_a_deployment()
    ensures { CommittedMeansAll }
{}

// Promise 22.18 [tp_readers/specs/Audits.antt]: **The audit of a deployment is yes** (9.6), over
//   copies of some of its logs or of parts of them, each as any process left it or as it was
//   compacted then, also where the site went on; and without the exception for decisions
/// The verdict over the logs of a deployment is yes, over copies of some of the logs or of parts of them, each as any process left it or as
/// it was compacted then, also where the site went on; and so it is without the exception for nodes that took a decision of their own.
pub fn an_audit_of_a_deployment_is_yes()
    ensures { AuditsAreYes }
{}

/// What holds of stores at the nodes of a run holds of stores at the nodes of a deployment: no two stores of one tree disagree about its
/// transaction, and a store that its node's user goes by has the writes of exactly the branches that its node was told to commit.
pub fn stores_of_a_deployment_agree()
    // Promise 22.19 [tp_readers/specs/Stores.antt, clauses agree hold]: What is promised of stores
    //   at the nodes of a run (8.14 to 8.16) holds of stores at the nodes of a deployment
    ensures agree { StoresAgreeThere }
    ensures hold { StoresHoldTheirBranches }
{}
