//! Processes on machines, and a carrier between them: what they do is a run of one world, so every law of runs holds of them. Each law
//! is the contract of a function with an empty body.
#![tactic(auto)]

ghost use Rattle.tp_deployments.specs.RunOf.{ADeploymentIsARun, ADeploymentGoesOn};

/// A deployment is a run. Sites are run by one process after the other, each on the log that the process before it left; whatever the
/// processes are given, in whatever order, where each node is declared with the superior of its place, and where each record that a node
/// takes was said to it before by the node that it is said to be from, there is a run of one world whose nodes are those of the places,
/// each with the history that the processes of its site gave it. Records may come twice, late, in any order or never, and what is
/// refused may come from anywhere. As the deployment goes on, so does its run.
pub fn a_deployment_is_a_run()
    // Promise 22.2 [tp_deployments/specs/RunOf.antt]: **A deployment is a run**: there is a run of
    //   one world whose nodes are those of the places, each with the history that the processes of
    //   its site gave it, and in which each record that was said is a frame
    ensures is { ADeploymentIsARun }
    // Promise 22.3 [tp_deployments/specs/RunOf.antt]: As a deployment goes on, so does its run
    ensures on { ADeploymentGoesOn }
{}
