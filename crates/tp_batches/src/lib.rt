//! Workers that share the events of a site are one process: what they forced on one log is what a single list of events forces, those of
//! each worker in their order. The law is the contract of a function with an empty body.
#![tactic(auto)]

ghost use Rattle.tp_batches.specs.Batches.{FirstOfABatch, WholeBatch};

/// Each worker has the events of its own nodes, and did the first of them, or all; the log has their records in whatever order. Then there
/// is a list of these events, those of each worker in their order, that leaves these records in just that order, whatever the lists that
/// the workers share; so it is of each first part of the records, as a crash leaves it. Where all events were done it has them all, and the
/// outputs for the events of each worker are those that one thread gives.
pub fn a_batch_is_its_events_in_order()
    // Promise 22.15 [tp_batches/specs/Batches.antt, clauses first whole]: Workers that share the
    //   events of a site are one process: of the records that they forced, and of each first part
    //   of them, there is a list of these events, those of each worker in their order, that leaves
    //   just these records in just that order; where all events were done it has them all, and for
    //   those of each worker the outputs that one thread gives
    ensures first { FirstOfABatch }
    ensures whole { WholeBatch }
{}
