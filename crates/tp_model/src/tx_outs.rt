//! The outputs of a transaction.
use crate::TxOut;
use tp_names::Sequence;

/// A list of outputs of a transaction.
pub type TxOuts = Sequence<TxOut>;
