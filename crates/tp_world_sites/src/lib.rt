//! What a world under a written schedule is made of: its sites on logs in memory, the requests of its lines, and what lines show.
//!
//! What a call does stands with the definitions of the service. No history is kept here: of each node a site knows what
//! follows from its history.
#![tactic(auto)]

mod closing;
mod fault;
mod left;
mod requests;
mod restart;
mod shown;
mod site_slot;
mod sites;

pub use closing::closing_lines;
pub use fault::WorldFault;
pub use left::{Stop, left_by};
pub use requests::{peer_of, request_in};
pub use restart::{LostEntry, restart_nodes};
pub use shown::{
    show_boot, show_record, show_refusal, show_refused, show_sent, show_told, state_shown,
};
pub use site_slot::{Answer, Entry, SiteSlot, opened};
pub use sites::{arrive_at, declare_at, play_at, site_place, state_at};
