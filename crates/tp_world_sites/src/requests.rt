//! Requests as lines have them, and as nodes have them.
ghost use Rattle.std.specs.Prelude.{◌≡◌, IfOk};
ghost use Rattle.tp_model.specs.Lines.{peer_of};
ghost use Rattle.tp_world_sites.specs.Requests.{plain_request, request_in};

use std::alloc::Global;
use tp_model::LineRequest;
use tp_names::{NoMemory, Octets};
use tp_network::Nodes;
use tp_records::Request;

/// The peer that a request names.
pub fn peer_of(request: &LineRequest) -> Option<u16>
    ensures { result ≡ peer_of request.now }
{
    match request {
        LineRequest::BeginDialogue { peer, .. }
        | LineRequest::EndDialogue { peer }
        | LineRequest::UserData { peer, .. }
        | LineRequest::UError { peer }
        | LineRequest::UAbort { peer }
        | LineRequest::Grant { peer }
        | LineRequest::AskControl { peer }
        | LineRequest::Handshake { peer }
        | LineRequest::Respond { peer }
        | LineRequest::HandshakeGrant { peer }
        | LineRequest::BeginTransaction { peer }
        | LineRequest::DeferEnd { peer }
        | LineRequest::DeferGrant { peer }
        | LineRequest::Prepare { peer } => Some(*peer),
        LineRequest::Accept { .. }
        | LineRequest::Reject
        | LineRequest::Commit
        | LineRequest::Done
        | LineRequest::Rollback
        | LineRequest::Unchanged => None,
    }
}

// A request that wants no address.
#[inline(always)]
fn plain_request(alloc: Global, request: &LineRequest) -> Result<Request, NoMemory>
    ensures { IfOk result (λ r. r ≡ plain_request request.now) }
{
    Ok(match request {
        LineRequest::BeginDialogue { .. } => Request::Reject,
        LineRequest::Accept { units } => Request::Accept { units: *units },
        LineRequest::Reject => Request::Reject,
        LineRequest::EndDialogue { peer } => Request::EndDialogue { peer: *peer },
        LineRequest::UserData { peer, octets } => Request::UserData {
            peer: *peer,
            octets: Octets::from_slice(alloc, octets.as_slice())?,
        },
        LineRequest::UError { peer } => Request::UError { peer: *peer },
        LineRequest::UAbort { peer } => Request::UAbort { peer: *peer },
        LineRequest::Grant { peer } => Request::Grant { peer: *peer },
        LineRequest::AskControl { peer } => Request::AskControl { peer: *peer },
        LineRequest::Handshake { peer } => Request::Handshake { peer: *peer },
        LineRequest::Respond { peer } => Request::Respond { peer: *peer },
        LineRequest::HandshakeGrant { peer } => Request::HandshakeGrant { peer: *peer },
        LineRequest::BeginTransaction { peer } => Request::BeginTransaction { peer: *peer },
        LineRequest::DeferEnd { peer } => Request::DeferEnd { peer: *peer },
        LineRequest::DeferGrant { peer } => Request::DeferGrant { peer: *peer },
        LineRequest::Prepare { peer } => Request::Prepare { peer: *peer },
        LineRequest::Commit => Request::Commit,
        LineRequest::Done => Request::Done,
        LineRequest::Rollback => Request::Rollback,
        LineRequest::Unchanged => Request::Unchanged,
    })
}

/// The request of a line; the peer of a new dialogue has the address of its number.
#[inline(always)]
pub fn request_in(
    alloc: Global,
    nodes: &Nodes,
    request: &LineRequest,
) -> Result<Option<Request>, NoMemory>
    ensures { IfOk result (λ r. r ≡ request_in nodes.now request.now) }
{
    match request {
        LineRequest::BeginDialogue { peer, units } => match nodes.addr(*peer) {
            None => Ok(None),
            Some(addr) => Ok(Some(Request::BeginDialogue {
                addr,
                units: *units,
            })),
        },
        _ => Ok(Some(plain_request(alloc, request)?)),
    }
}
