//! Requests of members, as lines have them.
ghost use Rattle.std.specs.Prelude.{◌≡◌};
ghost use Rattle.tp_model.specs.Transcript.{line_request};

use tp_model::LineRequest;
use tp_records::Request;

/// The request as a line has it: an address is that of the peer's number.
pub(crate) fn line_request(request: Request) -> LineRequest
    ensures { result ≡ line_request request }
{
    match request {
        Request::BeginDialogue { addr, units } => LineRequest::BeginDialogue {
            peer: addr.node,
            units,
        },
        Request::Accept { units } => LineRequest::Accept { units },
        Request::Reject => LineRequest::Reject,
        Request::EndDialogue { peer } => LineRequest::EndDialogue { peer },
        Request::UserData { peer, octets } => LineRequest::UserData { peer, octets },
        Request::UError { peer } => LineRequest::UError { peer },
        Request::UAbort { peer } => LineRequest::UAbort { peer },
        Request::Grant { peer } => LineRequest::Grant { peer },
        Request::AskControl { peer } => LineRequest::AskControl { peer },
        Request::Handshake { peer } => LineRequest::Handshake { peer },
        Request::Respond { peer } => LineRequest::Respond { peer },
        Request::HandshakeGrant { peer } => LineRequest::HandshakeGrant { peer },
        Request::BeginTransaction { peer } => LineRequest::BeginTransaction { peer },
        Request::DeferEnd { peer } => LineRequest::DeferEnd { peer },
        Request::DeferGrant { peer } => LineRequest::DeferGrant { peer },
        Request::Prepare { peer } => LineRequest::Prepare { peer },
        Request::Commit => LineRequest::Commit,
        Request::Done => LineRequest::Done,
        Request::Rollback => LineRequest::Rollback,
        Request::Unchanged => LineRequest::Unchanged,
    }
}
