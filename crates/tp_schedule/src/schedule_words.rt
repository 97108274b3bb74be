//! The first words of lines and of requests, each once.
ghost use Rattle.std.specs.Prelude.{◌≡◌, codes};
ghost use Rattle.tp_schedule.specs.Keywords.{named, line_word_text, action_word_text, request_word_text, line_word_list, action_word_list, request_word_list};

use crate::keyword::find;

/// What a line begins with.
#[derive(Clone, Copy)]
pub(crate) enum LineWord {
    Node,
    Do,
    Pass,
    Skip,
    Again,
    Drain,
    Lose,
    Heur,
    GiveUp,
    Retry,
    Purge,
    Crash,
    Show,
    Image,
    Auto,
    Leave,
}

/// What a line begins with that may stand after `in`.
#[derive(Clone, Copy)]
pub(crate) enum ActionWord {
    Do,
    Pass,
    Again,
    Lose,
    Heur,
    GiveUp,
    Retry,
    Purge,
}

/// What a request begins with.
#[derive(Clone, Copy)]
pub(crate) enum RequestWord {
    BeginDialogue,
    Accept,
    Reject,
    UserData,
    Commit,
    Done,
    Rollback,
    Unchanged,
    /// One that names a peer, and no more.
    OfPeer(PeerRequest),
}

/// What a request begins with that names a peer, and no more.
#[derive(Clone, Copy)]
pub(crate) enum PeerRequest {
    EndDialogue,
    UError,
    UAbort,
    Grant,
    AskControl,
    Handshake,
    Respond,
    HandshakeGrant,
    BeginTransaction,
    DeferEnd,
    DeferGrant,
    Prepare,
}

const LINE_WORDS: [(&str, LineWord); 16] = [
    ("node", LineWord::Node),
    ("do", LineWord::Do),
    ("pass", LineWord::Pass),
    ("skip", LineWord::Skip),
    ("again", LineWord::Again),
    ("drain", LineWord::Drain),
    ("lose", LineWord::Lose),
    ("heur", LineWord::Heur),
    ("giveup", LineWord::GiveUp),
    ("retry", LineWord::Retry),
    ("purge", LineWord::Purge),
    ("crash", LineWord::Crash),
    ("show", LineWord::Show),
    ("image", LineWord::Image),
    ("auto", LineWord::Auto),
    ("leave", LineWord::Leave),
];

const ACTION_WORDS: [(&str, ActionWord); 8] = [
    ("do", ActionWord::Do),
    ("pass", ActionWord::Pass),
    ("again", ActionWord::Again),
    ("lose", ActionWord::Lose),
    ("heur", ActionWord::Heur),
    ("giveup", ActionWord::GiveUp),
    ("retry", ActionWord::Retry),
    ("purge", ActionWord::Purge),
];

// The requests in two tables, which are short enough to be searched without a loop.
const FIRST_REQUESTS: [(&str, RequestWord); 9] = [
    ("begin-dialogue", RequestWord::BeginDialogue),
    ("accept", RequestWord::Accept),
    ("reject", RequestWord::Reject),
    (
        "end-dialogue",
        RequestWord::OfPeer(PeerRequest::EndDialogue),
    ),
    ("data", RequestWord::UserData),
    ("u-error", RequestWord::OfPeer(PeerRequest::UError)),
    ("u-abort", RequestWord::OfPeer(PeerRequest::UAbort)),
    ("grant-control", RequestWord::OfPeer(PeerRequest::Grant)),
    (
        "request-control",
        RequestWord::OfPeer(PeerRequest::AskControl),
    ),
];

const OTHER_REQUESTS: [(&str, RequestWord); 11] = [
    ("handshake", RequestWord::OfPeer(PeerRequest::Handshake)),
    ("respond", RequestWord::OfPeer(PeerRequest::Respond)),
    (
        "handshake-and-grant",
        RequestWord::OfPeer(PeerRequest::HandshakeGrant),
    ),
    (
        "begin-transaction",
        RequestWord::OfPeer(PeerRequest::BeginTransaction),
    ),
    ("deferred-end", RequestWord::OfPeer(PeerRequest::DeferEnd)),
    (
        "deferred-grant",
        RequestWord::OfPeer(PeerRequest::DeferGrant),
    ),
    ("prepare", RequestWord::OfPeer(PeerRequest::Prepare)),
    ("commit", RequestWord::Commit),
    ("done", RequestWord::Done),
    ("rollback", RequestWord::Rollback),
    ("unchanged", RequestWord::Unchanged),
];

/// The line that the word begins.
pub(crate) fn line_word(word: &[u8]) -> Option<LineWord>
    ensures { result ≡ named line_word_text line_word_list word.now }
{
    find(&LINE_WORDS, word)
}

/// The line after `in` that the word begins.
pub(crate) fn action_word(word: &[u8]) -> Option<ActionWord>
    ensures { result ≡ named action_word_text action_word_list word.now }
{
    find(&ACTION_WORDS, word)
}

/// The request that the word begins.
pub(crate) fn request_word(word: &[u8]) -> Option<RequestWord>
    ensures { result ≡ named request_word_text request_word_list word.now }
{
    if let Some(request) = find(&FIRST_REQUESTS, word) {
        return Some(request);
    }
    find(&OTHER_REQUESTS, word)
}
