//! The first words of transcript lines, of records and of indications, each once.
ghost use Rattle.std.specs.Prelude.{◌≡◌};
ghost use Rattle.tp_schedule.specs.Keywords.{named};
ghost use Rattle.tp_transcript.specs.OutKinds.{log_kind_text, log_kind_list, dialogue_kind_text, dialogue_kind_list, state_kind_text, state_kind_list, sent_kind_text, sent_kind_list, told_kind_text, told_kind_list, tree_kind_text, tree_kind_list, out_kind_text, out_kind_list};

use tp_schedule::keyword::find;

/// What a record of a log begins with.
#[derive(Clone, Copy)]
pub(crate) enum LogKind {
    Boot,
    Ready,
    Heuristic,
    Commit,
    Damage,
    End,
}

/// What a record of a dialogue begins with.
#[derive(Clone, Copy)]
pub(crate) enum DialogueKind {
    EndDialogue,
    UserData,
    UError,
    UAbort,
    Grant,
    AskControl,
    Handshake,
    HandshakeGrant,
    Response,
    DeferEnd,
    DeferGrant,
    Begin,
    Prepare,
    Ready,
    Commit,
    Done,
    Rollback,
    RolledBack,
    Left,
    LeftEnd,
}

/// What the answer to a question after a loss begins with.
#[derive(Clone, Copy)]
pub(crate) enum StateKind {
    Commit,
    Done,
    Unknown,
    RetryLater,
}

/// What a record that is sent begins with.
#[derive(Clone, Copy)]
pub(crate) enum SentKind {
    OpenAssoc,
    AcceptAssoc,
    ShutAssoc,
    OnAssoc,
    RecReady,
    RecCommit,
    RecReply,
    Forget,
}

/// What an indication begins with.
#[derive(Clone, Copy)]
pub(crate) enum ToldKind {
    BeginDialogue,
    BegunDialogue,
    UserData,
    BeginTransaction,
    Prepare,
    Commit,
    CommitComplete,
    Rollback,
    RollbackComplete,
    HeuristicReport,
    /// One that names a peer, and no more.
    OfPeer(PeerTold),
}

/// What an indication begins with that names a peer, and no more.
#[derive(Clone, Copy)]
pub(crate) enum PeerTold {
    Rejected,
    EndDialogue,
    UError,
    UAbort,
    PAbort,
    Grant,
    AskControl,
    Handshake,
    HandshakeConfirm,
    HandshakeGrant,
    DeferEnd,
    DeferGrant,
    Ready,
    Left,
}

/// What stands after the identifier of a tree.
#[derive(Clone, Copy)]
pub(crate) enum TreeKind {
    Agreed,
    Mixed,
    Open,
}

/// What a line of a transcript begins with, where it is no echo.
#[derive(Clone, Copy)]
pub(crate) enum OutKind {
    Log,
    Take,
    Send,
    Tell,
    Refused,
    Dropped,
    Nothing,
    Lost,
    Stopped,
    State,
    Image,
    Tree,
}

const LOG_KINDS: [(&str, LogKind); 6] = [
    ("boot", LogKind::Boot),
    ("ready", LogKind::Ready),
    ("heuristic", LogKind::Heuristic),
    ("commit", LogKind::Commit),
    ("damage", LogKind::Damage),
    ("end", LogKind::End),
];

const DIALOGUE_KINDS: [(&str, DialogueKind); 20] = [
    ("end-dialogue", DialogueKind::EndDialogue),
    ("user", DialogueKind::UserData),
    ("u-error", DialogueKind::UError),
    ("u-abort", DialogueKind::UAbort),
    ("grant", DialogueKind::Grant),
    ("request-control", DialogueKind::AskControl),
    ("handshake", DialogueKind::Handshake),
    ("handshake-grant", DialogueKind::HandshakeGrant),
    ("response", DialogueKind::Response),
    ("deferred-end", DialogueKind::DeferEnd),
    ("deferred-grant", DialogueKind::DeferGrant),
    ("begin", DialogueKind::Begin),
    ("prepare", DialogueKind::Prepare),
    ("ready", DialogueKind::Ready),
    ("commit", DialogueKind::Commit),
    ("done", DialogueKind::Done),
    ("rollback", DialogueKind::Rollback),
    ("rolled-back", DialogueKind::RolledBack),
    ("left", DialogueKind::Left),
    ("left-end", DialogueKind::LeftEnd),
];

const STATE_KINDS: [(&str, StateKind); 4] = [
    ("commit", StateKind::Commit),
    ("done", StateKind::Done),
    ("unknown", StateKind::Unknown),
    ("retry-later", StateKind::RetryLater),
];

const SENT_KINDS: [(&str, SentKind); 8] = [
    ("open", SentKind::OpenAssoc),
    ("accept", SentKind::AcceptAssoc),
    ("shut", SentKind::ShutAssoc),
    ("data", SentKind::OnAssoc),
    ("rec-ready", SentKind::RecReady),
    ("rec-commit", SentKind::RecCommit),
    ("rec-reply", SentKind::RecReply),
    ("forget", SentKind::Forget),
];

const TOLD_KINDS: [(&str, ToldKind); 24] = [
    ("begin-dialogue", ToldKind::BeginDialogue),
    ("begun-dialogue", ToldKind::BegunDialogue),
    ("rejected", ToldKind::OfPeer(PeerTold::Rejected)),
    ("end-dialogue", ToldKind::OfPeer(PeerTold::EndDialogue)),
    ("data", ToldKind::UserData),
    ("u-error", ToldKind::OfPeer(PeerTold::UError)),
    ("u-abort", ToldKind::OfPeer(PeerTold::UAbort)),
    ("p-abort", ToldKind::OfPeer(PeerTold::PAbort)),
    ("grant-control", ToldKind::OfPeer(PeerTold::Grant)),
    ("request-control", ToldKind::OfPeer(PeerTold::AskControl)),
    ("handshake", ToldKind::OfPeer(PeerTold::Handshake)),
    (
        "handshake-confirm",
        ToldKind::OfPeer(PeerTold::HandshakeConfirm),
    ),
    (
        "handshake-and-grant",
        ToldKind::OfPeer(PeerTold::HandshakeGrant),
    ),
    ("begin-transaction", ToldKind::BeginTransaction),
    ("deferred-end", ToldKind::OfPeer(PeerTold::DeferEnd)),
    ("deferred-grant", ToldKind::OfPeer(PeerTold::DeferGrant)),
    ("prepare", ToldKind::Prepare),
    ("ready", ToldKind::OfPeer(PeerTold::Ready)),
    ("commit", ToldKind::Commit),
    ("commit-complete", ToldKind::CommitComplete),
    ("rollback", ToldKind::Rollback),
    ("rollback-complete", ToldKind::RollbackComplete),
    ("heuristic-report", ToldKind::HeuristicReport),
    ("left", ToldKind::OfPeer(PeerTold::Left)),
];

const TREE_KINDS: [(&str, TreeKind); 3] = [
    ("agreed", TreeKind::Agreed),
    ("mixed", TreeKind::Mixed),
    ("open", TreeKind::Open),
];

const OUT_KINDS: [(&str, OutKind); 12] = [
    ("log", OutKind::Log),
    ("take", OutKind::Take),
    ("send", OutKind::Send),
    ("tell", OutKind::Tell),
    ("refused", OutKind::Refused),
    ("dropped", OutKind::Dropped),
    ("nothing", OutKind::Nothing),
    ("lost", OutKind::Lost),
    ("stopped", OutKind::Stopped),
    ("state", OutKind::State),
    ("image", OutKind::Image),
    ("tree", OutKind::Tree),
];

/// The record of a log that the word begins.
pub(crate) fn log_kind(word: &[u8]) -> Option<LogKind>
    ensures { result ≡ named log_kind_text log_kind_list word.now }
{
    find(&LOG_KINDS, word)
}

/// The record of a dialogue that the word begins.
pub(crate) fn dialogue_kind(word: &[u8]) -> Option<DialogueKind>
    ensures { result ≡ named dialogue_kind_text dialogue_kind_list word.now }
{
    find(&DIALOGUE_KINDS, word)
}

/// The answer to a question that the word begins.
pub(crate) fn state_kind(word: &[u8]) -> Option<StateKind>
    ensures { result ≡ named state_kind_text state_kind_list word.now }
{
    find(&STATE_KINDS, word)
}

/// The record that is sent that the word begins.
pub(crate) fn sent_kind(word: &[u8]) -> Option<SentKind>
    ensures { result ≡ named sent_kind_text sent_kind_list word.now }
{
    find(&SENT_KINDS, word)
}

/// The indication that the word begins.
pub(crate) fn told_kind(word: &[u8]) -> Option<ToldKind>
    ensures { result ≡ named told_kind_text told_kind_list word.now }
{
    find(&TOLD_KINDS, word)
}

/// What is said of a tree with the word.
pub(crate) fn tree_kind(word: &[u8]) -> Option<TreeKind>
    ensures { result ≡ named tree_kind_text tree_kind_list word.now }
{
    find(&TREE_KINDS, word)
}

/// The line that the word begins.
pub(crate) fn out_kind(word: &[u8]) -> Option<OutKind>
    ensures { result ≡ named out_kind_text out_kind_list word.now }
{
    find(&OUT_KINDS, word)
}
