//! The lines of an audit.
ghost use Rattle.std.specs.Prelude.{◌≡◌, ◌++◌, ◌∷◌, [], OnOk};
ghost use Rattle.tp_text_builder.specs.Written.{Adds};
ghost use Rattle.tp_model.specs.Words.{words};
ghost use Rattle.tp_audit_tool.specs.AuditTranscript.{verdict_words, state_word, fate_text, fate_texts, findings_of};

use std::alloc::Global;
use tp_audit::{Fate, FateState, Verdict};
use tp_names::{NoMemory, Octets};
use tp_text_builder::Text;
use tp_transcript::put_key;

/// How many findings there are.
pub(crate) fn findings_of(verdict: &Verdict) -> u64
    ensures { result ≡ findings_of verdict.now }
{
    match verdict {
        Verdict::Yes => 0,
        Verdict::Differ { .. } => 1,
    }
}

/// Puts the line of the verdict at the end of `out`.
pub(crate) fn write_verdict(
    alloc: Global,
    verdict: &Verdict,
    out: &mut Octets,
) -> Result<(), NoMemory>
    ensures { OnOk result (out.new ≡ out.old ++ (words (verdict_words verdict.now) ++ 10 ∷ [])) }
{
    let mut text = Text::after(alloc, out);
    put_verdict(verdict, &mut text);
    text.byte(b'\n');
    text.done(out)
}

fn put_verdict(verdict: &Verdict, text: &mut Text)
    ensures { Adds text.old (words (verdict_words verdict.now)) text.new }
{
    match verdict {
        Verdict::Yes => text.word("yes"),
        Verdict::Differ {
            aaid,
            first,
            second,
        } => {
            text.word("differ ");
            text.aaid(aaid);
            text.space();
            text.site(&first.site);
            text.next_short(first.node);
            text.space();
            text.site(&second.site);
            text.next_short(second.node);
        }
    }
}

fn word_of(state: FateState) -> &'static str
    ensures { result.now ≡ state_word state }
{
    match state {
        FateState::Commit => "commit",
        FateState::RetryLater => "retry-later",
        FateState::Unknown => "unknown",
        FateState::Absent => "absent",
    }
}

// The line of one fate.
fn write_fate(alloc: Global, fate: &Fate, out: &mut Octets) -> Result<(), NoMemory>
    ensures { OnOk result (out.new ≡ out.old ++ fate_text fate.now) }
{
    let mut text = Text::after(alloc, out);
    text.word("fate ");
    text.site(&fate.node.site);
    text.next_short(fate.node.node);
    text.space();
    put_key(&fate.key, &mut text);
    text.space();
    text.word(word_of(fate.state));
    text.byte(b'\n');
    text.done(out)
}

/// Puts a line for each fate at the end of `out`.
pub(crate) fn write_fates(alloc: Global, fates: &[Fate], out: &mut Octets) -> Result<(), NoMemory>
    ensures { OnOk result (out.new ≡ out.old ++ fate_texts fates.now) }
{
    for fate in fates {
        write_fate(alloc, fate, out)?;
    }
    Ok(())
}
