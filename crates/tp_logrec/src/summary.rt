//! The brief of a list of records. A record costs the same, whatever stands.
ghost use Rattle.std.specs.Prelude.{◌≡◌, ◌++◌, true, None, IfOk, OnOk};
ghost use Rattle.std.specs.Option.{option_copied};
ghost use Rattle.tp_logrec.specs.declared.owner.Owner.{Owner as TheOwner};
ghost use Rattle.tp_logrec.specs.Order.{all_follow, boots, brief, brief_life, brief_lives, greatest, last, those, is_damage};
ghost use Rattle.tp_logrec.specs.OrderCheck.{greatest_after};
ghost use Rattle.tp_logrec.specs.Lives.{begun, begun_from, lives_begun};
ghost use Rattle.tp_logrec.specs.Kinds.{is_kind};

use crate::LogRec;
use crate::lives::Lives;
use crate::order_check::greater;
use std::alloc::Global;
use tp_names::NoMemory;

// Promise 2.15, part 2
/// The brief of records that follow each other, oldest first: the greatest Boot, and then, for
/// each key that is not at its end, in the order of the first records since its last End, its
/// Ready, its Heuristic, its Commit and its last Damage. The brief of no records is no records.
#[tactic(auto, using(crate::proofs::BegunLives::brief_of_lives))]
pub fn brief(alloc: Global, list: &[LogRec]) -> Result<Vec<LogRec>, NoMemory>
    requires { all_follow list.now ≡ true }
    ensures { IfOk result (λ short. short.items ≡ brief list.now) }
{
    let lives = lives_of(alloc, list)?;
    let mut short = Vec::new(alloc);
    if let Some(boot) = greatest_boot(list) {
        short.push(LogRec::Boot { boot })?;
    }
    add_lives(alloc, &mut short, &lives, list)?;
    Ok(short)
}

// Puts what stands of each life at the end, where its first record stands in the list.
#[tactic(auto, using(crate::proofs::BegunLives::brief_joined))]
fn add_lives(
    alloc: Global,
    short: &mut Vec<LogRec>,
    lives: &Lives,
    list: &[LogRec],
) -> Result<(), NoMemory>
    ensures { OnOk result (short.new.items ≡ short.old.items ++ brief_lives (lives_begun (begun lives.now) 0 list.now)) }
{
    for i in 0..list.len() {
        lives.add(alloc, i, &list[i], short)?;
    }
    Ok(())
}

// What is kept of each key of the list.
fn lives_of(alloc: Global, list: &[LogRec]) -> Result<Lives, NoMemory>
    ensures { IfOk result (λ lives. (o : TheOwner) → begun lives o ≡ begun_from 0 None o list.now) }
{
    let mut lives = Lives::new(alloc);
    for i in 0..list.len() {
        lives.take(alloc, i, &list[i])?;
    }
    Ok(lives)
}

fn greatest_boot(list: &[LogRec]) -> Option<u64>
    ensures { result ≡ greatest (boots list.now) }
{
    let mut greatest: Option<u64> = None;
    for rec in list {
        greatest = boot_after(greatest, rec);
    }
    greatest
}

// With one record more.
fn boot_after(greatest: Option<u64>, rec: &LogRec) -> Option<u64>
    ensures { result ≡ greatest_after greatest rec.now }
{
    match rec {
        LogRec::Boot { boot } => Some(greater(greatest, *boot)),
        _ => greatest,
    }
}

/// Puts what stands of a key's records at the end.
pub(crate) fn add_life(
    alloc: Global,
    short: &mut Vec<LogRec>,
    records: &[LogRec],
) -> Result<(), NoMemory>
    ensures { OnOk result (short.new.items ≡ short.old.items ++ brief_life records.now) }
{
    add_kind(alloc, short, Kind::Ready, records)?;
    add_kind(alloc, short, Kind::Heuristic, records)?;
    add_kind(alloc, short, Kind::Commit, records)?;
    match last_damage(records) {
        None => Ok(()),
        Some(rec) => Ok(short.push(rec.copy(alloc)?)?),
    }
}

/// The records of which a life has one.
#[derive(Clone, Copy)]
enum Kind {
    Ready,
    Heuristic,
    Commit,
}

fn is_kind(kind: Kind, rec: &LogRec) -> bool
    ensures { result ≡ is_kind kind rec.now }
{
    match kind {
        Kind::Ready => rec.is_ready(),
        Kind::Heuristic => rec.is_heuristic(),
        Kind::Commit => rec.is_commit(),
    }
}

// Puts copies of the records of that kind at the end.
fn add_kind(
    alloc: Global,
    short: &mut Vec<LogRec>,
    kind: Kind,
    records: &[LogRec],
) -> Result<(), NoMemory>
    ensures { OnOk result (short.new.items ≡ short.old.items ++ those (is_kind kind) records.now) }
{
    for rec in records {
        if !is_kind(kind, rec) {
            continue;
        }
        short.push(rec.copy(alloc)?)?;
    }
    Ok(())
}

fn last_damage(records: &[LogRec]) -> Option<&LogRec>
    ensures { option_copied result ≡ last (those is_damage records.now) }
{
    let mut damage = None;
    for rec in records {
        if rec.is_damage() {
            damage = Some(rec);
        }
    }
    damage
}
