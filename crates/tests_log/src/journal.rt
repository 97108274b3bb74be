//! What no clause says of logs: that a file keeps what is forced, with ample memory.
use std::alloc::Global;
use tp_journal::{ForceFault, Gates, Journal, Keeper, format};
use tp_logrec::LogRec;
use tp_names::Octets;
use tp_outside::{Disk, FileDisk, MemDisk};

fn started<D: Disk + Drop>(alloc: Global, disk: D) -> Option<Journal<D>> {
    Journal::start(alloc, disk).ok()
}

// Forces a Boot, which has a text in each version, and answers its place.
fn force_boot<D: Disk>(
    alloc: Global,
    journal: &mut Journal<D>,
    boot: u64,
) -> Result<u64, ForceFault> {
    let receipt = journal.force(alloc, &LogRec::Boot { boot })?;
    Ok(receipt.place)
}

// Whether so many boots are forced in turn, each at its place in a log of version 2, where a boot takes twelve bytes.
fn are_forced<D: Disk>(alloc: Global, journal: &mut Journal<D>, last: u32) -> bool {
    let mut wanted = 10u64;
    for boot in 1..=last {
        match force_boot(alloc, journal, u64::from(boot)) {
            Ok(place) if place == wanted => {}
            _ => return false,
        }
        wanted = wanted.saturating_add(12);
    }
    true
}

// Whether the records are so many boots in turn.
fn are_boots(list: &[LogRec], last: u64) -> bool {
    let mut boot = 0u64;
    for rec in list {
        boot = boot.saturating_add(1);
        if !matches!(rec, LogRec::Boot { boot: found } if *found == boot) {
            return false;
        }
    }
    boot == last
}

#[test]
fn a_thousand_records_are_read_again_from_a_file(rt: HostRuntime) {
    let mut disk = FileDisk::new(&rt, "tp_journal_test.log");
    assert!(rt; format(&mut disk).is_ok());
    let Some(mut journal) = started(rt.alloc(), disk) else {
        panic!(rt; "not started")
    };
    assert!(rt; journal.wide());
    assert!(rt; are_forced(rt.alloc(), &mut journal, 1000));
    assert!(rt; journal.disk().faults() == 0);
    let Some(again) = started(rt.alloc(), FileDisk::new(&rt, "tp_journal_test.log")) else {
        panic!(rt; "not started again")
    };
    assert!(rt; again.count() == 1000);
    assert!(rt; are_boots(again.list(), 1000));
    assert!(rt; again.shut().is_none());
}

// How many bodies a log has to which one of any bytes was appended.
fn appended(alloc: Global) -> Option<usize> {
    let mut disk = MemDisk::from(alloc, Octets::new(alloc));
    Gates::format(&mut disk).ok()?;
    let mut gates = Gates::start(alloc, disk).ok()?;
    gates.append(alloc, &[7, 2]).ok()?;
    Some(gates.count())
}

#[test]
fn gates_keep_any_bytes(rt: HostRuntime) {
    assert!(rt; appended(rt.alloc()) == Some(1));
}
