//! What no clause says: what becomes of real files, and that two never work on one.
use std::fs;
use tp_outside::{Disk, FileDisk};

// A changing call of a disk.
enum Change<'a> {
    Write(u64, &'a [u8]),
    Cut(u64),
    Sync,
}

fn is_made<D: Disk>(disk: &mut D, change: &Change) -> bool {
    match change {
        Change::Write(at, piece) => disk.write_at(*at, piece).is_ok(),
        Change::Cut(len) => disk.cut(*len).is_ok(),
        Change::Sync => disk.sync().is_ok(),
    }
}

fn length<D: Disk>(disk: &mut D) -> Option<u64> {
    disk.len().ok()
}

// How many bytes a disk gives from that place on; none where it fails.
fn read_at<D: Disk>(disk: &mut D, at: u64, buf: &mut [u8]) -> Option<usize> {
    disk.read(at, buf).ok()
}

const OF_A_FILE: &[Change] = &[
    Change::Cut(0),
    Change::Write(0, b"abcdef"),
    Change::Write(2, b"CD"),
    Change::Sync,
    Change::Cut(5),
];

#[test]
fn a_file_is_made_empty_and_keeps_what_is_written(rt: HostRuntime) {
    let mut disk = FileDisk::new(&rt, "tp_outside_test.log");
    for change in OF_A_FILE {
        assert!(rt; is_made(&mut disk, change));
    }
    drop(disk);
    let mut again = FileDisk::new(&rt, "tp_outside_test.log");
    assert!(rt; matches!(length(&mut again), Some(5)));
    let mut buf = [0u8; 8];
    assert!(rt; matches!(read_at(&mut again, 1, &mut buf), Some(4)));
    assert!(rt; buf == *b"bCDe\0\0\0\0");
    assert!(rt; again.faults() == 0);
}

// Whether a disk has these bytes and no others.
fn holds<D: Disk>(disk: &mut D, bytes: &[u8; 3]) -> bool {
    let mut buf = [0u8; 3];
    matches!(read_at(disk, 0, &mut buf), Some(3))
        && buf == *bytes
        && matches!(length(disk), Some(3))
}

#[test]
fn a_file_that_another_works_on_is_only_read(rt: HostRuntime) {
    const PATH: &str = "tp_locked_test.log";
    let mut disk = FileDisk::new(&rt, PATH);
    assert!(rt; is_made(&mut disk, &Change::Cut(0)));
    assert!(rt; is_made(&mut disk, &Change::Write(0, b"abc")));
    let mut second = FileDisk::to_change(&rt, PATH);
    assert!(rt; length(&mut second).is_none() && second.faults() == 1);
    assert!(rt; second.cause().is_some());
    let mut reader = FileDisk::to_read(&rt, PATH);
    assert!(rt; holds(&mut reader, b"abc"));
    assert!(rt; is_made(&mut reader, &Change::Write(1, b"B")));
    assert!(rt; is_made(&mut reader, &Change::Sync));
    assert!(rt; holds(&mut reader, b"aBc"));
    let mut unsure = FileDisk::to_change_perhaps(&rt, PATH);
    assert!(rt; holds(&mut unsure, b"abc"));
    assert!(rt; !is_made(&mut unsure, &Change::Cut(1)));
    assert!(rt; holds(&mut disk, b"abc") && disk.faults() == 0);
}

#[test]
fn a_missing_file_is_made_at_a_change_after_a_sync(rt: HostRuntime) {
    const PATH: &str = "tp_missing_test.log";
    let _removed = fs::remove_file(&rt, PATH);
    let mut disk = FileDisk::to_change(&rt, PATH);
    assert!(rt; matches!(length(&mut disk), Some(0)));
    assert!(rt; is_made(&mut disk, &Change::Write(0, b"ab")));
    assert!(rt; is_made(&mut disk, &Change::Sync));
    assert!(rt; fs::metadata(&rt, PATH).is_err());
    assert!(rt; is_made(&mut disk, &Change::Write(2, b"c")));
    assert!(rt; fs::metadata(&rt, PATH).is_ok());
    drop(disk);
    assert!(rt; holds(&mut FileDisk::to_read(&rt, PATH), b"abc"));
}

#[test]
fn a_file_in_no_folder_fails(rt: HostRuntime) {
    let mut absent = FileDisk::new(&rt, "no-such-folder/tp.log");
    assert!(rt; length(&mut absent).is_none());
    assert!(rt; !is_made(&mut absent, &Change::Sync));
    assert!(rt; absent.faults() == 2);
}
