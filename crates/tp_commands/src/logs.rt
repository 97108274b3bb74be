//! The commands over the log on a disk.
ghost use Rattle.std.specs.Prelude.{◌≡◌, ℕ};
ghost use Rattle.tp_words.specs.declared.command.Command.{Command};
ghost use Rattle.tp_replay.specs.Status.{Ends};
ghost use Rattle.tp_commands.specs.Commands.{exits};
ghost use Rattle.tp_commands.specs.Logs.{Formats, ShowsLog, ChecksLog, CompactsLog, MigratesLog};

use std::alloc::Global;
use tp_journal::format;
use tp_log_tools::{check, compact, migrate, show};
use tp_outside::{Disk, Failed, Sink};
use tp_replay::Status;

/// Makes the disk hold a log of version 2 with no records.
pub fn format_log<D: Disk>(disk: &mut D) -> Status
    ensures ends { (read_old read_new write_old write_new : ℕ)
        → Ends (exits Command.Format) read_old read_new write_old write_new (D.fault_count disk.old) (D.fault_count disk.new) result }
    ensures formats { Formats result (D.told disk.old) (D.told disk.new) }
{
    match format(disk) {
        Ok(()) => Status::Ok,
        Err(Failed) => Status::DiskFault {
            faults: disk.faults(),
        },
    }
}

/// Writes each record of the log that the disk holds, with its place, and hands the disk back.
pub fn show_log<D: Disk, K: Sink>(alloc: Global, disk: D, sink: &mut K) -> (Status, D)
    ensures ends { (read_old read_new : ℕ)
        → Ends (exits Command.Show) read_old read_new (K.fault_count sink.old) (K.fault_count sink.new) (D.fault_count disk) (D.fault_count result.1) result.0 }
    ensures shows { ShowsLog result.0 (D.told disk) (D.told result.1) (K.written sink.old) (K.written sink.new) (sink.new ≡ sink.old) }
{
    let (disk, shown) = show(alloc, disk, sink);
    (Status::of_answer(shown), disk)
}

/// Writes each Damage that is its key's last record in the log that the disk holds, and hands the disk back.
pub fn check_log<D: Disk, K: Sink>(alloc: Global, disk: D, sink: &mut K) -> (Status, D)
    ensures ends { (read_old read_new : ℕ)
        → Ends (exits Command.Check) read_old read_new (K.fault_count sink.old) (K.fault_count sink.new) (D.fault_count disk)
        (D.fault_count result.1) result.0 }
    ensures checks { ChecksLog result.0 (D.told disk) (D.told result.1) (K.written sink.old) (K.written sink.new) (sink.new ≡ sink.old) }
{
    let (disk, checked) = check(alloc, disk, sink);
    (Status::of_findings(checked), disk)
}

/// Puts the brief of the disk's log in its place, in the version that it has, and hands the disk back.
pub fn compact_log<D: Disk>(alloc: Global, disk: D) -> (Status, D)
    ensures ends { (read_old read_new write_old write_new : ℕ)
        → Ends (exits Command.Compact) read_old read_new write_old write_new (D.fault_count disk) (D.fault_count result.1) result.0 }
    ensures compacts { CompactsLog result.0 (D.told disk) (D.told result.1) }
{
    let (disk, compacted) = compact(alloc, disk);
    (Status::of_answer(compacted), disk)
}

/// Puts the brief of the disk's log in its place, in version 2, and hands the disk back.
pub fn migrate_log<D: Disk>(alloc: Global, disk: D) -> (Status, D)
    ensures ends { (read_old read_new write_old write_new : ℕ)
        → Ends (exits Command.Migrate) read_old read_new write_old write_new (D.fault_count disk) (D.fault_count result.1) result.0 }
    ensures migrates { MigratesLog result.0 (D.told disk) (D.told result.1) }
{
    let (disk, migrated) = migrate(alloc, disk);
    (Status::of_answer(migrated), disk)
}
