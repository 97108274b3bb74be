//! What can be typed.

/// What can be typed: each command that is built, and the options with their ranges and defaults.
pub const USAGE: &str = "\
usage: tpnode COMMAND [--name NAME] [--number N] [--nodes K] [--rounds R]

  replay    reads a schedule, writes its transcript
  node      reads events of the site NAME in frames, writes its outputs in frames
  tx        reads calls of a root's program, writes stand and code after each answer
  format    makes the log a fresh one of version 2
  show      writes each record of the log
  check     writes each damage that stands in the log
  make      writes the schedule of number N, K nodes and R rounds
  trial     replays that schedule, writes what it came to
  compact   makes the log as short as it can be
  migrate   makes the log as short as it can be, in version 2
  keys      writes each key of the store, with its value
  audit     reads the logs of several sites, writes whether they agree

  --name NAME   1 to 16 of a to z and 0 to 9; a where it is left out
  --number N    0 to 18446744073709551615; 1 where it is left out
  --nodes K     2 to 256; 2 where it is left out
  --rounds R    1 to 30; 1 where it is left out

The log is the file tp.log in the current folder, and the store is bound.log.
";

/// The same of `tpdrive`.
pub const DRIVE_USAGE: &str = "\
usage: tpdrive [--name NAME] [--workers W]

  reads events of the site NAME in frames, has W workers do them, writes its outputs in frames

  --name NAME    1 to 16 of a to z and 0 to 9; a where it is left out
  --workers W    1 to 16; 1 where it is left out

The log is the file tp.log in the current folder.
";
