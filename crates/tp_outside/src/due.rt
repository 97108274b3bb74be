//! Which calls of an implementation in memory are to fail.
ghost use Rattle.std.specs.Prelude.{IsTrue, ◌↔◌, Contains};

/// Is a call with this number listed to fail?
pub(crate) fn is_due(fails: &[u8], number: u64) -> bool
    ensures { IsTrue result ↔ Contains fails.now number }
{
    fails.iter().any(|due| u64::from(*due) == number)
}
