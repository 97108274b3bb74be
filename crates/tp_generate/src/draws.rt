//! Numbers drawn one after the other, all from the first.
ghost use Rattle.std.specs.Prelude.{◌≡◌};
ghost use Rattle.tp_model.specs.Generator.{next_state, drawn};

/// The state after the next draw.
pub fn next_state(state: u64) -> u64
    ensures { result ≡ next_state state }
{
    state
        .wrapping_mul(6_364_136_223_846_793_005)
        .wrapping_add(1_442_695_040_888_963_407)
}

/// The number that a state gives: its highest 31 bits.
pub fn drawn(state: u64) -> u64
    ensures { result ≡ drawn state }
{
    state / 8_589_934_592
}
