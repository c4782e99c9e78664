//! The numbers that are drawn.

ghost use Rattle.std.specs.Prelude.{◌≡◌, ℕ, ◌+◌, ◌<◌};
ghost use Rattle.desk.specs.Draws.{draw, state_after};

// Knuth's numbers for 64 bits.
const MULTIPLIER: u64 = 6_364_136_223_846_793_005;

const INCREMENT: u64 = 1_442_695_040_888_963_407;

// The low bits of a state repeat soon, so a draw is made of the others.
const LOW_BITS: u64 = 1 << 33;

/// The next number below the bound, where the state is that after the draws so far.
pub(super) fn draw(state: &mut u64, bound: u32) -> u32
    requires bound { 0 < bound }
    ensures value { (seed before : ℕ) → state.old ≡ state_after seed before
        → result ≡ draw seed before bound }
    ensures state { (seed before : ℕ) → state.old ≡ state_after seed before
        → state.new ≡ state_after seed (before + 1) }
    ensures below { result < bound }
{
    *state = state.wrapping_mul(MULTIPLIER).wrapping_add(INCREMENT);
    (*state / LOW_BITS % u64::from(bound)) as u32
}
