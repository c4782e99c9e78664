//! The wait constant of a window.

ghost use Rattle.std.specs.Prelude.{◌≡◌, ◌≤◌};
ghost use Rattle.definitions.specs.declared.limits.TheConstants.{K_LIMIT};
ghost use Rattle.lp_model.specs.WaitConstant.{wait_constant};

/// The greatest length of a window, in seconds.
pub const WINDOW_LIMIT: u32 = 172_800;

/// The greatest part of a headway that passengers wait, in percent.
pub const WAIT_PERCENT_LIMIT: u32 = 200;

/// The wait constant `K` of a window: at combined weight `F` passengers wait `K / F` ticks.
///
/// `seconds` is the length of the window, and `percent` the part of a headway that passengers
/// wait: 50 for regular headways, 100 for exponential ones (Spiess and Florian 1989).
pub fn k_of(seconds: u32, percent: u32) -> u64
    requires window { seconds ≤ WINDOW_LIMIT }
    requires percent { percent ≤ WAIT_PERCENT_LIMIT }
    ensures value { result ≡ wait_constant seconds percent }
    ensures within { result ≤ K_LIMIT }
{
    10_000 * u64::from(percent) * u64::from(seconds)
}

#[cfg(test)]
mod tests {
    use crate::wait_constant::k_of;
    use definitions::K_LIMIT;

    // Half a headway over an hour, a whole one over two hours, and the longest window with the
    // longest waits.
    #[test]
    fn wait_constant_of_a_window(rt: HostRuntime) {
        assert_eq!(rt; k_of(3_600, 50), 1_800_000_000);
        assert_eq!(rt; k_of(7_200, 100), 7_200_000_000);
        assert_eq!(rt; k_of(172_800, 200), K_LIMIT);
    }
}
