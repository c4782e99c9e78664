//! Whether the waits are long enough.

ghost use Rattle.std.specs.Prelude.{◌≡◌, ℕ, ◌*◌, ◌^◌, ◌<◌, ◌≤◌, length, MatchOption, OnOk, IfErr};
ghost use Rattle.definitions.specs.declared.limits.TheConstants.{WAIT_LIMIT};
ghost use Rattle.certificate.specs.Judged.{IsWaitedAt, IsWaitShort, IsWaited, IsFirstWaitShort};

use crate::claim::Claim;
use crate::refused::Refused;

impl Claim {
    /// Whether each boarding arc takes no more than the wait at its tail allows. A refusal is that
    /// of the first arc that takes more.
    pub fn judge_waits(&self) -> Result<(), Refused>
        ensures ok { OnOk result (IsWaited self.now) }
        ensures refused { IfErr result (IsFirstWaitShort self.now) }
    {
        for arc in 0..self.network.arcs() {
            if let Some(refused) = self.wait_refusal(arc) {
                return Err(refused);
            }
        }
        Ok(())
    }

    // The refusal at an arc.
    fn wait_refusal(&self, number: u32) -> Option<Refused>
        requires within { number < length self.now.arcs }
        ensures judged { MatchOption result (IsWaitedAt self.now number) (IsWaitShort self.now number) }
    {
        let arc = self.network.arc(number);
        let weight = arc.weight?;
        let left = self.network.k() as u128 * self.volumes[number as usize] as u128;
        let right = weighed(weight, self.waits[arc.tail as usize]);
        if left > right {
            return Some(Refused::WaitShort {
                arc: number,
                left,
                right,
            });
        }
        None
    }
}

// A weight times a wait.
fn weighed(weight: u32, wait: u128) -> u128
    requires { wait ≤ WAIT_LIMIT }
    ensures value { result ≡ weight * wait }
{
    weight as u128 * wait
}
