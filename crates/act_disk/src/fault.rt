ghost use Rattle.std.specs.Prelude.{◌≡◌, ◌<◌, is_ok, is_err};
ghost use Rattle.definitions.specs.Disk.{CountsFault};

use thiserror::Error;
use wf_value::{Code, Refusal};

/// A disk call failed. The disk's fault count is one higher.
#[derive(Clone, Copy, Debug, Error)]
#[error("the disk failed")]
pub struct DiskFault;

/// Refusal 51: the device failed in this call.
impl From<DiskFault> for Refusal {
    ghost use Rattle.std.specs.Prelude.{◌≡◌};
    ghost use Rattle.act_disk.specs.Failed.{device_failed};

    ghost from_gives = { λ _ e. e ≡ device_failed };

    fn from(_fault: DiskFault) -> Refusal {
        Refusal::Numbered(Code::DeviceFailed)
    }
}

/// Counts a failed call.
pub(crate) fn counted<T: Drop, E: Drop>(
    outcome: Result<T, E>,
    faults: &mut u64,
) -> Result<(), DiskFault>
    requires { faults.old < u64.MAX }
    ensures faults { CountsFault result faults.old faults.new }
    ensures same { is_ok result ≡ is_ok outcome }
    ensures fails { is_err result ≡ is_err outcome }
{
    if outcome.is_err() {
        *faults += 1;
        return Err(DiskFault);
    }
    Ok(())
}
