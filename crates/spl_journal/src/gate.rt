//! Bytes after a closed gate, which is then opened.
ghost use Rattle.std.specs.{Prelude.{◌≡◌, ◌<◌, ◌≤◌, ◌+◌, ◌^◌, ℕ, length, OnOk, IfSome, IsOk, IsErrOf}, Option.option_map};
ghost use Rattle.spl_edge.specs.Devices.{Rose, image_now, Onward};
ghost use Rattle.spl_journal.specs.Gate.{IsReady, LeavesSince, IsAfterGate, ByCalls, opened};

use spl_edge::{DeviceError, Disk};

/// Writes after a closed gate and then opens it, by four calls.
pub(crate) fn open_gate<D: Disk>(disk: &mut D, gate: u64, piece: &[u8]) -> Result<(), DeviceError>
    requires ready { IfSome (image_now (D.view disk.old)) (IsReady gate) }
    requires small { gate + 1 < 2 ^ 64 }

    ensures opened { OnOk result (image_now (D.view disk.new)
        ≡ option_map (opened gate piece.now 4) (image_now (D.view disk.old))) }
    ensures four { OnOk result ((D.view disk.new).moment ≡ (D.view disk.old).moment + 4) }
    ensures bound { OnOk result (gate + 1 + length piece.now < 2 ^ 63) }

    // Until the end a stop leaves the gate closed as it was, or the whole piece after it.
    ensures any_moment { IfSome (image_now (D.view disk.old)) (λ i.
        LeavesSince (D.view disk.old) (D.view disk.new) (IsAfterGate gate piece.now i.bytes)) }
    ensures by_calls { ByCalls 4 (D.view disk.old) (D.view disk.new) (opened gate piece.now) (IsOk result) (IsErrOf result DeviceError.Failed) }
    ensures onward { Onward (D.view disk.old) (D.view disk.new) }
    ensures failed { IsErrOf result DeviceError.Failed → Rose (D.view disk.old).faults (D.view disk.new).faults }
{
    if let Err(fault) = disk.write_at(gate + 1, piece) {
        return Err(fault);
    }
    if let Err(fault) = disk.sync() {
        return Err(fault);
    }
    if let Err(fault) = disk.write_at(gate, &[1]) {
        return Err(fault);
    }
    if let Err(fault) = disk.sync() {
        return Err(fault);
    }
    Ok(())
}
