//! Disks, which a stop may leave with other bytes than a read gave.
ghost use Rattle.std.specs.Prelude.{◌≡◌, ◌<◌, ◌≤◌, ◌+◌, ◌-◌, ◌^◌, ℕ, List, length, take, drop, min, [], IfOk, IfSome, IsSome, OnOk, OnErr, Option};
ghost use Rattle.spl_edge.specs.Devices.{Image, MayLeave, after_write, after_cut, after_sync};

use crate::{DeviceError, Fill};
use std::alloc::{AllocError, Global};

/// Which calls fail: none; all after the first so many; or the one of this number, from 1 on.
#[derive(Clone, Copy, PartialEq, Eq)]
pub enum Arming {
    Off,
    After(u32),
    At(u32),
}

/// An arming, and the moment from which on it counts.
#[derive(Clone, Copy, PartialEq, Eq)]
pub struct Armed {
    pub arming: Arming,
    pub since: u64,
}

/// Bytes that are read and written at offsets. Until a sync succeeds, a stop may leave any bytes in what was written.
/// Its moment grows by one with each call, a failing one too.
pub trait Disk {
    ghost use Rattle.spl_edge.specs.Devices.{IsCall, SamePast, Changes, PartOfWrite, PartOfCut, fails_now, DiskView, image_now};

    /// What it reports of itself.
    ghost view: { Self → DiskView };

    /// How many bytes there are, at most 2^63 - 1.
    fn len(&mut self) -> Result<u64, DeviceError>
        ensures length { IfOk result (λ n. IfSome (image_now (view self.old)) (λ i. n ≡ length i.bytes)) }
        ensures bound { IfOk result (λ n. n < 2 ^ 63) }
        ensures same { image_now (view self.new) ≡ image_now (view self.old) }
        ensures past { SamePast (view self.old) (view self.new) }
        ensures call { IsCall (view self.old) (view self.new) result }
        ensures armed { (view self.new).armed ≡ (view self.old).armed }
        ensures picks { (view self.new).picks ≡ (view self.old).picks };

    /// Fills the buffer, or as much of it as there are bytes from there on.
    fn read(&mut self, at: u64, buf: &mut [u8]) -> Result<usize, DeviceError>
        ensures bound { IfOk result (λ n. n ≤ length buf.new) }
        ensures bytes { IfOk result (λ n. IfSome (image_now (view self.old)) (λ i.
            (n ≡ min (length buf.new) (length i.bytes - at)) × (take n buf.new ≡ take n (drop at i.bytes)))) }
        ensures same { image_now (view self.new) ≡ image_now (view self.old) }
        ensures past { SamePast (view self.old) (view self.new) }
        ensures call { IsCall (view self.old) (view self.new) result }
        ensures armed { (view self.new).armed ≡ (view self.old).armed }
        ensures picks { (view self.new).picks ≡ (view self.old).picks };

    /// Writes over what is there, and past the end. A call that fails may have written any bytes in its range.
    fn write_at(&mut self, at: u64, bytes: &[u8]) -> Result<(), DeviceError>
        requires { IfSome (image_now (view self.old)) (λ i. at ≤ length i.bytes) }
        ensures change { Changes (fails_now (view self.old)) result (after_write at bytes.now) (PartOfWrite at (length bytes.now))
            (image_now (view self.old)) (image_now (view self.new)) }
        ensures bound { OnOk result (at + length bytes.now < 2 ^ 63) }
        ensures past { SamePast (view self.old) (view self.new) }
        ensures call { IsCall (view self.old) (view self.new) result }
        ensures armed { (view self.new).armed ≡ (view self.old).armed }
        ensures picks { (view self.new).picks ≡ (view self.old).picks };

    /// Cuts it to a length. A call that fails may have cut.
    fn cut(&mut self, len: u64) -> Result<(), DeviceError>
        requires { IfSome (image_now (view self.old)) (λ i. len ≤ length i.bytes) }
        ensures change { Changes (fails_now (view self.old)) result (after_cut len) (PartOfCut len)
            (image_now (view self.old)) (image_now (view self.new)) }
        ensures past { SamePast (view self.old) (view self.new) }
        ensures call { IsCall (view self.old) (view self.new) result }
        ensures armed { (view self.new).armed ≡ (view self.old).armed }
        ensures picks { (view self.new).picks ≡ (view self.old).picks };

    /// Makes a stop leave what a read gives.
    fn sync(&mut self) -> Result<(), DeviceError>
        ensures change { Changes (fails_now (view self.old)) result after_sync (λ i j. ⊥)
            (image_now (view self.old)) (image_now (view self.new)) }
        ensures past { SamePast (view self.old) (view self.new) }
        ensures call { IsCall (view self.old) (view self.new) result }
        ensures armed { (view self.new).armed ≡ (view self.old).armed }
        ensures picks { (view self.new).picks ≡ (view self.old).picks };

    /// What a read gives now is one of the contents that a stop may leave.
    ghost possible: { (d : Self) → IfSome (image_now (view d)) (λ i. MayLeave i i.bytes) };
}

/// A disk that always reports, and that is made to stop. While it is armed exactly the calls that its arming names fail,
/// and such a call changes nothing of what it holds. Nothing but a pick disarms it.
pub trait StopDisk: Disk {
    ghost use Rattle.spl_edge.specs.{Devices.{SamePast, armed_with, Picks, image_now}, declared.disk.Arming.TheVariants.{Off, After, At}};

    /// Lets so many more calls pass, and none after them.
    fn stop_after(&mut self, calls: u32)
        ensures armed { (Self.view self.new).armed ≡ armed_with (After calls) (Self.view self.old).moment }
        ensures same { (t : ℕ) → (Self.view self.new).image_at t ≡ (Self.view self.old).image_at t }
        ensures moment { (Self.view self.new).moment ≡ (Self.view self.old).moment }
        ensures faults { (Self.view self.new).faults ≡ (Self.view self.old).faults }
        ensures picks { (Self.view self.new).picks ≡ (Self.view self.old).picks };

    /// Lets the call of this number from now on fail, and no other.
    fn fail_at(&mut self, call: u32)
        ensures armed { (Self.view self.new).armed ≡ armed_with (At call) (Self.view self.old).moment }
        ensures same { (t : ℕ) → (Self.view self.new).image_at t ≡ (Self.view self.old).image_at t }
        ensures moment { (Self.view self.new).moment ≡ (Self.view self.old).moment }
        ensures faults { (Self.view self.new).faults ≡ (Self.view self.old).faults }
        ensures picks { (Self.view self.new).picks ≡ (Self.view self.old).picks };

    /// Makes an image that a stop may leave the content, keeps it, and disarms.
    fn pick(&mut self, alloc: Global, fill: Fill) -> Result<(), AllocError>
        ensures ok { OnOk result (Picks fill (Self.view self.old).armed.arming (Self.view self.old).faults (Self.view self.old).picks (Self.view self.new).picks
            (image_now (Self.view self.old)) (image_now (Self.view self.new))) }
        ensures disarmed { OnOk result ((Self.view self.new).armed.arming ≡ Off) }
        ensures past { SamePast (Self.view self.old) (Self.view self.new) }
        ensures tick { OnOk result ((Self.view self.new).moment ≡ (Self.view self.old).moment + 1) }
        ensures faults { (Self.view self.new).faults ≡ (Self.view self.old).faults }
        ensures err { OnErr result (((Self.view self.new).moment ≡ (Self.view self.old).moment) × ((Self.view self.new).armed ≡ (Self.view self.old).armed)
            × ((Self.view self.new).picks ≡ (Self.view self.old).picks)) };

    /// It says what it holds.
    ghost tells: { (d : Self) → IsSome (image_now (Self.Disk.view d)) };
}
