//! What a disk held as it was opened.

ghost use Rattle.std.specs.Prelude.{ℕ, List};

use act_disk::{Disk, FileDisk, HostFile, Start};

/// A disk over what was opened.
pub trait Opened: Disk {
    /// The bytes that it held as it was opened, which only contracts read.
    ghost opened: { List ℕ };
}

impl<B: Start> Opened for FileDisk<HostFile<B>> {
    ghost opened = { B.Start.held };
}
