//! What a crash leaves of a disk.

use act_disk::{Fill, MemoryDisk};
use std::alloc::Global;
use std::ops::Range;
use wf_value::{Code, Refusal};

/// What an image may contain of the writes since the last sync.
pub const FILLS: [Fill; 4] = [Fill::Old, Fill::New, Fill::Half, Fill::Gates];

/// The images of a crash inside each of these calls of a disk, one for each fill, after the call. A call that was not made is refused
/// with 75.
pub fn crash_images(
    alloc: Global,
    disk: &MemoryDisk,
    calls: Range<usize>,
) -> Result<Vec<(usize, MemoryDisk)>, Refusal> {
    let mut images = Vec::new(alloc);
    for call in calls {
        if call >= disk.calls().len() {
            return Err(Refusal::Numbered(Code::Line));
        }
        for fill in FILLS {
            let image = disk.image(alloc, call as u64, fill)?;
            images.push((call, image))?;
        }
    }
    Ok(images)
}
