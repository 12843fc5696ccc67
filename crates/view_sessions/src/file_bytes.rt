ghost use Rattle.std.specs.Prelude.{◌+◌, ◌<◌, ◌^◌, length};

/// A file: these bytes, and then so many zeros.
#[derive(Drop)]
pub struct FileBytes {
    pub bytes: Vec<u8>,
    pub zeros: u64,
    pub ghost fits: { length bytes.items + zeros < 2 ^ 64 },
}
