use std::fs::{File, Files};
use std::io;
use std::io::{ErrorKind, Read};

/// The bytes of a file in a folder. `None` if there is no such file, and an error if it has more than `most` bytes.
pub fn file_in<R: Files<File = File> + AllocGlobal>(
    rt: &R,
    folder: &str,
    name: &str,
    most: u64,
) -> io::Result<Option<Vec<u8>>> {
    let alloc = rt.alloc();
    let path = format!(in alloc; "{folder}/{name}")?;
    let file = match File::open(rt, path.as_str()) {
        Ok(file) => file,
        Err(error) if error.kind() == ErrorKind::NotFound => return Ok(None),
        Err(error) => return Err(error),
    };
    let mut bytes = Vec::new(alloc);
    file.take(most.saturating_add(1)).read_to_end(&mut bytes)?;
    if bytes.len() as u64 > most {
        return Err(io::Error::from_raw_os_error(libc::EFBIG));
    }
    Ok(Some(bytes))
}
