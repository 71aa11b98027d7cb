//! Replacing a file whole.
use std::alloc::Global;
use std::fs::{self, OpenFile, OpenOptions, Permissions};
use std::io::{self, ErrorKind, Write};
use std::rt::Files;

/// How many names beside a file are tried for its new bytes, where others of these names were left behind.
const SPARE_NAMES: u32 = 16;

/// Makes `b` all that the file at the path holds.
///
/// The bytes go into a new file beside it, which is synced and renamed over it, so that the old bytes stand until the new
/// ones are all there. Where there is no such file to replace, or none can be made beside it, they are written in place.
pub(crate) fn put_file(files: &impl Files, alloc: Global, path: &str, b: &[u8]) -> io::Result<()> {
    let Some((target, permissions)) = replaceable(files, alloc, path) else {
        return fs::write(files, path, b);
    };
    match open_beside(files, alloc, target.as_str(), permissions) {
        Some((file, spare)) => replace(files, file, spare.as_str(), target.as_str(), b),
        None => fs::write(files, path, b),
    }
}

/// The regular file that the path leads to, through links, and its permissions, or the path itself where nothing stands
/// there. `None` is any other thing, as a device, a link to nothing or a file that may not be written.
fn replaceable(
    files: &impl Files,
    alloc: Global,
    path: &str,
) -> Option<(String, Option<Permissions>)> {
    match files.metadata(path) {
        Ok(meta) if meta.is_file() => {
            let mut how = OpenOptions::new();
            how.write(true);
            how.open(files, path).ok()?;
            let target = files.canonicalize(alloc, path).ok()?;
            let name = String::from_str(alloc, target.as_path().to_str()?).ok()?;
            Some((name, Some(meta.permissions())))
        }
        Err(e) if e.kind() == ErrorKind::NotFound && files.symlink_metadata(path).is_err() => {
            Some((String::from_str(alloc, path).ok()?, None))
        }
        _ => None,
    }
}

/// A new file beside the target, of its permissions, and its name.
fn open_beside<R: Files>(
    files: &R,
    alloc: Global,
    target: &str,
    permissions: Option<Permissions>,
) -> Option<(R::File, String)> {
    for number in 0..SPARE_NAMES {
        let spare = format!(in alloc; "{target}.new{number}").ok()?;
        match fs::File::create_new(files, spare.as_str()) {
            Ok(file) => return keep_permissions(files, file, spare, permissions),
            Err(e) if e.kind() == ErrorKind::AlreadyExists => {}
            Err(_) => return None,
        }
    }
    None
}

fn keep_permissions<R: Files>(
    files: &R,
    file: R::File,
    spare: String,
    permissions: Option<Permissions>,
) -> Option<(R::File, String)> {
    if let Some(permissions) = permissions {
        if file.set_permissions(permissions).is_err() {
            let _ = fs::remove_file(files, spare.as_str());
            return None;
        }
    }
    Some((file, spare))
}

/// Fills the new file and puts it in the target's place; one that could not be filled is removed.
fn replace<R: Files>(
    files: &R,
    mut file: R::File,
    spare: &str,
    target: &str,
    b: &[u8],
) -> io::Result<()> {
    let filled = fill(&mut file, b).and_then(|()| fs::rename(files, spare, target));
    if filled.is_err() {
        let _ = fs::remove_file(files, spare);
    }
    filled
}

fn fill<F: Write + OpenFile>(file: &mut F, b: &[u8]) -> io::Result<()> {
    file.write_all(b)?;
    file.sync_all()
}
