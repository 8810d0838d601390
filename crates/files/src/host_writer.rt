//! A file of the system that is being written.
use crate::StoreFault;
use crate::fault::meaning_of;
use std::alloc::{AllocError, Global};
use std::cell::Cell;
use std::fs::{File, Files, Metadata, OpenFile, OpenOptions};
use std::io::{ErrorKind, Write};
use std::os::unix::fs::MetadataExt;
use std::{fs, io};

/// How many names are tried for a file beside another.
const NAMES: u32 = 64;

/// Writes a file of the system: the file itself, or a new one beside it that takes its place once
/// all is written.
///
/// Dropped before that, it removes the new file, and the one at the path holds what it held.
pub struct HostWriter<'a, R: Files> {
    rt: &'a R,
    file: R::File,
    /// The path of the new file.
    beside: Option<String>,
    /// Where it is noted why the system refuses to write.
    why: &'a Cell<&'static str>,
}

impl<'a, R: Files> HostWriter<'a, R> {
    /// Opens the file at a path.
    ///
    /// A new file beside it is written where nothing stands at the path, or a regular file with one
    /// name whose owner and mode the new one can have. Devices, pipes and links are written
    /// themselves, and so is a file in a folder that takes no other.
    pub(crate) fn open(
        rt: &'a R,
        alloc: Global,
        path: &str,
        why: &'a Cell<&'static str>,
    ) -> io::Result<HostWriter<'a, R>> {
        match fs::symlink_metadata(rt, path) {
            Ok(old) => {
                if old.is_file() && old.nlink() == 1 {
                    OpenOptions::new().write(true).open(rt, path)?;
                    if let Some(writer) = HostWriter::replacing(rt, alloc, path, &old, why) {
                        return Ok(writer);
                    }
                }
            }
            Err(error) if error.kind() == ErrorKind::NotFound => {
                if let Ok(Some(writer)) = HostWriter::beside(rt, alloc, path, why) {
                    return Ok(writer);
                }
            }
            Err(_) => {}
        }
        Ok(HostWriter {
            rt,
            file: fs::create(rt, path)?,
            beside: None,
            why,
        })
    }

    /// A new file with the owner and the mode of this old one, if it can have them.
    fn replacing(
        rt: &'a R,
        alloc: Global,
        path: &str,
        old: &Metadata,
        why: &'a Cell<&'static str>,
    ) -> Option<HostWriter<'a, R>> {
        let writer = HostWriter::beside(rt, alloc, path, why).ok()??;
        let new = writer.file.metadata().ok()?;
        if new.uid() != old.uid() || new.gid() != old.gid() {
            return None;
        }
        writer.file.set_permissions(old.permissions()).ok()?;
        Some(writer)
    }

    /// A new file in the folder of this path, with a name that none there has.
    fn beside(
        rt: &'a R,
        alloc: Global,
        path: &str,
        why: &'a Cell<&'static str>,
    ) -> Result<Option<HostWriter<'a, R>>, AllocError> {
        for number in 0..NAMES {
            let name = format!(in alloc; "{path}.{number}.part")?;
            match File::create_new(rt, name.as_str()) {
                Ok(file) => {
                    return Ok(Some(HostWriter {
                        rt,
                        file,
                        beside: Some(name),
                        why,
                    }));
                }
                Err(error) if error.kind() == ErrorKind::AlreadyExists => {}
                Err(_) => return Ok(None),
            }
        }
        Ok(None)
    }

    /// Ends the writing: all bytes are on the disk, and the file stands at the path.
    pub(crate) fn close(mut self, path: &str) -> Result<(), StoreFault> {
        match self.file.sync_all() {
            Ok(()) => {}
            // A pipe or a terminal has no disk that could refuse.
            Err(error) if error.kind() == ErrorKind::InvalidInput => {}
            Err(error) => return Err(self.refused(&error)),
        }
        if let Some(name) = &self.beside {
            if let Err(error) = fs::rename(self.rt, name.as_str(), path) {
                return Err(self.refused(&error));
            }
        }
        self.beside = None;
        Ok(())
    }

    /// Notes why the system refused.
    fn refused(&self, error: &io::Error) -> StoreFault {
        self.why.set(meaning_of(error.kind()));
        StoreFault::Device
    }
}

impl<R: Files> Write for HostWriter<'_, R> {
    fn write(&mut self, buf: &[u8]) -> io::Result<usize> {
        match self.file.write(buf) {
            Ok(count) => Ok(count),
            Err(error) => {
                self.why.set(meaning_of(error.kind()));
                Err(error)
            }
        }
    }

    fn flush(&mut self) -> io::Result<()> {
        self.file.flush()
    }
}

impl<R: Files> Drop for HostWriter<'_, R> {
    fn drop(self) {
        let HostWriter {
            rt,
            file: _,
            beside,
            why: _,
        } = self;
        if let Some(name) = beside {
            // The fault that ended the writing is told already; a file that can't be removed stays.
            let _ = fs::remove_file(rt, name.as_str());
        }
    }
}
