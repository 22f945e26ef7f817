//! The files that plans include.
use plan_answer::{FileFault, Files};
use script_text::{StreamFault, read_script};
use std::alloc::Global;
use std::{fs, io};

/// The files of the system.
#[derive(Drop)]
pub(crate) struct Disk<'a> {
    pub(crate) rt: &'a HostRuntime,
}

impl Files for Disk<'_> {
    fn read(&mut self, alloc: Global, name: &str) -> Result<Vec<u8>, FileFault> {
        let mut reader = match fs::open(self.rt, name) {
            Ok(reader) => reader,
            Err(fault) => return Err(open_fault(fault.kind())),
        };
        match read_script(alloc, &mut reader) {
            Ok(text) => Ok(text),
            Err(StreamFault::TooLong) => Err(FileFault::TooLong),
            Err(StreamFault::OutOfMemory) => Err(FileFault::OutOfMemory),
            Err(_) => Err(FileFault::InputFailed),
        }
    }
}

/// Returns why a file is not opened.
pub(crate) fn open_fault(why: io::ErrorKind) -> FileFault {
    match why {
        io::ErrorKind::NotFound => FileFault::NotFound,
        io::ErrorKind::PermissionDenied => FileFault::Denied,
        _ => FileFault::InputFailed,
    }
}
