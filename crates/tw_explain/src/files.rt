//! Where a network's file is at fault.

use std::alloc::{AllocError, Global};
use tw_file_faults::{explain, explain_text};
use tw_file_network::{FileRefused, json_of, network_of_value};

/// The words for the fault of a network's file, a line that `check` writes too; none where the file is not at fault.
///
/// Refused for want of memory (4).
pub fn file_words(alloc: Global, bytes: &[u8]) -> Result<Option<String>, AllocError> {
    let value = match json_of(alloc, bytes) {
        Ok(value) => value,
        Err(FileRefused::OutOfMemory) => return Err(AllocError),
        Err(_) => return Ok(Some(explain_text(alloc, bytes)?)),
    };
    match network_of_value(alloc, &value) {
        Ok(_) => Ok(None),
        Err(FileRefused::OutOfMemory) => Err(AllocError),
        Err(fault) => Ok(Some(explain(alloc, &value, fault)?)),
    }
}
