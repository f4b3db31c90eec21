//! Which file can't be read or written, and where it is looked for.

use live_plant::{Refusal, read_file, read_live_plant};
use outside_io::Store;
use std::alloc::{AllocError, Global};
use std::fs;
use std::fs::Files;

/// What to do about a file that can't be read or written, of a plant file or the further one beside it: it is looked for
/// again, and what is found is said. Where nothing more is known of it, that is what stands for all such files.
pub fn files_advice<R: Files, S: Store>(
    rt: &R,
    alloc: Global,
    store: &mut S,
    plant: &str,
    further: &str,
    of_all: &str,
) -> Result<String, AllocError> {
    match missing_file(alloc, store, plant, further)? {
        Some(name) => advice_for(rt, alloc, name.as_str(), plant, of_all),
        None => String::from_str(alloc, of_all),
    }
}

/// The first file that can't be read: of the plant and what it names, and then the further one, if there is one.
fn missing_file<S: Store>(
    alloc: Global,
    store: &mut S,
    plant: &str,
    further: &str,
) -> Result<Option<String>, AllocError> {
    if let Some(name) = unread(alloc, read_live_plant(alloc, store, plant))? {
        return Ok(Some(name));
    }
    if further.is_empty() || further.starts_with('-') {
        return Ok(None);
    }
    unread(alloc, read_file(alloc, store, further))
}

/// The file that can't be read, if a reading was refused for one.
fn unread<T: Drop>(alloc: Global, read: Result<T, Refusal>) -> Result<Option<String>, AllocError> {
    match read {
        Ok(value) => {
            drop(value);
            Ok(None)
        }
        Err(refusal) => name_in(alloc, refusal),
    }
}

/// The file that a refusal names as one that can't be read.
fn name_in(alloc: Global, refusal: Refusal) -> Result<Option<String>, AllocError> {
    let name = match &refusal {
        Refusal::StoreFault { file } => Some(String::from_str(alloc, file.as_str())?),
        _ => None,
    };
    drop(refusal);
    Ok(name)
}

/// What to do about a file of this name, which a plant of that name uses.
fn advice_for<R: Files>(
    rt: &R,
    alloc: Global,
    name: &str,
    plant: &str,
    of_all: &str,
) -> Result<String, AllocError> {
    if is_folder(rt, name) {
        return format!(in alloc; "'{name}' is a folder: name the file in it");
    }
    let Some((folder, _)) = plant.rsplit_once('/') else {
        return format!(in alloc; "'{name}': {of_all}");
    };
    let beside = format!(in alloc; "{folder}/{name}")?;
    if name != plant && is_there(rt, beside.as_str()) {
        format!(in alloc;
            "'{name}' is looked for in the folder of the command, and not beside the plant, where it is: '{beside}'"
        )
    } else {
        format!(in alloc;
            "'{name}' is looked for in the folder of the command, and not beside the plant"
        )
    }
}

/// Whether a folder has this name.
fn is_folder<R: Files>(rt: &R, name: &str) -> bool {
    match fs::metadata(rt, name) {
        Ok(found) => found.is_dir(),
        Err(_) => false,
    }
}

/// Whether a file or a folder has this name.
fn is_there<R: Files>(rt: &R, name: &str) -> bool {
    match fs::exists(rt, name) {
        Ok(is) => is,
        Err(_) => false,
    }
}
