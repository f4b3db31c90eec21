//! Bytes from an address on, and the calls of a disk in memory.
ghost use Rattle.std.specs.Prelude.{◌≡◌, ◌+◌, ◌<◌, ◌≤◌, ◌^◌, ◌++◌, [], map, length, IfOk, OnOk, if◌then◌else◌};
ghost use Rattle.crash_disk.specs.Memory.{span_of, byte_over, byte_from, byte_after, torn_span, copied_spans, settles, settled_count, in_effect};

use std::alloc::{AllocError, Global};

/// Bytes from an address on.
#[derive(Drop)]
pub struct Patch {
    pub at: u64,
    pub bytes: Vec<u8>,
}

/// A call that a disk in memory got, and whether it was done.
#[derive(Drop)]
pub enum DiskCall {
    Read,
    Write { patch: Patch, done: bool },
    Sync { done: bool },
}

/// Which writes of some calls are copied, and what of them.
#[derive(Clone, Copy)]
pub enum Copied {
    /// Those that were done, as they are.
    Done,
    /// All, also those that failed, as they are.
    Asked,
    /// All, with the byte 255 in place of each.
    Torn,
}

impl Patch {
    /// The byte at an address, where it is one of these; else the one given.
    fn byte_over(&self, address: u64, before: u8) -> u8
        ensures { result ≡ byte_over (span_of self.now) address before }
    {
        if address < self.at {
            return before;
        }
        let offset = address - self.at;
        if offset < self.bytes.len() as u64 {
            self.bytes[offset as usize]
        } else {
            before
        }
    }
}

/// The byte at an address of a disk of zeros with these patches, the later ones over the earlier.
pub fn byte_of(patches: &[Patch], address: u64) -> u8
    ensures { result ≡ byte_from 0 (map span_of patches.now) address }
{
    let mut byte = 0;
    for patch in patches {
        byte = patch.byte_over(address, byte);
    }
    byte
}

/// The byte that a read gives at an address after these calls, where it was `first` before them.
pub fn byte_after(first: u8, calls: &[DiskCall], address: u64) -> u8
    ensures { result ≡ byte_after first calls.now address }
{
    let mut byte = first;
    for call in calls {
        if let DiskCall::Write { patch, done: true } = call {
            byte = patch.byte_over(address, byte);
        }
    }
    byte
}

impl DiskCall {
    /// Whether this is a sync that was done.
    fn settles(&self) -> bool
        ensures { result ≡ settles self.now }
    {
        matches!(self, DiskCall::Sync { done: true })
    }
}

/// How many of these calls there are up to the last sync that was done.
pub fn settled_count(calls: &[DiskCall]) -> usize
    ensures count { result ≡ settled_count calls.now }
    ensures within { result ≤ length calls.now }
{
    let mut count = 0;
    for (i, call) in calls.iter().enumerate() {
        if call.settles() {
            count = i + 1;
        }
    }
    count
}

/// How many of these calls have had their effect during the last one: a sync has not yet made anything stable.
pub fn in_effect(calls: &[DiskCall]) -> usize
    ensures count { result ≡ in_effect calls.now }
    ensures within { result ≤ length calls.now }
{
    match calls {
        [before @ .., DiskCall::Sync { .. }] => before.len(),
        _ => calls.len(),
    }
}

/// A copy of a patch, with its bytes or with 255 in place of each.
fn copy_of(alloc: Global, patch: &Patch, torn: bool) -> Result<Patch, AllocError>
    ensures { IfOk result
        (λ copy. span_of copy
        ≡ (if torn then torn_span (span_of patch.now) else span_of patch.now)) }
{
    let bytes = if torn {
        vec![in alloc; u8::MAX; patch.bytes.len()]?
    } else {
        patch.bytes.to_vec(alloc)?
    };
    Ok(Patch {
        at: patch.at,
        bytes,
    })
}

/// Copies patches, one after another.
pub fn copy_patches(alloc: Global, patches: &[Patch]) -> Result<Vec<Patch>, AllocError>
    ensures { IfOk result (λ v. map span_of v.items ≡ map span_of patches.now) }
{
    let mut copies = Vec::new(alloc);
    for patch in patches {
        copies.push(copy_of(alloc, patch, false)?)?;
    }
    Ok(copies)
}

/// Adds copies of the writes of some calls.
pub fn copy_writes(
    alloc: Global,
    patches: &mut Vec<Patch>,
    calls: &[DiskCall],
    how: Copied,
) -> Result<(), AllocError>
    ensures { OnOk result (map span_of patches.new.items
        ≡ map span_of patches.old.items ++ copied_spans how calls.now) }
{
    for call in calls {
        if let DiskCall::Write { patch, done } = call {
            if *done || how != Copied::Done {
                patches.push(copy_of(alloc, patch, how == Copied::Torn)?)?;
            }
        }
    }
    Ok(())
}
