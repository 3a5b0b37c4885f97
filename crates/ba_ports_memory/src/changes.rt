//! A change to a file that isn't synced yet, and what an image leaves of it.
ghost use Rattle.std.specs.Prelude.{◌≡◌, ◌+◌, ◌≤◌, ◌++◌, ◌<◌, ◌∷◌, [], length, take, drop, replicate, vec_len, vec_capacity, IfOk, OnOk, OnErr};
ghost use Rattle.ba_ports.specs.Disk.{written_at};
ghost use Rattle.ba_ports_memory.specs.DiskValue.{put, imaged, all_imaged};

use ba_core::{List, Memory, Octets};
use ba_ports::Image;
use std::alloc::Global;

/// A change that was issued and isn't synced.
#[derive(Debug, Drop)]
pub enum Change {
    Write { place: u64, bytes: Octets },
    Cut { len: u64 },
}

/// What an image leaves of the changes to a file, in their order.
pub fn all_left(
    alloc: Global,
    image: Image,
    changes: &[Change],
    file: &[u8],
) -> Result<Octets, Memory>
    ensures { IfOk result (λ all. all ≡ all_imaged image changes.now file.now) }
{
    let mut all = copied(alloc, file)?;
    for change in changes {
        all = left(alloc, image, change, all.as_slice())?;
    }
    Ok(all)
}

/// What an image leaves of one change to a file.
pub fn left(alloc: Global, image: Image, change: &Change, file: &[u8]) -> Result<Octets, Memory>
    ensures { IfOk result (λ left. left ≡ imaged image change.now file.now) }
{
    match change {
        Change::Write { place, bytes } => left_of_write(
            alloc,
            image,
            *place,
            bytes.as_slice(),
            file,
        ),
        Change::Cut { len } => left_of_cut(alloc, image, *len, file),
    }
}

fn left_of_write(
    alloc: Global,
    image: Image,
    place: u64,
    bytes: &[u8],
    file: &[u8],
) -> Result<Octets, Memory>
    ensures { IfOk result (λ left. left ≡ imaged image (Change.Write place bytes.now) file.now) }
{
    match image {
        Image::Old => copied(alloc, file),
        Image::New => put(alloc, place, bytes, file),
        Image::Filled => {
            let filled = filled(alloc, bytes.len())?;
            put(alloc, place, filled.as_slice(), file)
        }
        Image::Half => put(alloc, place, &bytes[..bytes.len() / 2], file),
    }
}

fn left_of_cut(alloc: Global, image: Image, len: u64, file: &[u8]) -> Result<Octets, Memory>
    ensures { IfOk result (λ left. left ≡ imaged image (Change.Cut len) file.now) }
{
    match image {
        Image::Old | Image::Filled => copied(alloc, file),
        Image::New => front(alloc, len, file),
        Image::Half => {
            let range = (file.len() as u64).saturating_sub(len);
            front(alloc, len.saturating_add(range / 2), file)
        }
    }
}

/// Makes a change to a file. After `Memory` the file is as it was.
pub fn make(change: &Change, file: &mut Vec<u8>) -> Result<(), Memory>
    ensures ok { OnOk result (file.new.items ≡ imaged (Image.New) change.now file.old.items) }
    ensures err { OnErr result (file.new.items ≡ file.old.items) }
{
    match change {
        Change::Write { place, bytes } => overwrite(file, *place, bytes.as_slice()),
        Change::Cut { len } => {
            let end = (*len).min(file.len() as u64) as usize;
            file.truncate(end);
            Ok(())
        }
    }
}

/// Writes bytes at a place, over what is there and past the end.
fn overwrite(file: &mut Vec<u8>, place: u64, bytes: &[u8]) -> Result<(), Memory>
    ensures ok { OnOk result (file.new.items ≡ put place bytes.now file.old.items) }
    ensures err { OnErr result (file.new.items ≡ file.old.items) }
{
    let len = file.len();
    if place > len as u64 {
        return Ok(());
    }
    let place = place as usize;
    let within = bytes.len().min(len - place);
    let (over, past) = bytes.split_at(within);
    if file.extend_from_slice(past).is_err() {
        return Err(Memory);
    }
    file[place..place + within].copy_from_slice(over);
    Ok(())
}

/// Puts an item last, where there is room for it.
pub fn push_into<T: Drop>(list: &mut Vec<T>, item: T)
    requires { vec_len list.old < vec_capacity list.old }
    ensures { list.new.items ≡ list.old.items ++ item ∷ [] }
{
    let _ = list.push(item);
}

/// So many bytes 255.
fn filled(alloc: Global, count: usize) -> Result<Octets, Memory>
    ensures { IfOk result (λ bytes. bytes ≡ replicate count 255) }
{
    match vec![in alloc; 255u8; count] {
        Ok(bytes) => Ok(List::of(bytes)),
        Err(_) => Err(Memory),
    }
}

/// The same bytes.
pub fn copied(alloc: Global, bytes: &[u8]) -> Result<Octets, Memory>
    ensures { IfOk result (λ copy. copy ≡ bytes.now) }
{
    match Vec::from_slice(alloc, bytes) {
        Ok(bytes) => Ok(List::of(bytes)),
        Err(_) => Err(Memory),
    }
}

/// The front of a file, of this length or all of it.
fn front(alloc: Global, len: u64, file: &[u8]) -> Result<Octets, Memory>
    ensures { IfOk result (λ front. front ≡ take len file.now) }
{
    let end = len.min(file.len() as u64) as usize;
    copied(alloc, &file[..end])
}

/// A file with these bytes at a place. Where it ends before the place, they aren't there.
fn put(alloc: Global, place: u64, bytes: &[u8], file: &[u8]) -> Result<Octets, Memory>
    ensures { IfOk result (λ left. left ≡ put place bytes.now file.now) }
{
    if place > file.len() as u64 {
        return copied(alloc, file);
    }
    let mut left = front(alloc, place, file)?;
    left.append(bytes)?;
    let end = (place as usize).saturating_add(bytes.len());
    if end < file.len() {
        left.append(&file[end..])?;
    }
    Ok(left)
}
