// The data of a leaf record: four kinds, told apart by type, with their fields. Finder info and names are handed out with the record's bytes.
#![tactic(auto)]

ghost use Rattle.std.specs.Prelude.{◌≡◌, ◌<◌};
ghost use Rattle.catalog_entries.specs.Entry.{directory_at, fork_at, file_at, thread_at, entry_at};

use catalog_nodes::records::data_at;
use extent_data::{ExtentData, extent_data_at};
use image::bytes::{be16, be32, byte_at};

#[derive(Clone, Copy)]
pub struct Directory {
    pub flags: u32,
    pub valence: u32,
    pub directory_id: u32,
    pub created: u32,
    pub modified: u32,
    pub backed_up: u32,
}

// With its first three extents.
#[derive(Clone, Copy)]
pub struct Fork {
    pub first_block: u32,
    pub logical_length: u32,
    pub physical_length: u32,
    pub extents: ExtentData,
}

#[derive(Clone, Copy)]
pub struct File {
    pub flags: u32,
    pub file_type: u32,
    pub file_id: u32,
    pub data_fork: Fork,
    pub resource_fork: Fork,
    pub created: u32,
    pub modified: u32,
    pub backed_up: u32,
    pub clump_size: u32,
}

// From a directory's or a file's number to its parent and name.
#[derive(Clone, Copy)]
pub struct Thread {
    pub parent_id: u32,
    pub name_length: u32,
}

#[derive(Clone, Copy)]
pub enum Entry {
    Directory(Directory),
    File(File),
    DirectoryThread(Thread),
    FileThread(Thread),
}

fn directory_at(image: &[u8], start: usize) -> Directory
    requires { start < 300000000000000 }
    ensures { result ≡ directory_at image.now start }
{
    Directory {
        flags: be16(image, start + 2),
        valence: be16(image, start + 4),
        directory_id: be32(image, start + 6),
        created: be32(image, start + 10),
        modified: be32(image, start + 14),
        backed_up: be32(image, start + 18),
    }
}

// The numbers of a fork start at one byte of the image, its extents at another.
fn fork_at(image: &[u8], start: usize, extents: usize) -> Fork
    requires { (start < 400000000000000) × (extents < 400000000000000) }
    ensures { result ≡ fork_at image.now start extents }
{
    Fork {
        first_block: be16(image, start),
        logical_length: be32(image, start + 2),
        physical_length: be32(image, start + 6),
        extents: extent_data_at(image, extents),
    }
}

fn file_at(image: &[u8], start: usize) -> File
    requires { start < 300000000000000 }
    ensures { result ≡ file_at image.now start }
{
    File {
        flags: byte_at(image, start + 2),
        file_type: byte_at(image, start + 3),
        file_id: be32(image, start + 20),
        data_fork: fork_at(image, start + 24, start + 74),
        resource_fork: fork_at(image, start + 34, start + 86),
        created: be32(image, start + 44),
        modified: be32(image, start + 48),
        backed_up: be32(image, start + 52),
        clump_size: be16(image, start + 72),
    }
}

fn thread_at(image: &[u8], start: usize) -> Thread
    requires { start < 300000000000000 }
    ensures { result ≡ thread_at image.now start }
{
    Thread {
        parent_id: be32(image, start + 10),
        name_length: byte_at(image, start + 14),
    }
}

// The leaf record that starts at a byte of the image. Test 5 leaves no type but 4 after the first three.
#[tactic(auto, unfolding(crate::specs::Entry::entry_at, catalog_nodes::specs::Node::type_at))]
pub fn entry_at(image: &[u8], at: usize) -> Entry
    requires { at < 200000000000000 }
    ensures { result ≡ entry_at image.now at }
{
    let start = data_at(image, at);
    match byte_at(image, start) {
        1 => Entry::Directory(directory_at(image, start)),
        2 => Entry::File(file_at(image, start)),
        3 => Entry::DirectoryThread(thread_at(image, start)),
        _ => Entry::FileThread(thread_at(image, start)),
    }
}
