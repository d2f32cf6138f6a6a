//! Stores in folders of the host.

ghost use Rattle.std.specs.Prelude.{◌≡◌, IfOk, length, replicate};
ghost use Rattle.dsm_base.specs.Store.{IsSlot};

use crate::count::{counted, counted_or_memory};
use crate::mark::{read_mark, remove_mark, write_mark};
use dsm_base::{Failed, MemFault, ReadErr, Store};
use std::alloc::Global;
use std::fs::{self, OpenFile, OpenOptions};
use std::io::{self, Read, Seek, SeekFrom, Write};
use std::rt;

/// The bytes of a block.
const BLOCK: u64 = 512;

/// A folder of the host with three slot files and a mark file.
#[derive(Drop)]
pub struct DirStore<R: rt::Files + Drop> {
    host: R,
    folder: String,
    first: String,
    second: String,
    third: String,
    mark: String,
    new_mark: String,
    rooms: [u32; 3],
    faults: u64,
}

impl<R: rt::Files + Drop> DirStore<R> {
    /// A store in this folder; no file is touched yet. Its paths are all made here, so that no later
    /// call takes memory for one.
    pub fn new(alloc: Global, host: R, folder: &str) -> Result<DirStore<R>, MemFault>
        ensures rooms { IfOk result (λ store. store.rooms ≡ replicate 3 0) }
        ensures faults { IfOk result (λ store. store.faults ≡ 0) }
    {
        Ok(DirStore {
            host,
            folder: String::from_str(alloc, folder)?,
            first: format!(in alloc; "{folder}/slot0")?,
            second: format!(in alloc; "{folder}/slot1")?,
            third: format!(in alloc; "{folder}/slot2")?,
            mark: format!(in alloc; "{folder}/mark")?,
            new_mark: format!(in alloc; "{folder}/mark.new")?,
            rooms: [0; 3],
            faults: 0,
        })
    }

    /// The file of a slot.
    fn path(&self, slot: u8) -> &str
        requires { IsSlot slot }
    {
        match slot {
            0 => self.first.as_str(),
            1 => self.second.as_str(),
            _ => self.third.as_str(),
        }
    }

    fn make_room(&self, slot: u8, blocks: u32) -> io::Result<()>
        requires { IsSlot slot }
    {
        fs::create_dir_all(&self.host, self.folder.as_str())?;
        self.sync_folder()?;
        let mut options = OpenOptions::new();
        options.write(true).create(true);
        let file = options.open(&self.host, self.path(slot))?;
        file.set_len(blocks as u64 * BLOCK)
    }

    fn write_block(&self, slot: u8, block: u32, bytes: &[u8]) -> io::Result<()>
        requires { IsSlot slot }
    {
        let mut options = OpenOptions::new();
        let mut file = options.write(true).open(&self.host, self.path(slot))?;
        file.seek(SeekFrom::Start(block as u64 * BLOCK))?;
        file.write_all(bytes)?;
        file.sync_data()
    }

    fn read_block(&self, slot: u8, block: u32, into: &mut [u8]) -> io::Result<()>
        requires { IsSlot slot }
        ensures { length into.new ≡ length into.old }
    {
        let mut file = fs::open(&self.host, self.path(slot))?;
        file.seek(SeekFrom::Start(block as u64 * BLOCK))?;
        file.read_exact(into)
    }

    /// The rename is the mark, and nothing can fail behind it; the folder is synced before another
    /// slot changes.
    fn set_mark(&self, slot: u8, blocks: u32) -> io::Result<()> {
        let (aside, path) = (self.new_mark.as_str(), self.mark.as_str());
        write_mark(&self.host, aside, path, slot, blocks)
    }

    fn clear_mark(&self) -> io::Result<()> {
        fs::create_dir_all(&self.host, self.folder.as_str())?;
        remove_mark(&self.host, self.mark.as_str())?;
        self.sync_folder()
    }

    /// What was renamed or removed in the folder stays so.
    fn sync_folder(&self) -> io::Result<()> {
        fs::open(&self.host, self.folder.as_str())?.sync_all()
    }
}

impl<R: rt::Files + Drop> Store for DirStore<R> {
    ghost use Rattle.std.specs.Prelude.{None};
    ghost use Rattle.dsm_adapt.specs.Rooms.{room_of};

    ghost store_holds = { λ _. None };

    ghost store_room = { λ store. room_of store.rooms };

    ghost store_faults = { λ store. store.faults };

    fn clear(&mut self) -> Result<(), Failed> {
        let answer = self.clear_mark();
        counted(&mut self.faults, answer)
    }

    fn room(&mut self, slot: u8, blocks: u32) -> Result<(), ReadErr> {
        let answer = self.make_room(slot, blocks);
        counted_or_memory(&mut self.faults, answer)?;
        self.rooms[slot as usize] = blocks;
        Ok(())
    }

    fn write(&mut self, slot: u8, block: u32, bytes: &[u8]) -> Result<(), Failed> {
        let answer = self.write_block(slot, block, bytes);
        counted(&mut self.faults, answer)
    }

    fn mark(&mut self, slot: u8, blocks: u32) -> Result<(), Failed> {
        let answer = self.set_mark(slot, blocks);
        counted(&mut self.faults, answer)
    }

    fn marked(&mut self) -> Result<Option<(u8, u32)>, Failed> {
        let answer = read_mark(&self.host, self.mark.as_str());
        counted(&mut self.faults, answer)
    }

    fn read(&mut self, slot: u8, block: u32, into: &mut [u8]) -> Result<(), Failed> {
        let answer = self.read_block(slot, block, into);
        counted(&mut self.faults, answer)
    }

    fn faults(&self) -> u64 {
        self.faults
    }
}
