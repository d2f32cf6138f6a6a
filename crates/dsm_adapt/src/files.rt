//! Files of the host.

ghost use Rattle.std.specs.Prelude.{◌≡◌, None, OnOk, string_bytes};
ghost use Rattle.dsm_base.specs.Files.{Reads};

use crate::count::counted_or_memory;
use dsm_base::{Files, ReadErr};
use std::io::{self, Read};
use std::{fs, rt};

/// Files of the host.
#[derive(Drop)]
pub struct HostFiles<R: rt::Files + Drop> {
    host: R,
    faults: u64,
}

impl<R: rt::Files + Drop> HostFiles<R> {
    /// Files of this host; none is touched yet.
    pub fn new(host: R) -> HostFiles<R>
        ensures { result.faults ≡ 0 }
    {
        HostFiles { host, faults: 0 }
    }
}

impl<R: rt::Files + Drop> Files for HostFiles<R> {
    ghost use Rattle.std.specs.Prelude.{None};

    ghost files_hold = { λ _. None };

    ghost files_faults = { λ files. files.faults };

    fn read(&mut self, name: &String, most: usize, into: &mut Vec<u8>) -> Result<(), ReadErr> {
        let answer = read_file(&self.host, name, most, into);
        counted_or_memory(&mut self.faults, answer)
    }

    fn faults(&self) -> u64 {
        self.faults
    }
}

/// Appends the bytes of a file, at most one more than `most`.
fn read_file<R: rt::Files>(
    host: &R,
    name: &String,
    most: usize,
    into: &mut Vec<u8>,
) -> io::Result<()>
    ensures { OnOk result (Reads None (string_bytes name.now) most into.old.items into.new.items) }
{
    let mut file = fs::open(host, name.as_str())?;
    let mut buffer = [0; 4096];
    let mut left = most;
    loop {
        let room = left.min(4095) + 1;
        let count = file.read(&mut buffer[..room])?;
        if count == 0 {
            return Ok(());
        }
        into.extend_from_slice(&buffer[..count])?;
        if count > left {
            return Ok(());
        }
        left -= count;
    }
}
