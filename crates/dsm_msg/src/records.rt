//! Records, pending lines, and logged grants and openings in bytes.

ghost use Rattle.std.specs.Prelude.{◌≡◌};

use crate::entry::Entry;
use dsm_base::{Bar, Lock, LoggedGrant, LoggedOpening, MemFault, PendingLine, Record};
use dsm_fields::{
    FieldErr, byte, is_over, keeps, mode, number, printed, put_byte, put_length, put_mode,
    put_number, put_short, short_number,
};
use std::alloc::Global;

impl Entry for Record {
    ghost use Rattle.dsm_msg.specs.Spelling.{record_fields};
    ghost use Rattle.dsm_msg.specs.Reading.{record_at};

    ghost entry_fields = { record_fields };

    ghost entry_at = { record_at };

    #[tactic(auto, unfolding(crate::specs::Reading::record_at))]
    fn read<'a>(
        _alloc: Global,
        last: Option<&Record>,
        bytes: &'a [u8],
    ) -> Result<(Record, &'a [u8]), FieldErr> {
        let (turn, rest) = number(bytes)?;
        keeps(is_over(last.map(|last| last.turn), turn), bytes)?;
        let (lock, rest) = short_number(rest)?;
        let (version, rest) = number(rest)?;
        let record = Record {
            turn,
            lock: Lock(lock),
            version,
        };
        Ok((record, rest))
    }

    fn write(&self, out: &mut Vec<u8>) -> Result<(), MemFault> {
        put_number(out, self.turn)?;
        put_short(out, self.lock.0)?;
        put_number(out, self.version)
    }
}

impl Entry for PendingLine {
    ghost use Rattle.dsm_msg.specs.Spelling.{pending_fields};
    ghost use Rattle.dsm_msg.specs.Reading.{pending_at};

    ghost entry_fields = { pending_fields };

    ghost entry_at = { pending_at };

    #[tactic(auto, unfolding(crate::specs::Reading::pending_at))]
    fn read<'a>(
        alloc: Global,
        last: Option<&PendingLine>,
        bytes: &'a [u8],
    ) -> Result<(PendingLine, &'a [u8]), FieldErr> {
        let (turn, rest) = number(bytes)?;
        keeps(is_over(last.map(|last| last.turn), turn), bytes)?;
        let (length, after) = short_number(rest)?;
        keeps(length <= 256, rest)?;
        let (text, rest) = printed(alloc, length as usize, after)?;
        Ok((PendingLine { turn, text }, rest))
    }

    fn write(&self, out: &mut Vec<u8>) -> Result<(), MemFault> {
        put_number(out, self.turn)?;
        put_length(out, self.text.len())?;
        out.extend_from_slice(self.text.as_slice())?;
        Ok(())
    }
}

impl Entry for LoggedGrant {
    ghost use Rattle.dsm_msg.specs.Spelling.{grant_fields};
    ghost use Rattle.dsm_msg.specs.Reading.{grant_at};

    ghost entry_fields = { grant_fields };

    ghost entry_at = { grant_at };

    #[tactic(auto, unfolding(crate::specs::Reading::grant_at))]
    fn read<'a>(
        _alloc: Global,
        last: Option<&LoggedGrant>,
        bytes: &'a [u8],
    ) -> Result<(LoggedGrant, &'a [u8]), FieldErr> {
        let (turn, rest) = number(bytes)?;
        keeps(is_over(last.map(|last| last.turn), turn), bytes)?;
        let (lock, rest) = short_number(rest)?;
        let (mode, rest) = mode(rest)?;
        let (version, rest) = number(rest)?;
        let grant = LoggedGrant {
            turn,
            lock: Lock(lock),
            mode,
            version,
        };
        Ok((grant, rest))
    }

    fn write(&self, out: &mut Vec<u8>) -> Result<(), MemFault> {
        put_number(out, self.turn)?;
        put_short(out, self.lock.0)?;
        put_mode(out, self.mode)?;
        put_number(out, self.version)
    }
}

impl Entry for LoggedOpening {
    ghost use Rattle.dsm_msg.specs.Spelling.{opening_fields};
    ghost use Rattle.dsm_msg.specs.Reading.{opening_at};

    ghost entry_fields = { opening_fields };

    ghost entry_at = { opening_at };

    #[tactic(auto, unfolding(crate::specs::Reading::opening_at))]
    fn read<'a>(
        _alloc: Global,
        last: Option<&LoggedOpening>,
        bytes: &'a [u8],
    ) -> Result<(LoggedOpening, &'a [u8]), FieldErr> {
        let (turn, rest) = number(bytes)?;
        keeps(is_over(last.map(|last| last.turn), turn), bytes)?;
        let (bar, rest) = byte(rest)?;
        let (epoch, rest) = number(rest)?;
        let opening = LoggedOpening {
            turn,
            bar: Bar(bar),
            epoch,
        };
        Ok((opening, rest))
    }

    fn write(&self, out: &mut Vec<u8>) -> Result<(), MemFault> {
        put_number(out, self.turn)?;
        put_byte(out, self.bar.0)?;
        put_number(out, self.epoch)
    }
}
