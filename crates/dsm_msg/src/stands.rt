//! Standings and numbers of locks and barriers in bytes.

ghost use Rattle.std.specs.Prelude.{◌≡◌};

use crate::entry::Entry;
use dsm_base::{Bar, BarNumber, BarStand, Lock, LockNumber, LockStand, MemFault};
use dsm_fields::{
    FieldErr, byte, flag, is_over, keeps, mode, number, put_byte, put_flag, put_mode, put_number,
    put_short, short_number,
};
use std::alloc::Global;

impl Entry for LockStand {
    ghost use Rattle.dsm_msg.specs.Spelling.{lock_stand_fields};
    ghost use Rattle.dsm_msg.specs.Reading.{lock_stand_at};

    ghost entry_fields = { lock_stand_fields };

    ghost entry_at = { lock_stand_at };

    #[tactic(auto, unfolding(crate::specs::Reading::lock_stand_at))]
    fn read<'a>(
        _alloc: Global,
        last: Option<&LockStand>,
        bytes: &'a [u8],
    ) -> Result<(LockStand, &'a [u8]), FieldErr> {
        let (lock, rest) = short_number(bytes)?;
        keeps(
            is_over(last.map(|last| last.lock.0 as u32), lock as u32),
            bytes,
        )?;
        let (mode, rest) = mode(rest)?;
        let (granted, rest) = flag(rest)?;
        let (turn, after) = number(rest)?;
        keeps(!granted || turn == 0, rest)?;
        let (have, rest) = number(after)?;
        let stand = LockStand {
            lock: Lock(lock),
            mode,
            granted,
            turn,
            have,
        };
        Ok((stand, rest))
    }

    fn write(&self, out: &mut Vec<u8>) -> Result<(), MemFault> {
        put_short(out, self.lock.0)?;
        put_mode(out, self.mode)?;
        put_flag(out, self.granted)?;
        put_number(out, self.turn)?;
        put_number(out, self.have)
    }
}

impl Entry for BarStand {
    ghost use Rattle.dsm_msg.specs.Spelling.{bar_stand_fields};
    ghost use Rattle.dsm_msg.specs.Reading.{bar_stand_at};

    ghost entry_fields = { bar_stand_fields };

    ghost entry_at = { bar_stand_at };

    #[tactic(auto, unfolding(crate::specs::Reading::bar_stand_at))]
    fn read<'a>(
        _alloc: Global,
        last: Option<&BarStand>,
        bytes: &'a [u8],
    ) -> Result<(BarStand, &'a [u8]), FieldErr> {
        let (bar, rest) = byte(bytes)?;
        keeps(
            is_over(last.map(|last| last.bar.0 as u32), bar as u32),
            bytes,
        )?;
        let (arrivals, rest) = number(rest)?;
        let (openings, rest) = number(rest)?;
        let stand = BarStand {
            bar: Bar(bar),
            arrivals,
            openings,
        };
        Ok((stand, rest))
    }

    fn write(&self, out: &mut Vec<u8>) -> Result<(), MemFault> {
        put_byte(out, self.bar.0)?;
        put_number(out, self.arrivals)?;
        put_number(out, self.openings)
    }
}

impl Entry for LockNumber {
    ghost use Rattle.dsm_msg.specs.Spelling.{lock_number_fields};
    ghost use Rattle.dsm_msg.specs.Reading.{lock_number_at};

    ghost entry_fields = { lock_number_fields };

    ghost entry_at = { lock_number_at };

    #[tactic(auto, unfolding(crate::specs::Reading::lock_number_at))]
    fn read<'a>(
        _alloc: Global,
        last: Option<&LockNumber>,
        bytes: &'a [u8],
    ) -> Result<(LockNumber, &'a [u8]), FieldErr> {
        let (lock, rest) = short_number(bytes)?;
        keeps(
            is_over(last.map(|last| last.lock.0 as u32), lock as u32),
            bytes,
        )?;
        let (number, rest) = number(rest)?;
        let lock = Lock(lock);
        Ok((LockNumber { lock, number }, rest))
    }

    fn write(&self, out: &mut Vec<u8>) -> Result<(), MemFault> {
        put_short(out, self.lock.0)?;
        put_number(out, self.number)
    }
}

impl Entry for BarNumber {
    ghost use Rattle.dsm_msg.specs.Spelling.{bar_number_fields};
    ghost use Rattle.dsm_msg.specs.Reading.{bar_number_at};

    ghost entry_fields = { bar_number_fields };

    ghost entry_at = { bar_number_at };

    #[tactic(auto, unfolding(crate::specs::Reading::bar_number_at))]
    fn read<'a>(
        _alloc: Global,
        last: Option<&BarNumber>,
        bytes: &'a [u8],
    ) -> Result<(BarNumber, &'a [u8]), FieldErr> {
        let (bar, rest) = byte(bytes)?;
        keeps(
            is_over(last.map(|last| last.bar.0 as u32), bar as u32),
            bytes,
        )?;
        let (number, rest) = number(rest)?;
        let bar = Bar(bar);
        Ok((BarNumber { bar, number }, rest))
    }

    fn write(&self, out: &mut Vec<u8>) -> Result<(), MemFault> {
        put_byte(out, self.bar.0)?;
        put_number(out, self.number)
    }
}
