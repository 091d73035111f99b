// A request's fields, taken off its front one after the other, and what ends a run.
use commands::{Command, Metadata, Operation};
use std::io;

// As many positions as one byte tells.
pub const MOST_POSITIONS: usize = 255;

// A frame whose fields are too short, or say what no call takes.
#[derive(Clone, Copy)]
pub struct BadFrame;

// What ends a run before its input does.
#[derive(Drop)]
pub enum Fault {
    BadFrame,
    Io(io::Error),
}

impl From<BadFrame> for Fault {
    fn from(_e: BadFrame) -> Fault {
        Fault::BadFrame
    }
}

impl From<io::Error> for Fault {
    fn from(e: io::Error) -> Fault {
        Fault::Io(e)
    }
}

// The fields that are left.
#[derive(Clone, Copy)]
pub struct Request<'a> {
    left: &'a [u8],
}

impl<'a> Request<'a> {
    pub fn new(fields: &'a [u8]) -> Request<'a> {
        Request { left: fields }
    }

    // All that is left.
    pub fn rest(self) -> &'a [u8] {
        self.left
    }

    fn take<const N: usize>(&mut self) -> Result<[u8; N], BadFrame> {
        let (taken, left) = self.left.split_first_chunk::<N>().ok_or(BadFrame)?;
        self.left = left;
        Ok(*taken)
    }

    pub fn byte(&mut self) -> Result<u8, BadFrame> {
        Ok(u8::from_be_bytes(self.take()?))
    }

    pub fn word(&mut self) -> Result<u16, BadFrame> {
        Ok(u16::from_be_bytes(self.take()?))
    }

    // A sample time.
    pub fn time(&mut self) -> Result<u32, BadFrame> {
        Ok(u32::from_be_bytes(self.take()?))
    }

    // A number in four bytes.
    pub fn number(&mut self) -> Result<u64, BadFrame> {
        Ok(self.time()? as u64)
    }

    // A tag or a label.
    pub fn digest(&mut self) -> Result<[u8; 32], BadFrame> {
        self.take()
    }

    pub fn metadata(&mut self) -> Result<Metadata, BadFrame> {
        let count = self.number()?;
        let label = self.digest()?;
        Ok(Metadata { count, label })
    }

    // No TryFrom: the byte is a frame's, and another one is a bad frame.
    fn operation(&mut self) -> Result<Operation, BadFrame> {
        match self.byte()? {
            0 => Ok(Operation::Read),
            1 => Ok(Operation::Replace),
            2 => Ok(Operation::Insert),
            3 => Ok(Operation::Delete),
            _ => Err(BadFrame),
        }
    }

    pub fn command(&mut self) -> Result<Command, BadFrame> {
        let operation = self.operation()?;
        let position = self.number()?;
        let height = self.byte()?;
        let tag = self.digest()?;
        Ok(Command {
            operation,
            position,
            height,
            tag,
        })
    }

    // Four bytes of length, then so many bytes.
    pub fn with_length(&mut self) -> Result<&'a [u8], BadFrame> {
        let size = self.number()? as usize;
        let (taken, left) = self.left.split_at_checked(size).ok_or(BadFrame)?;
        self.left = left;
        Ok(taken)
    }

    // A block: its time, and its readings with their length.
    pub fn block(&mut self) -> Result<(u32, &'a [u8]), BadFrame> {
        let time = self.time()?;
        let readings = self.with_length()?;
        Ok((time, readings))
    }

    // How many positions in one byte, then four bytes each.
    pub fn positions<'b>(
        &mut self,
        room: &'b mut [u64; MOST_POSITIONS],
    ) -> Result<&'b [u64], BadFrame> {
        let m = self.byte()? as usize;
        for position in room[..m].iter_mut() {
            *position = self.number()?;
        }
        Ok(&room[..m])
    }

    // How many times in four bytes, then four bytes each.
    pub fn times<'b>(&mut self, room: &'b mut [u32]) -> Result<&'b [u32], BadFrame> {
        let times = self.part_of(room)?;
        for time in times.iter_mut() {
            *time = self.time()?;
        }
        Ok(times)
    }

    // The front of a room, as long as four bytes say.
    pub fn part_of<'b, T>(&mut self, room: &'b mut [T]) -> Result<&'b mut [T], BadFrame> {
        let size = self.number()? as usize;
        room.get_mut(..size).ok_or(BadFrame)
    }
}
