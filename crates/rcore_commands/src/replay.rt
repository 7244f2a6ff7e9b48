//! A replay: the events of a text, one after the other, in one world.
use crate::replay_text::{read_line, read_start};
use rayon_machine::error::{StartError, StepError};
use rayon_machine::world::World;
use std::alloc::Global;
use std::io::{BufRead, ErrorKind, Result as IoResult};

/// How a replay ends.
#[derive(Drop)]
pub enum Replayed {
    /// All lines were taken, and this is the world that they lead to.
    World(World),
    /// This line, counted from 1, is missing or wrong, is no event, or is one that is not enabled.
    RefusedAt(u64),
    /// Memory was refused, or a number of the world would pass 2^64 - 1.
    NoRoom,
}

/// Why a line was not taken.
#[derive(Drop)]
enum Stop {
    /// It is wrong, or not enabled.
    Refused,
    /// There is no room for it.
    NoRoom,
}

/// Reads the text to its end, and then makes its events. An error is one of the reader; where memory for the text is
/// refused the replay ends without room.
pub fn replay<I: BufRead>(alloc: Global, reader: &mut I) -> IoResult<Replayed> {
    let mut text = Vec::new(alloc);
    match reader.read_to_end(&mut text) {
        Ok(_) => Ok(replay_text(alloc, &text)),
        Err(error) if error.kind() == ErrorKind::OutOfMemory => Ok(Replayed::NoRoom),
        Err(error) => Err(error),
    }
}

// Makes the events of a text.
fn replay_text(alloc: Global, text: &[u8]) -> Replayed {
    let text = text.strip_suffix(b"\n").unwrap_or(text);
    let mut lines = text.split(|byte| *byte == b'\n');
    let mut world = match start_world(alloc, lines.next().unwrap_or(b"")) {
        Ok(world) => world,
        Err(Stop::Refused) => return Replayed::RefusedAt(1),
        Err(Stop::NoRoom) => return Replayed::NoRoom,
    };
    let mut number = 1u64;
    for bytes in lines {
        number = number.saturating_add(1);
        match take_line(&mut world, bytes) {
            Ok(()) => {}
            Err(Stop::Refused) => return Replayed::RefusedAt(number),
            Err(Stop::NoRoom) => return Replayed::NoRoom,
        }
    }
    Replayed::World(world)
}

// The start world that the first line names.
fn start_world(alloc: Global, bytes: &[u8]) -> Result<World, Stop> {
    let text = str::from_utf8(bytes).map_err(|_| Stop::Refused)?;
    let named = read_start(alloc, text).map_err(|_| Stop::NoRoom)?;
    let start = named.ok_or(Stop::Refused)?;
    match World::start(alloc, &start.pools, start.jec_bits) {
        Ok(world) => Ok(world),
        Err(StartError::BadStart) => Err(Stop::Refused),
        Err(StartError::NoRoom) => Err(Stop::NoRoom),
    }
}

// Makes the events of one line, up to the first that is refused.
fn take_line(world: &mut World, bytes: &[u8]) -> Result<(), Stop> {
    let text = str::from_utf8(bytes).map_err(|_| Stop::Refused)?;
    let line = read_line(text).ok_or(Stop::Refused)?;
    for _ in 0..line.times {
        match world.step(line.event) {
            Ok(()) => {}
            Err(StepError::NotEnabled) => return Err(Stop::Refused),
            Err(StepError::NoRoom) => return Err(Stop::NoRoom),
        }
    }
    Ok(())
}
