//! Writes on maps of runs.
ghost use Rattle.std.specs.Prelude.{◌≡◌, ◌+◌, ◌<◌, ◌≤◌, IfOk, length};

use bsan_ids::{NoMemory, Span};
use range_map::RangeMap;
use std::alloc::Global;

/// Random numbers, by shifts and exclusive or from a fixed start.
#[derive(Drop)]
struct Random {
    state: u64,
}

impl Random {
    fn below(&mut self, end: u32) -> u32
        requires { 1 ≤ end }
        ensures { result < end }
    {
        let mut state = self.state;
        state ^= state << 13;
        state ^= state >> 7;
        state ^= state << 17;
        self.state = state;
        (state % u64::from(end)) as u32
    }
}

fn write(map: &mut RangeMap<u8>, span: Span, value: u8) -> Result<(), NoMemory>
    requires some { 1 ≤ span.len }
    requires within { span.start + span.len ≤ length map.old.bytes }
    ensures { length map.new.bytes ≡ length map.old.bytes }
{
    map.reserve(2)?;
    map.set_run(span, value);
    Ok(())
}

/// A map of `len` bytes after this many random writes.
///
/// # Errors
///
/// `NoMemory`: out of memory.
pub fn random_writes(alloc: Global, len: u32, writes: u32) -> Result<RangeMap<u8>, NoMemory>
    requires { 1 ≤ len }
    ensures { IfOk result (λ map. length map.bytes ≡ len) }
{
    let mut map = RangeMap::new(alloc, len, 0)?;
    let mut random = Random {
        state: 88_172_645_463_325_252,
    };
    for _write in 0..writes {
        let start = random.below(len);
        let size = 1 + random.below(len - start);
        let value = random.below(4) as u8;
        write(&mut map, Span { start, len: size }, value)?;
    }
    Ok(map)
}

/// A map of `len` bytes after one write at each even byte.
///
/// # Errors
///
/// `NoMemory`: out of memory.
pub fn even_writes(alloc: Global, len: u32) -> Result<RangeMap<u8>, NoMemory>
    requires { 1 ≤ len }
    ensures { IfOk result (λ map. length map.bytes ≡ len) }
{
    let mut map = RangeMap::new(alloc, len, 0)?;
    for half in 0..len / 2 {
        let start = 2 * half;
        write(&mut map, Span { start, len: 1 }, 1)?;
    }
    Ok(map)
}

/// How many runs a map of `len` bytes has.
pub fn run_count(map: &RangeMap<u8>, len: u32) -> u32
    requires { length map.now.bytes ≡ len }
{
    let mut at = 0;
    let mut runs = 0;
    while at < len {
        at = map.run_end(at);
        runs += 1;
    }
    runs
}
