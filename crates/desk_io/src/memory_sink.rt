ghost use Rattle.std.specs.Prelude.{◌≡◌, ◌+◌, ◌-◌, ◌<◌, ◌≤◌, ◌↔◌, [], true, length, take, vec_len, vec_capacity, IfOk, OnOk, OnErr, IsErr};
ghost use Rattle.std.specs.Prelude.{Some};
ghost use Rattle.desk_io.specs.Sink.{put_bytes, PutFailed};
ghost use Rattle.desk_io.specs.Calls.{calls_at_first, after_call};

use crate::calls::Calls;
use crate::{History, Memory, Request, Sink, SinkFault};
use std::alloc::Global;

/// A sink in memory, which tells what it has taken. Those of its puts fail that are listed when it is made, and those
/// that find no room.
#[derive(Drop)]
pub struct MemorySink {
    taken: Vec<u8>,
    chunk: usize,
    room: usize,
    puts: Calls,
    history: History,
    ghost reserved: { vec_len taken + room ≤ vec_capacity taken },
    ghost takes_some: { 0 < chunk },
}

impl MemorySink {
    ghost use Rattle.std.specs.Prelude.{◌≡◌, ◌<◌, [], IfOk, Some};
    ghost use Rattle.desk_io.specs.Calls.{calls_at_first};
    ghost use Rattle.desk_io.specs.MemorySink.{puts_of, chunk_of, room_of, sink_history_of, sink_state_of};

    /// An empty sink that takes at most `chunk` bytes at once and at most `room` bytes in all. The list names the
    /// puts, counted from 1, that fail.
    pub fn open(
        alloc: Global,
        chunk: usize,
        fails: Vec<u32>,
        room: usize,
    ) -> Result<MemorySink, Memory>
        requires { 0 < chunk }
        ensures empty { IfOk result (λ sink. sink_state_of sink ≡ record { written = Some []; faults = 0 }) }
        ensures puts { IfOk result (λ sink. puts_of sink ≡ calls_at_first fails.items) }
        ensures chunk { IfOk result (λ sink. chunk_of sink ≡ chunk) }
        ensures room { IfOk result (λ sink. room_of sink ≡ room) }
        ensures history { IfOk result (λ sink. sink_history_of sink ≡ []) }
    {
        Ok(MemorySink {
            taken: Vec::with_capacity(alloc, room)?,
            chunk,
            room,
            puts: Calls::new(fails),
            history: History::new(),
        })
    }

    /// What it has taken.
    pub fn written(&self) -> &[u8]
        ensures { (sink_state_of self.now).written ≡ Some result.now }
    {
        &self.taken
    }
}

impl Sink for MemorySink {
    ghost use Rattle.std.specs.Prelude.{◌≡◌, ◌-◌, ◌<◌, ◌≤◌, ◌↔◌, [], ◌∷◌, ◌++◌, true, length, take, IfOk, OnErr, IsErr};
    ghost use Rattle.desk_io.specs.History.{Put};
    ghost use Rattle.desk_io.specs.Sink.{put_bytes, PutFailed};
    ghost use Rattle.desk_io.specs.Calls.{after_call, after_fault};
    ghost use Rattle.desk_io.specs.MemorySink.{puts_of, chunk_of, room_of, sink_history_of, sink_state_of, taken_by_put, fails_put};

    ghost state = { sink_state_of };

    ghost history = { sink_history_of };

    fn put(&mut self, piece: &[u8]) -> Result<usize, SinkFault>
        requires { 0 < length piece.now }
        ensures some { IfOk result (λ count. 0 < count) }
        ensures within { IfOk result (λ count. count ≤ length piece.now) }
        ensures taken { IfOk result (λ count. sink_state_of self.new ≡ put_bytes (take count piece.now) (sink_state_of self.old)) }
        ensures failed { OnErr result (PutFailed (sink_state_of self.old) (sink_state_of self.new)) }
        ensures noted { sink_history_of self.new ≡ sink_history_of self.old ++ Put piece.now ∷ [] }
        // It fails exactly at the listed puts and where there is no room.
        ensures fails { IsErr result ↔ (fails_put self.old ≡ true) }
        ensures count { IfOk result (λ count. count ≡ taken_by_put self.old piece.now) }
        ensures room { IfOk result (λ count. room_of self.new ≡ room_of self.old - count) }
        ensures same_room { OnErr result (room_of self.new ≡ room_of self.old) }
        ensures counted { (puts_of self.new).made ≡ (after_call (puts_of self.old)).made }
        ensures listed { (puts_of self.new).listed ≡ (puts_of self.old).listed }
        ensures once { OnErr result (puts_of self.new ≡ after_fault (after_call (puts_of self.old))) }
        ensures chunk { chunk_of self.new ≡ chunk_of self.old }
    {
        self.history = self.history.then(&Request::Put(piece));
        let fails = self.puts.enter();
        if fails || self.room == 0 {
            self.puts.fault();
            return Err(SinkFault::Failed);
        }
        let count = self.chunk.min(piece.len()).min(self.room);
        self.taken.extend_from_slice(&piece[..count]).unwrap();
        self.room -= count;
        Ok(count)
    }
}
