//! Cuts a stream that comes in pieces into packets.
ghost use Rattle.std.specs.Prelude.{◌≡◌, ℕ, List, ◌+◌, ◌-◌, ◌≤◌, ◌↔◌, ◌⊎◌, true, false, [], ◌∷◌, ◌++◌, length, take, drop, min};
ghost use Rattle.ts_packets.specs.Packet.{pid_of};
ghost use Rattle.ts_packets.specs.Packets.{packets_of};
ghost use Rattle.ts_packets.specs.Cutter.{capacity, IsCertainAt, HoldsPacket, IsWaiting, IsOver, DropsFront, Gives, StandsFor};

use super::buffer::{first_certain, move_to_front, put};
use super::packet::{PACKET_LENGTH, Packet, pid_in};
use std::marker::Model;

/// The most bytes that a [`Cutter`] holds.
pub const CAPACITY: usize = 4096;

/// What [`Cutter::next`] answers.
#[derive(Clone, Copy, Debug, PartialEq, Eq)]
pub enum Cut {
    /// The stream's next packet.
    Packet(Packet),
    /// More bytes are needed to tell where the next packet stands.
    NeedMore,
    /// The stream's end was told, and no packet is left.
    End,
}

/// What [`Cutter::seek`] finds.
#[derive(Clone, Copy, Debug, PartialEq, Eq)]
pub enum Ahead {
    /// A packet stands at the front of what is held.
    Packet,
    /// More bytes are needed to tell where the next packet stands.
    NeedMore,
    /// The stream's end was told, and no packet is left.
    End,
}

/// Cuts a stream that comes in pieces into packets. It holds up to 4,096 bytes in itself.
///
/// A packet stands where the sync byte is, and again 188 bytes on, or the stream ends there; so a
/// packet is given only once the byte behind it, or the end, is known.
#[derive(Drop)]
pub struct Cutter {
    buffer: [u8; CAPACITY],
    start: usize,
    end: usize,
    ended: bool,
}

impl Model for Cutter {
    ghost use Rattle.std.specs.Prelude.{◌-◌, ◌≤◌, take, drop};
    ghost use Rattle.ts_packets.specs.Cutter.{CutterState};

    ghost Value = { CutterState };

    ghost view = { λ c. record {
      held = take (c.end - c.start) (drop c.start c.buffer);
      ended = c.ended;
    } };

    ghost invariant = { λ c. (c.start ≤ c.end) × (c.end ≤ 4096) };
}

impl Cutter {
    ghost use Rattle.ts_packets.specs.Cuts.{packets_in, with_cut, IsPacketCut};

    /// A cutter that holds nothing, at the start of a stream.
    pub fn new() -> Cutter
        ensures held { result.held ≡ [] }
        ensures ended { result.ended ≡ false }
        ensures stands { StandsFor result [] [] }
    {
        Cutter {
            buffer: [0; CAPACITY],
            start: 0,
            end: 0,
            ended: false,
        }
    }

    /// Whether the stream's end was told.
    pub fn is_finished(&self) -> bool
        ensures { result ≡ self.now.ended }
    {
        self.ended
    }

    /// The number of bytes held, at most 4,096.
    pub fn held_len(&self) -> usize
        ensures len { result ≡ length self.now.held }
        ensures most { result ≤ capacity }
    {
        self.end - self.start
    }

    /// Takes as many of the bytes as there is room for, from the front, and answers their number.
    /// After [`Cut::NeedMore`] there is room for 3,908 bytes and more. What is held is moved at
    /// most once in a call, so feed pieces of many packets, and take all packets between two calls.
    pub fn feed(&mut self, bytes: &[u8]) -> usize
        requires open_end { self.old.ended ≡ false }
        ensures count { result ≡ min (length bytes.now) (capacity - length self.old.held) }
        ensures held { self.new.held ≡ self.old.held ++ take result bytes.now }
        ensures ended { self.new.ended ≡ self.old.ended }
        ensures nothing { (result ≡ 0) ↔ ((length self.old.held ≡ capacity) ⊎ (bytes.now ≡ [])) }
        ensures stands { (stream : List ℕ) (given : List (List ℕ)) → StandsFor self.old stream given
            → StandsFor self.new (stream ++ take result bytes.now) given }
    {
        let count = bytes.len().min(CAPACITY - self.held_len());
        if self.end + count > CAPACITY {
            let held = self.end - self.start;
            move_to_front(&mut self.buffer, self.start, held);
            self.start = 0;
            self.end = held;
        }
        put(&mut self.buffer, self.end, &bytes[..count]);
        self.end += count;
        count
    }

    /// Tells that the stream ends behind what was fed. A second call changes nothing.
    pub fn finish(&mut self)
        ensures held { self.new.held ≡ self.old.held }
        ensures ended { self.new.ended ≡ true }
        ensures stands { (stream : List ℕ) (given : List (List ℕ)) → StandsFor self.old stream given
            → StandsFor self.new stream given }
    {
        self.ended = true;
    }

    /// The next packet of the stream, if what is held tells it.
    pub fn next(&mut self) -> Cut
        ensures gives { Gives self.old (packets_in result) self.new }
        ensures drops { DropsFront self.old self.new }
        ensures stands { (stream : List ℕ) (given : List (List ℕ)) → StandsFor self.old stream given
            → StandsFor self.new stream (with_cut given result) }

        ensures packet { IsPacketCut result ↔ HoldsPacket self.old }
        ensures need_more { (result ≡ Cut.NeedMore) ↔ IsWaiting self.old }
        ensures end { (result ≡ Cut.End) ↔ IsOver self.old }

        ensures takes { IsPacketCut result → length self.new.held + 188 ≤ length self.old.held }
        ensures room { result ≡ Cut.NeedMore → length self.new.held ≤ 188 }
        ensures empty { result ≡ Cut.End → self.new.held ≡ [] }
        ensures whole { result ≡ Cut.End → (stream : List ℕ) (given : List (List ℕ))
            → StandsFor self.old stream given → packets_of stream ≡ given }
    {
        match self.seek() {
            Ahead::Packet => Cut::Packet(self.take_packet()),
            Ahead::NeedMore => Cut::NeedMore,
            Ahead::End => Cut::End,
        }
    }

    /// Leaves out the bytes in front of the next packet, and says whether what is held tells one.
    /// With [`Cutter::front_pid`], [`Cutter::take_packet`] and [`Cutter::skip_packet`] this is
    /// [`Cutter::next`] in steps, for a caller that looks at few of the packets.
    pub fn seek(&mut self) -> Ahead
        ensures gives { Gives self.old [] self.new }
        ensures drops { DropsFront self.old self.new }
        ensures stands { (stream : List ℕ) (given : List (List ℕ)) → StandsFor self.old stream given
            → StandsFor self.new stream given }

        ensures packet { (result ≡ Ahead.Packet) ↔ HoldsPacket self.old }
        ensures need_more { (result ≡ Ahead.NeedMore) ↔ IsWaiting self.old }
        ensures end { (result ≡ Ahead.End) ↔ IsOver self.old }

        ensures front { result ≡ Ahead.Packet → IsCertainAt self.new 0 }
        ensures room { result ≡ Ahead.NeedMore → length self.new.held ≤ 188 }
        ensures empty { result ≡ Ahead.End → self.new.held ≡ [] }
    {
        match first_certain(&self.buffer[self.start..self.end], self.ended) {
            Some(place) => {
                self.start += place;
                Ahead::Packet
            }
            None if self.ended => {
                self.start = self.end;
                Ahead::End
            }
            None => {
                self.start = self.end - (self.end - self.start).min(PACKET_LENGTH);
                Ahead::NeedMore
            }
        }
    }

    /// The PID of the packet at the front.
    pub fn front_pid(&self) -> u16
        requires front { IsCertainAt self.now 0 }
        ensures { result ≡ pid_of (take 188 self.now.held) }
    {
        pid_in(self.buffer[self.start + 1], self.buffer[self.start + 2])
    }

    /// Takes the packet at the front.
    pub fn take_packet(&mut self) -> Packet
        requires front { IsCertainAt self.old 0 }
        ensures packet { result ≡ take 188 self.old.held }
        ensures held { self.new.held ≡ drop 188 self.old.held }
        ensures shorter { length self.new.held + 188 ≡ length self.old.held }
        ensures ended { self.new.ended ≡ self.old.ended }
        ensures gives { Gives self.old (result ∷ []) self.new }
        ensures stands { (stream : List ℕ) (given : List (List ℕ)) → StandsFor self.old stream given
            → StandsFor self.new stream (given ++ result ∷ []) }
    {
        let packet = Packet::from_bytes(&self.buffer[self.start..self.start + PACKET_LENGTH]);
        self.start += PACKET_LENGTH;
        packet
    }

    /// Passes over the packet at the front, with no copy of it.
    pub fn skip_packet(&mut self)
        requires front { IsCertainAt self.old 0 }
        ensures held { self.new.held ≡ drop 188 self.old.held }
        ensures shorter { length self.new.held + 188 ≡ length self.old.held }
        ensures ended { self.new.ended ≡ self.old.ended }
        ensures gives { Gives self.old (take 188 self.old.held ∷ []) self.new }
        ensures stands { (stream : List ℕ) (given : List (List ℕ)) → StandsFor self.old stream given
            → StandsFor self.new stream (given ++ take 188 self.old.held ∷ []) }
    {
        self.start += PACKET_LENGTH;
    }
}
