//! Sections out of packets, one packet at a time.
ghost use Rattle.std.specs.Prelude.{◌≡◌, ℕ, List, [], ◌∷◌, ◌++◌, ◌↔◌, IsTrue, IfSome, MatchOption, option_copied};
ghost use Rattle.std.specs.Borrow.{sem};
ghost use Rattle.std.specs.Io.BufRead.{Rests};
ghost use Rattle.ts_packets.specs.Packet.{payload_of};
ghost use Rattle.ts_sections.specs.contracts.assembler.Assembler.{the_row};
ghost use Rattle.ts_sections.specs.Sections.{completed_by, pointer_passes};
ghost use Rattle.ts_sections.specs.devices.Ahead.{is_repeated, goes_on, sections_of_open};
ghost use Rattle.ts_sections.specs.Assembly.{StandsFor, IsDrained, NextSection, HasGivenAll, GivesNext};
ghost use Rattle.ts_sections.specs.devices.Remainder.{Finishes, IsRemainder, IsFoundIn, last_bytes, section_of, state_of};

use crate::piece::Piece;
use crate::remainder::{Found, Remainder};
use std::marker::Model;
use ts_packets::Packet;

/// Puts the sections of one PID together.
///
/// Hand in a packet by [`push`](Assembler::push), and then take the sections that it completes by
/// [`next`](Assembler::next), until that answers `None`. It takes no memory beside its own.
#[derive(Drop)]
pub struct Assembler {
    last: Option<Packet>,
    rest: Remainder,
    piece: Piece,
}

impl Model for Assembler {
    ghost use Rattle.ts_sections.specs.Assembly.{AssemblerState};
    ghost use Rattle.ts_sections.specs.devices.Remainder.{state_of, IsRemainder};

    ghost Value = { AssemblerState };

    ghost view = { λ a. state_of a.last a.rest a.piece };

    ghost invariant = { λ a. IsRemainder a.last a.rest a.piece };
}

impl Assembler {
    /// An assembler that no packet was handed to.
    pub fn new() -> Assembler
        ensures stands { StandsFor result [] [] }
        ensures drained { IsDrained result }
    {
        Assembler {
            last: None,
            rest: Remainder {
                place: 0,
                mark: None,
            },
            piece: Piece::new(),
        }
    }

    /// Whether no section is waiting to be given, so that [`push`](Assembler::push) may be called.
    pub fn is_drained(&self) -> bool
        ensures { IsTrue result ↔ IsDrained self.now }
    {
        match &self.last {
            None => true,
            Some(packet) => self.rest.is_done(packet.bytes(), &self.piece),
        }
    }

    /// Hands in the next packet of the PID, in the stream's order. Packets of other PIDs are the
    /// caller's to leave out.
    pub fn push(&mut self, packet: &Packet)
        requires drained { IsDrained self.old }
        ensures stands { (packets given : List (List ℕ)) → StandsFor self.old packets given
            → StandsFor self.new (packets ++ packet.now ∷ []) given }
        ensures completed { (packets given : List (List ℕ)) → StandsFor self.old packets given
            → self.new.waiting ≡ completed_by packets packet.now }
    {
        if !packet.is_readable() {
            return;
        }
        if repeats(&self.last, packet) {
            return;
        }
        finish(&self.last, &mut self.rest, &mut self.piece);
        if !goes_on(&self.last, packet) {
            self.piece.abandon();
        }
        self.rest = Remainder::of(packet);
        self.last = Some(*packet);
    }

    /// The next section that ended in the packet pushed last, or `None` where there is no further
    /// one.
    pub fn next(&mut self) -> Option<&[u8]>
        ensures* after { sem 𝓛 (Rests the_row self.entry
            (λ new. NextSection self.old new (option_copied result))) }
    {
        let found = advance(&self.last, &mut self.rest, &mut self.piece);
        let assembler: &Assembler = self;
        match found {
            None => None,
            Some(found) => Some(section_at(&assembler.last, &assembler.piece, found)),
        }
    }
}

/// Takes in bytes of the packet that was read last, up to the end of the next section that ends in
/// it.
fn advance(last: &Option<Packet>, rest: &mut Remainder, piece: &mut Piece) -> Option<Found>
    requires remainder { IsRemainder last.now rest.old piece.old }
    ensures remainder { IsRemainder last.now rest.new piece.new }
    ensures found { MatchOption result
        (Finishes last.now rest.old rest.new piece.old piece.new)
        (λ found. GivesNext
        (state_of last.now rest.old piece.old)
        (state_of last.now rest.new piece.new)
        (section_of (last_bytes last.now) piece.new.gathered found)) }
    ensures place { IfSome result (IsFoundIn (last_bytes last.now)) }
{
    match last {
        None => None,
        Some(packet) => rest.next_section(packet.bytes(), piece),
    }
}

/// Takes in what is left of the packet that was read last, in which no section ends.
fn finish(last: &Option<Packet>, rest: &mut Remainder, piece: &mut Piece)
    requires remainder { IsRemainder last.now rest.old piece.old }
    requires drained { IsDrained (state_of last.now rest.old piece.old) }
    ensures remainder { IsRemainder last.now rest.new piece.new }
    ensures finishes { Finishes last.now rest.old rest.new piece.old piece.new }
{
    match advance(last, rest, piece) {
        None => (),
        Some(_) => unreachable!(),
    }
}

/// The bytes of a section that was found.
fn section_at<'a>(last: &'a Option<Packet>, piece: &'a Piece, found: Found) -> &'a [u8]
    requires place { IsFoundIn (last_bytes last.now) found }
    ensures { result.now ≡ section_of (last_bytes last.now) piece.now.gathered found }
{
    match (found, last) {
        (Found::InPacket(start, end), Some(packet)) => &packet.bytes()[start..end],
        (Found::InPacket(_, _), None) => &[],
        (Found::Gathered, _) => piece.gathered(),
    }
}

/// Whether the packet is the one read before it, byte for byte.
fn repeats(before: &Option<Packet>, packet: &Packet) -> bool
    ensures { result ≡ is_repeated before.now packet.now }
{
    match before {
        None => false,
        Some(before) => before.bytes() == packet.bytes(),
    }
}

/// Whether the packet goes on with the run of the one read before it.
fn goes_on(before: &Option<Packet>, packet: &Packet) -> bool
    ensures { result ≡ goes_on before.now packet.now }
{
    match before {
        None => false,
        Some(before) => packet.counter() == (before.counter() + 1) % 16 && !pointer_passes(packet),
    }
}

/// Whether the packet's pointer field passes its payload.
fn pointer_passes(packet: &Packet) -> bool
    ensures { result ≡ pointer_passes packet.now }
{
    match packet.payload() {
        None => packet.starts_unit(),
        Some(payload) => packet.starts_unit()
            && (payload.is_empty() || payload[0] as usize > payload.len() - 1),
    }
}
