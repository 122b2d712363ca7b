//! An input that is taken piece by piece.
ghost use Rattle.std.specs.Prelude.{◌≡◌, ◌≤◌, ◌<◌, [], length, drop, Ok, true, false};
ghost use Rattle.std.specs.Prelude.{IfOk, OnErr};
ghost use Rattle.wf_outside.specs.Laws.Outside.{HasTaken, IsAtEnd};
ghost use Rattle.line_reader.specs.Pieces.{CountsFill};

use std::alloc::{AllocError, Global};
use std::marker::Model;
use wf_outside::{Failed, Source};

/// The piece of an input that was taken last, and how far a reader has passed over it.
#[derive(Drop)]
pub struct Pieces {
    piece: Vec<u8>,
    // How many bytes of the piece are passed.
    at: usize,
    // How many bytes of the piece were taken.
    filled: usize,
}

impl Model for Pieces {
    ghost use Rattle.std.specs.Prelude.{◌≤◌, ◌<◌, length, take, drop};
    ghost use Rattle.line_reader.specs.Pieces.{PiecesShape};

    ghost Value = { PiecesShape };

    ghost view = { λ p. record {
      ahead = drop p.at
          (take p.filled p.piece.items);
      room = length p.piece.items;
    } };

    ghost invariant = { λ p. (p.at ≤ p.filled) × (p.filled ≤ length p.piece.items) ×
        (0 < length p.piece.items) };
}

impl Pieces {
    /// Before the first piece. A piece has at most `room` bytes.
    pub fn new(alloc: Global, room: usize) -> Result<Pieces, AllocError>
        requires { 0 < room }
        ensures { IfOk result (λ p. p ≡ record { ahead = []; room = room }) }
    {
        Ok(Pieces {
            piece: vec![in alloc; 0u8; room]?,
            at: 0,
            filled: 0,
        })
    }

    /// What was taken and is not passed.
    pub fn ahead(&self) -> &[u8]
        ensures ahead { result.now ≡ self.now.ahead }
        ensures within { length self.now.ahead ≤ self.now.room }
    {
        &self.piece[self.at..self.filled]
    }

    /// Passes the first `count` bytes of what was taken.
    pub fn pass(&mut self, count: usize)
        requires { count ≤ length self.old.ahead }
        ensures { self.new ≡ record self.old { ahead = drop count self.old.ahead } }
    {
        self.at += count;
    }

    /// Takes the next piece, where all of the last one is passed. False is the end of the input.
    #[tactic(auto, using(wf_outside::proofs::OutsideLaws::nothing_taken))]
    pub fn fill<S: Source>(&mut self, source: &mut S) -> Result<bool, Failed>
        requires { self.old.ahead ≡ [] }
        ensures taken { HasTaken (S.left source.old) (S.left source.new) self.new.ahead }
        ensures more { result ≡ Ok true → 0 < length self.new.ahead }
        ensures ended { result ≡ Ok false → (self.new.ahead ≡ []) × IsAtEnd (S.left source.new) }
        ensures nothing { OnErr result (self.new.ahead ≡ []) }
        ensures room { self.new.room ≡ self.old.room }
        ensures counts { CountsFill result (S.faults source.old) (S.faults source.new) }
    {
        self.at = 0;
        self.filled = 0;
        self.filled = source.take(self.piece.as_mut_slice())?;
        Ok(self.filled > 0)
    }
}
