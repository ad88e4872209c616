//! Text that is gathered before it goes to a sink.
ghost use Rattle.std.specs.Prelude.{◌≡◌, ◌⊎◌, ℕ, ◌+◌, ◌≤◌, List, [], ◌++◌, length, decimal};
ghost use Rattle.file_access.specs.SinkView.{SinkView, Prints};
ghost use Rattle.file_access.specs.PageView.{blank, Adds, Printed};

use crate::sinks::{Failed, Sink, put_all};
use itoa::{Buffer, write_digits};
use std::marker::Model;

// The most bytes that wait on a page.
const MAX_WAITING_BYTES: usize = 4096;

/// The most digits of a number that is written straight onto the page.
const SHORT_DIGITS: usize = 4;

/// Text that is gathered before it goes to a sink, so that many short texts cost few calls of it.
///
/// A page takes no memory. Once the sink failed, what is written on it after that goes nowhere.
#[derive(Drop)]
pub struct Page {
    bytes: [u8; MAX_WAITING_BYTES],
    len: usize,
    failed: bool,
}

impl Model for Page {
    ghost use Rattle.std.specs.Prelude.{◌≤◌, take};
    ghost use Rattle.file_access.specs.PageView.{PageView};

    ghost Value = { PageView };

    ghost view = { λ p. record { waiting = take p.len p.bytes; failed = p.failed } };

    ghost use Rattle.file_access.specs.declared.pages.TheConstants.{MAX_WAITING_BYTES};

    ghost invariant = { λ p. p.len ≤ MAX_WAITING_BYTES };
}

impl Page {
    /// A page with nothing on it.
    pub fn new() -> Page
        ensures { result ≡ blank }
    {
        Page {
            bytes: [0; MAX_WAITING_BYTES],
            len: 0,
            failed: false,
        }
    }

    // How many bytes more can wait.
    fn room(&self) -> usize
        ensures { result + length self.now.waiting ≡ MAX_WAITING_BYTES }
    {
        MAX_WAITING_BYTES - self.len
    }

    // Puts a piece that fits behind what waits.
    #[inline(always)]
    fn copy(&mut self, piece: &[u8])
        requires { length self.old.waiting + length piece.now ≤ MAX_WAITING_BYTES }
        ensures { self.new ≡ record self.old { waiting = self.old.waiting ++ piece.now } }
    {
        let end = self.len + piece.len();
        self.bytes[self.len..end].copy_from_slice(piece);
        self.len = end;
    }

    // Puts the digits of a number behind what waits, where they fit.
    #[inline(always)]
    #[tactic(auto, using(crate::proofs::Digits::written_behind))]
    fn copy_digits(&mut self, n: u64, count: usize)
        requires count { count ≡ length (decimal n) }
        requires room { length self.old.waiting + count ≤ MAX_WAITING_BYTES }
        ensures { self.new ≡ record self.old { waiting = self.old.waiting ++ decimal n } }
    {
        let end = self.len + count;
        write_digits(n, &mut self.bytes, end);
        self.len = end;
    }

    // Sends what waits.
    #[cold]
    #[inline(never)]
    fn flush<K: Sink>(&mut self, sink: &mut K)
        ensures adds { Adds (K.seen sink.old) self.old (K.seen sink.new) self.new [] }
        ensures empty { self.new.waiting ≡ [] }
    {
        if !self.failed {
            self.failed = put_all(sink, &self.bytes[..self.len]).is_err();
        }
        self.len = 0;
    }

    // Sends a piece past the page, where nothing waits.
    #[cold]
    #[inline(never)]
    fn through<K: Sink>(&mut self, sink: &mut K, piece: &[u8])
        requires { self.old.waiting ≡ [] }
        ensures { Adds (K.seen sink.old) self.old (K.seen sink.new) self.new piece.now }
    {
        if !self.failed {
            self.failed = put_all(sink, piece).is_err();
        }
    }

    // Sends what waits where a piece of this length doesn't fit behind it.
    #[inline(always)]
    fn make_room<K: Sink>(&mut self, sink: &mut K, len: usize)
        ensures adds { Adds (K.seen sink.old) self.old (K.seen sink.new) self.new [] }
        ensures room { (len + length self.new.waiting ≤ MAX_WAITING_BYTES) ⊎ (self.new.waiting ≡ []) }
    {
        if self.room() < len {
            self.flush(sink);
        }
    }

    /// Tells a text to the sink.
    // Inlined, since most pieces are literals of a few bytes: then they are stored, and not copied by a call.
    #[inline(always)]
    pub fn text<K: Sink>(&mut self, sink: &mut K, piece: &[u8])
        ensures { Adds (K.seen sink.old) self.old (K.seen sink.new) self.new piece.now }
    {
        self.make_room(sink, piece.len());
        if piece.len() <= self.room() {
            self.copy(piece);
        } else {
            self.through(sink, piece);
        }
    }

    /// Tells a number in decimal digits.
    // Most numbers are short. Where they fit, their digits are written where they stay, and nothing is called.
    #[tactic(auto, using(crate::proofs::Digits::short_numbers))]
    pub fn number<K: Sink>(&mut self, sink: &mut K, n: u64)
        ensures { Adds (K.seen sink.old) self.old (K.seen sink.new) self.new (decimal n) }
    {
        if self.room() < SHORT_DIGITS {
            return self.long_number(sink, n);
        }
        match n {
            0..10 => self.copy_digits(n, 1),
            10..100 => self.copy_digits(n, 2),
            100..1_000 => self.copy_digits(n, 3),
            1_000..10_000 => self.copy_digits(n, SHORT_DIGITS),
            _ => self.long_number(sink, n),
        }
    }

    // Tells a number of any length. It goes through the buffer of `itoa`: one length more above made each short number slower.
    #[inline(never)]
    fn long_number<K: Sink>(&mut self, sink: &mut K, n: u64)
        ensures { Adds (K.seen sink.old) self.old (K.seen sink.new) self.new (decimal n) }
    {
        let mut digits = Buffer::new();
        self.text(sink, digits.format(n).as_bytes());
    }

    /// Tells a number of up to 128 bits in decimal digits.
    pub fn number128<K: Sink>(&mut self, sink: &mut K, n: u128)
        ensures { Adds (K.seen sink.old) self.old (K.seen sink.new) self.new (decimal n) }
    {
        let mut digits = Buffer::new();
        self.text(sink, digits.format(n).as_bytes());
    }

    /// Sends the rest. It is Failed where the sink failed at any of the texts, of which it then took
    /// a front.
    pub fn end<K: Sink>(mut self, sink: &mut K) -> Result<(), Failed>
        ensures { (start : SinkView) (text : List ℕ) →
            Printed start (K.seen sink.old) self text → Prints start (K.seen sink.new) text result }
    {
        self.flush(sink);
        if self.failed { Err(Failed) } else { Ok(()) }
    }
}
