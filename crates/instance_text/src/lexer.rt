//! Lines, fed byte by byte.
ghost use Rattle.std.specs.Prelude.{◌≡◌, ◌<◌, ◌≤◌, ◌+◌, ◌^◌, ◌==◌, ◌↔◌, IsTrue, true, slice_index_or, []};
ghost use Rattle.text_terms.specs.Feeding.{new_lexer, held_of, end_line, feed, finish};
ghost use Rattle.text_terms.specs.Lines.{is_line_feed};
ghost use Rattle.instance_text.specs.Steps.{step_of};
ghost use Rattle.instance_text.specs.Plain.{AreCounted};

use crate::held::HeldLine;
use std::marker::Model;

/// Whether a line has ended.
#[derive(Clone, Copy, Debug, PartialEq, Eq)]
pub enum LexStep {
    More,
    Line,
}

/// The lines of a text, fed byte by byte.
///
/// It holds of a line at most 12 words of at most 21 bytes, and takes no memory. The laws of
/// `text_terms` say that feeding a whole text gives its lines. Contracts see it as the step's
/// record of plain lists and numbers.
#[derive(Drop)]
pub struct LineLexer {
    number: u64,
    begun: bool,
    held: HeldLine,
}

impl Model for LineLexer {
    ghost use Rattle.text_terms.specs.Feeding.{Lexer};

    ghost Value = { Lexer };

    ghost view = { λ l. record { number = l.number; begun = l.begun; held = l.held } };
}

impl LineLexer {
    /// Starts before line 1.
    pub fn new() -> LineLexer
        ensures { result ≡ new_lexer }
    {
        LineLexer {
            number: 0,
            begun: false,
            held: HeldLine::new(),
        }
    }

    // Forgets the line that ended last, where no line is begun.
    fn begin(&mut self)
        ensures { self.new ≡ record self.old { begun = true; held = held_of self.old } }
    {
        if !self.begun {
            self.held.clear();
            self.begun = true;
        }
    }

    fn end_line(&mut self)
        requires { self.old.number < 2 ^ 63 }
        ensures { self.new ≡ end_line self.old }
    {
        self.begin();
        self.held.end_word();
        self.begun = false;
        self.number += 1;
    }

    /// Takes one byte. It answers `Line` exactly where the byte is a line feed.
    pub fn feed(&mut self, byte: u8) -> LexStep
        requires { self.old.number < 2 ^ 63 }
        ensures step { self.new ≡ feed byte self.old }
        ensures ended { result ≡ step_of (is_line_feed byte) }
    {
        if byte == b'\n' {
            self.end_line();
            return LexStep::Line;
        }
        self.begin();
        self.held.add_byte(byte);
        LexStep::More
    }

    /// Ends the input. It answers `Line` exactly where bytes stand behind the last line feed.
    pub fn finish(&mut self) -> LexStep
        requires { self.old.number < 2 ^ 63 }
        ensures step { self.new ≡ finish self.old }
        ensures ended { result ≡ step_of self.old.begun }
    {
        if self.begun {
            self.end_line();
            return LexStep::Line;
        }
        LexStep::More
    }

    /// The number of lines that have ended: after `Line` the number of that line, counted from 1.
    pub fn line_number(&self) -> u64
        ensures { result ≡ self.now.number }
    {
        self.number
    }

    /// After `Line`, whether the line has a byte other than tab, space and 33 to 126 before its
    /// comment.
    pub fn bad_byte(&self) -> bool
        ensures { result ≡ self.now.held.bad }
    {
        self.held.bad()
    }

    /// After `Line`, the number of words of the line, and 13 where they are more than 12.
    pub fn word_count(&self) -> u32
        ensures count { result ≡ self.now.held.count }
        ensures limits { AreCounted self.now.held.words self.now.held.count }
    {
        self.held.count()
    }

    /// After `Line`, word `k` of the line, counted from 0, or its first 21 bytes where it is
    /// longer.
    pub fn word(&self, k: u32) -> &[u8]
        requires counted { k < self.now.held.count }
        requires held { k < 12 }
        ensures { result.now ≡ slice_index_or self.now.held.words k [] }
    {
        self.held.word(k)
    }
}
