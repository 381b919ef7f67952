//! What is held of a line that is fed byte by byte.
ghost use Rattle.std.specs.Prelude.{◌≡◌, ◌<◌, ◌≤◌, ◌+◌, min, length, slice_index_or, [], ◌∷◌, ◌++◌, take};
ghost use Rattle.text_terms.specs.Feeding.{no_line, end_word, add_content, add_byte};
ghost use Rattle.instance_text.specs.Plain.{plain_words, AreCounted};

use arrayvec::ArrayVec;
use std::marker::Model;
use std::mem;

/// What is held of a line begun, or of the line that ended last: at most 12 words of at most 21
/// bytes.
#[derive(Drop)]
pub struct HeldLine {
    bad: bool,
    in_comment: bool,
    // The last byte is a carriage return, which is dropped where the line ends behind it.
    pending_return: bool,
    word: ArrayVec<u8, 21>,
    words: ArrayVec<ArrayVec<u8, 21>, 12>,
    // The number of words, and 13 where they are more than 12.
    count: u32,
}

impl Model for HeldLine {
    ghost use Rattle.text_terms.specs.Feeding.{HeldLine as PlainLine};

    ghost Value = { PlainLine };

    ghost use Rattle.instance_text.specs.Plain.{plain_words, AreCounted};

    ghost view = { λ h. record {
      bad = h.bad;
      in_comment = h.in_comment;
      pending_return = h.pending_return;
      word = h.word.items;
      words = plain_words h.words;
      count = h.count;
    } };

    ghost invariant = { λ h. AreCounted (plain_words h.words) h.count };
}

// Appends a word, where there are fewer than 12.
fn push_word(words: &mut ArrayVec<ArrayVec<u8, 21>, 12>, word: ArrayVec<u8, 21>)
    ensures { plain_words words.new ≡ take 12 (plain_words words.old ++ word.items ∷ []) }
{
    if words.len() < 12 {
        words.push(word);
    }
}

// Appends a byte, where there are fewer than 21.
fn push_byte(word: &mut ArrayVec<u8, 21>, byte: u8)
    ensures { word.new.items ≡ take 21 (word.old.items ++ byte ∷ []) }
{
    if word.len() < 21 {
        word.push(byte);
    }
}

impl HeldLine {
    /// Nothing of a line.
    pub fn new() -> HeldLine
        ensures { result ≡ no_line }
    {
        HeldLine {
            bad: false,
            in_comment: false,
            pending_return: false,
            word: ArrayVec::new(),
            words: ArrayVec::new(),
            count: 0,
        }
    }

    /// Clears the line in place: this blanks the words that are held, where a new value would write
    /// all 12.
    pub fn clear(&mut self)
        ensures { self.new ≡ no_line }
    {
        self.bad = false;
        self.in_comment = false;
        self.pending_return = false;
        self.word.clear();
        self.words.clear();
        self.count = 0;
    }

    /// Ends the word begun, if there is one.
    pub fn end_word(&mut self)
        ensures { self.new ≡ end_word self.old }
    {
        if self.word.is_empty() {
            return;
        }
        let word = mem::replace(&mut self.word, ArrayVec::new());
        push_word(&mut self.words, word);
        self.count = (self.count + 1).min(13);
    }

    // Takes a byte of the content.
    fn add_content(&mut self, byte: u8)
        ensures { self.new ≡ add_content byte self.old }
    {
        if byte == b'\t' || byte == b' ' {
            self.end_word();
            return;
        }
        self.bad = self.bad | !(byte >= b'!' && byte <= b'~');
        push_byte(&mut self.word, byte);
    }

    /// Takes a byte of the line, which is no line feed.
    pub fn add_byte(&mut self, byte: u8)
        ensures { self.new ≡ add_byte byte self.old }
    {
        if self.in_comment {
            return;
        }
        if self.pending_return {
            self.pending_return = false;
            self.add_content(b'\r');
        }
        match byte {
            b'\r' => self.pending_return = true,
            b'#' => self.in_comment = true,
            _ => self.add_content(byte),
        }
    }

    /// Whether the content so far has a bad byte.
    pub fn bad(&self) -> bool
        ensures { result ≡ self.now.bad }
    {
        self.bad
    }

    /// The number of words that have ended, and 13 where they are more than 12.
    pub fn count(&self) -> u32
        ensures count { result ≡ self.now.count }
        ensures limits { AreCounted self.now.words self.now.count }
    {
        self.count
    }

    /// Word `k`, counted from 0, or its first 21 bytes where it is longer.
    pub fn word(&self, k: u32) -> &[u8]
        requires counted { k < self.now.count }
        requires held { k < 12 }
        ensures { result.now ≡ slice_index_or self.now.words k [] }
    {
        self.words[k as usize].as_slice()
    }
}
