//! The line of a cube up to some literal, kept from one cube to the next: cubes in order often
//! begin with the same literals, whose words are then written once.
ghost use Rattle.std.specs.Prelude.{◌≡◌, ◌≢◌, ℤ, ◌<◌, ◌≤◌, ◌++◌, [], ◌∷◌, List, length, take, slice_index_or};
ghost use Rattle.std.specs.Bool.{OnTrue, OnFalse};
ghost use Rattle.cube_text.specs.Lines.{number_word};
ghost use Rattle.cube_text.specs.Fronts.{IsFrontOf, word_end};

use arrayvec::ArrayVec;
use std::marker::Model;

/// The most literals whose words are kept.
const KEPT_LITERALS: usize = 256;

/// The most bytes of the text that is kept.
const KEPT_TEXT: usize = 3072;

/// How many literals two lists both begin with. The time is that of these.
pub fn shared_front(c: &[i32], d: &[i32]) -> usize
    ensures within { result ≤ length c.now }
    ensures within_other { result ≤ length d.now }
    ensures same { take result c.now ≡ take result d.now }
    ensures differ { (x : ℤ) → result < length c.now → result < length d.now →
        slice_index_or c.now result x ≢ slice_index_or d.now result x }
{
    let end = c.len().min(d.len());
    for place in 0..end {
        if c[place] != d[place] {
            return place;
        }
    }
    end
}

/// The text of the first literals of a cube's line, with the place where each one's word ends.
#[derive(Drop)]
pub struct LineFront {
    text: ArrayVec<u8, KEPT_TEXT>,
    ends: ArrayVec<usize, KEPT_LITERALS>,
}

impl Model for LineFront {
    ghost use Rattle.cube_text.specs.Fronts.{FrontView};

    ghost Value = { FrontView };

    ghost view = { λ f. record { text = f.text.items; ends = f.ends.items } };
}

impl LineFront {
    /// A front of no literal, as each cube's line has it.
    pub fn make() -> LineFront
        ensures { (cube : List ℤ) → IsFrontOf cube result }
    {
        let mut text = ArrayVec::new();
        text.push(b'v');
        text.push(b' ');
        LineFront {
            text,
            ends: ArrayVec::new(),
        }
    }

    /// The text.
    pub fn text(&self) -> &[u8]
        ensures { result.now ≡ self.now.text }
    {
        self.text.as_slice()
    }

    /// How many literals it holds.
    pub fn count(&self) -> usize
        ensures { result ≡ length self.now.ends }
    {
        self.ends.len()
    }

    /// Keeps the first literals alone, so many of them.
    fn cut(&mut self, count: usize)
        requires { count ≤ length self.old.ends }
        ensures text { self.new.text ≡ take (word_end count self.old.ends) self.old.text }
        ensures ends { self.new.ends ≡ take count self.old.ends }
    {
        let end = if count == 0 { 2 } else { self.ends[count - 1] };
        self.text.truncate(end);
        self.ends.truncate(count);
    }

    /// Takes one literal more, where there is room for it.
    fn push(&mut self, number: i32) -> bool
        ensures pushed { OnTrue result (self.new ≡ record {
          text = self.old.text ++ number_word number;
          ends = self.old.ends ++ length (self.old.text ++ number_word number) ∷ [];
        }) }
        ensures full { OnFalse result (self.new ≡ self.old) }
    {
        let mut digits = itoa::Buffer::new();
        let word = digits.format(number).as_bytes();
        if self.ends.is_full() || word.len() >= self.text.remaining_capacity() {
            return false;
        }
        match self.text.try_extend_from_slice(word) {
            Ok(()) => {}
            Err(_) => return false,
        }
        self.text.push(b' ');
        self.ends.push(self.text.len());
        true
    }

    /// Takes the further literals of the cube, as far as there is room.
    fn extend(&mut self, cube: &[i32])
        requires { IsFrontOf cube.now self.old }
        ensures { IsFrontOf cube.now self.new }
    {
        for place in self.ends.len()..cube.len() {
            if !self.push(cube[place]) {
                return;
            }
        }
    }

    /// Goes on from the last cube to the next one: what both begin with stays. How many literals it
    /// holds then no clause says.
    pub fn turn_to(&mut self, last: &[i32], cube: &[i32])
        requires { IsFrontOf last.now self.old }
        ensures { IsFrontOf cube.now self.new }
    {
        let shared = shared_front(last, cube).min(self.ends.len());
        self.cut(shared);
        self.extend(cube);
    }
}
