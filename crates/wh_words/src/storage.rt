//! Writing words into the runs of a tuple, within the room that is there. Nothing here takes memory but making a run.
ghost use Rattle.std.specs.Prelude.{◌≡◌, map, ◌+◌, ◌<◌, ◌≤◌, [], ◌∷◌, ◌++◌, length, slice_index_or, take, drop, IfOk, IsOk};
ghost use Rattle.smallvec.specs.SmallVec.{HasRoomFor};
ghost use Rattle.std.specs.Int.{bit_at};
ghost use Rattle.std.specs.List.{All, sum_by};
ghost use Rattle.wh_words.specs.Limits.{most_rank, most_letters};
ghost use Rattle.wh_words.specs.Letters.{inverse_letter};
ghost use Rattle.wh_words.specs.CyclicWords.{cyclic_word, least_rotation};
ghost use Rattle.wh_words.specs.Action.{substitute};
ghost use Rattle.wh_words.specs.Moves.Kind.{cut};
ghost use Rattle.wh_words.specs.Storage.{EndsRise, split_at, start_at, AreWritten};
ghost use Rattle.wh_words.specs.Images.{swap_letter, invert_letter};

use crate::letter::Letter;
use crate::letter_set::LetterSet;
use crate::pass::write_pass;
use crate::rotation::least_start;
use smallvec::SmallVec;
use std::alloc::{AllocError, Global};
use std::marker::Model;

/// How many words need no memory of their own.
pub(crate) const INLINE_WORDS: usize = 8;

/// How many places for letters need no memory of their own.
const INLINE_PLACES: usize = 24;

/// Letters in places that are there from the start. Contracts see the letters and how many fit. There is one place more,
/// so that a letter can be written before it is known whether it stays. Writing into places is much faster than pushing.
#[derive(Debug, Drop)]
pub(crate) struct LetterRun {
    places: SmallVec<Letter, INLINE_PLACES>,
    count: usize,
}

impl Model for LetterRun {
    ghost use Rattle.std.specs.Prelude.{ℕ, ◌-◌, ◌<◌, length, take};
    ghost use Rattle.smallvec.specs.SmallVec as seen;

    ghost Value = { seen.SmallVec ℕ };

    ghost view = { λ r. record { items = take r.count r.places.items; capacity = length r.places.items - 1 } };

    ghost invariant = { λ r. r.count < length r.places.items };
}

/// Writes a word at a place, and answers the place behind it.
fn write_letters(out: &mut [Letter], at: usize, word: &[Letter]) -> usize
    requires { at + length word.now ≤ length out.old }
    ensures written { take result out.new ≡ take at out.old ++ word.now }
    ensures place { result ≡ at + length word.now }
    ensures same_length { length out.new ≡ length out.old }
{
    let mut next = at;
    for x in word {
        out[next] = *x;
        next += 1;
    }
    next
}

/// Writes a word with generators `k` and `k + 1` exchanged at a place, and answers the place behind it.
fn write_swapped(out: &mut [Letter], at: usize, word: &[Letter], k: u8) -> usize
    requires least { 0 < k }
    requires below { k < most_rank }
    requires room { at + length word.now ≤ length out.old }
    ensures written { take result out.new ≡ take at out.old ++ map (swap_letter k) word.now }
    ensures place { result ≡ at + length word.now }
    ensures same_length { length out.new ≡ length out.old }
{
    let mut next = at;
    for x in word {
        out[next] = x.swapped(k);
        next += 1;
    }
    next
}

/// Writes a word with generator `k` inverted at a place, and answers the place behind it.
fn write_inverted(out: &mut [Letter], at: usize, word: &[Letter], k: u8) -> usize
    requires { at + length word.now ≤ length out.old }
    ensures written { take result out.new ≡ take at out.old ++ map (invert_letter k) word.now }
    ensures place { result ≡ at + length word.now }
    ensures same_length { length out.new ≡ length out.old }
{
    let mut next = at;
    for x in word {
        out[next] = x.inverted(k);
        next += 1;
    }
    next
}

/// Turns a word to its first rotation.
fn turn(word: &mut [Letter])
    ensures { word.new ≡ least_rotation word.old }
{
    let start = least_start(word);
    if start > 0 {
        word.rotate_left(start);
    }
}

/// Turns the word between two places to its first rotation.
fn turn_between(places: &mut [Letter], start: usize, end: usize)
    requires order { start ≤ end }
    requires within { end ≤ length places.old }
    ensures turned { take end places.new ≡ take start (take end places.old) ++ least_rotation (drop start (take end places.old)) }
    ensures same_length { length places.new ≡ length places.old }
{
    turn(&mut places[start..end]);
}

impl LetterRun {
    /// No letters, with room for so many.
    pub(crate) fn with_room(alloc: Global, room: usize) -> Result<LetterRun, AllocError>
        requires { room ≤ most_letters }
        ensures items { IfOk result (λ r. r.items ≡ []) }
        ensures capacity { IfOk result (λ r. r.capacity ≡ room) }
        ensures succeeds { room ≤ 16 → IsOk result }
    {
        Ok(LetterRun {
            places: SmallVec::from_elem(alloc, Letter::default(), room + 1)?,
            count: 0,
        })
    }

    /// The same letters, with room for them alone.
    pub(crate) fn copy(&self, alloc: Global) -> Result<LetterRun, AllocError>
        requires { length self.now.items ≤ most_letters }
        ensures items { IfOk result (λ r. r.items ≡ self.now.items) }
        ensures capacity { IfOk result (λ r. r.capacity ≡ length self.now.items) }
        ensures succeeds { length self.now.items ≤ 16 → IsOk result }
    {
        let mut copy = LetterRun::with_room(alloc, self.len())?;
        copy.push_letters(self.as_slice());
        Ok(copy)
    }

    /// How many letters there are.
    pub(crate) fn len(&self) -> usize
        ensures value { result ≡ length self.now.items }
        ensures within { length self.now.items ≤ self.now.capacity }
    {
        self.count
    }

    /// The letters.
    pub(crate) fn as_slice(&self) -> &[Letter]
        ensures { result.now ≡ self.now.items }
    {
        &self.places[..self.count]
    }

    /// Takes all letters out.
    pub(crate) fn clear(&mut self)
        ensures items { self.new.items ≡ [] }
        ensures capacity { self.new.capacity ≡ self.old.capacity }
    {
        self.count = 0;
    }

    /// Writes a word behind the letters.
    pub(crate) fn push_letters(&mut self, word: &[Letter])
        requires { HasRoomFor self.old (length word.now) }
        ensures items { self.new.items ≡ self.old.items ++ word.now }
        ensures capacity { self.new.capacity ≡ self.old.capacity }
    {
        self.count = write_letters(self.places.as_mut_slice(), self.count, word);
    }

    /// Writes a word with generators `k` and `k + 1` exchanged behind the letters.
    pub(crate) fn push_swapped(&mut self, word: &[Letter], k: u8)
        requires least { 0 < k }
        requires below { k < most_rank }
        requires room { HasRoomFor self.old (length word.now) }
        ensures items { self.new.items ≡ self.old.items ++ map (swap_letter k) word.now }
        ensures capacity { self.new.capacity ≡ self.old.capacity }
    {
        self.count = write_swapped(self.places.as_mut_slice(), self.count, word, k);
    }

    /// Writes a word with generator `k` inverted behind the letters.
    pub(crate) fn push_inverted(&mut self, word: &[Letter], k: u8)
        requires { HasRoomFor self.old (length word.now) }
        ensures items { self.new.items ≡ self.old.items ++ map (invert_letter k) word.now }
        ensures capacity { self.new.capacity ≡ self.old.capacity }
    {
        self.count = write_inverted(self.places.as_mut_slice(), self.count, word, k);
    }

    /// Turns the word from `start` on to its first rotation.
    fn turn_from(&mut self, start: usize)
        requires { start ≤ length self.old.items }
        ensures items { self.new.items ≡ take start self.old.items ++ least_rotation (drop start self.old.items) }
        ensures capacity { self.new.capacity ≡ self.old.capacity }
    {
        turn_between(self.places.as_mut_slice(), start, self.count);
    }
}

/// The places where words end, in places that are there from the start. Contracts see the ends and how many fit.
#[derive(Debug, Drop)]
pub(crate) struct EndRun {
    places: SmallVec<u16, INLINE_WORDS>,
    count: usize,
}

impl Model for EndRun {
    ghost use Rattle.std.specs.Prelude.{ℕ, ◌≤◌, length, take};
    ghost use Rattle.smallvec.specs.SmallVec as seen;

    ghost Value = { seen.SmallVec ℕ };

    ghost view = { λ r. record { items = take r.count r.places.items; capacity = length r.places.items } };

    ghost invariant = { λ r. r.count ≤ length r.places.items };
}

impl EndRun {
    /// No ends, with room for so many.
    pub(crate) fn with_room(alloc: Global, room: usize) -> Result<EndRun, AllocError>
        ensures items { IfOk result (λ r. r.items ≡ []) }
        ensures capacity { IfOk result (λ r. r.capacity ≡ room) }
        ensures succeeds { room ≤ 4 → IsOk result }
    {
        Ok(EndRun {
            places: SmallVec::from_elem(alloc, 0, room)?,
            count: 0,
        })
    }

    /// The same ends, with room for them alone.
    pub(crate) fn copy(&self, alloc: Global) -> Result<EndRun, AllocError>
        ensures items { IfOk result (λ r. r.items ≡ self.now.items) }
        ensures capacity { IfOk result (λ r. r.capacity ≡ length self.now.items) }
        ensures succeeds { length self.now.items ≤ 4 → IsOk result }
    {
        Ok(EndRun {
            places: SmallVec::from_slice(alloc, self.as_slice())?,
            count: self.len(),
        })
    }

    /// How many ends there are.
    pub(crate) fn len(&self) -> usize
        ensures { result ≡ length self.now.items }
    {
        self.count
    }

    /// The ends.
    pub(crate) fn as_slice(&self) -> &[u16]
        ensures { result.now ≡ self.now.items }
    {
        &self.places[..self.count]
    }

    /// Takes all ends out.
    pub(crate) fn clear(&mut self)
        ensures items { self.new.items ≡ [] }
        ensures capacity { self.new.capacity ≡ self.old.capacity }
    {
        self.count = 0;
    }

    /// Writes an end behind the others.
    fn push(&mut self, end: u16)
        requires { HasRoomFor self.old 1 }
        ensures items { self.new.items ≡ self.old.items ++ end ∷ [] }
        ensures capacity { self.new.capacity ≡ self.old.capacity }
    {
        self.places[self.count] = end;
        self.count += 1;
    }
}

/// Where the word at a place begins.
#[tactic(auto, using(crate::proofs::StoredWords::start_more))]
fn start_of(ends: &[u16], place: usize) -> usize
    requires { place ≤ length ends.now }
    ensures { result ≡ start_at 0 ends.now place }
{
    if place == 0 {
        0
    } else {
        ends[place - 1] as usize
    }
}

/// The word at a place.
#[tactic(auto, using(crate::proofs::StoredWords::split_at_get, crate::proofs::StoredWords::ends_rise_at))]
pub(crate) fn word_in<'a>(letters: &'a [Letter], ends: &[u16], place: usize) -> &'a [Letter]
    requires laid { EndsRise 0 ends.now (length letters.now) }
    requires within { place < length ends.now }
    ensures { result.now ≡ slice_index_or (split_at 0 ends.now letters.now) place [] }
{
    &letters[start_of(ends, place)..ends[place] as usize]
}

/// Ends the word that begins at `start`: it is turned to its first rotation, and its end is written.
#[tactic(auto, using(crate::proofs::Storing::end_split, crate::proofs::Storing::end_length))]
pub(crate) fn end_word(letters: &mut LetterRun, ends: &mut EndRun, start: usize)
    requires within { start ≤ length letters.old.items }
    requires short { length letters.old.items ≤ most_letters }
    requires room { HasRoomFor ends.old 1 }
    ensures items { letters.new.items ≡ take start letters.old.items ++ least_rotation (drop start letters.old.items) }
    ensures ends { ends.new.items ≡ ends.old.items ++ length letters.old.items ∷ [] }
    ensures capacity { letters.new.capacity ≡ letters.old.capacity }
    ensures ends_capacity { ends.new.capacity ≡ ends.old.capacity }
{
    letters.turn_from(start);
    ends.push(letters.len() as u16);
}

/// Writes the image of a cyclic word under a cut at a place, and answers the place behind it. There has to be one place
/// more than the image needs.
fn write_cut(out: &mut [Letter], at: usize, word: &[Letter], mult: Letter, set: LetterSet) -> usize
    requires own { cyclic_word word.now ≡ word.now }
    requires holds { bit_at set mult ≡ 1 }
    requires omits { bit_at set (inverse_letter mult) ≡ 0 }
    requires room { at + length (cyclic_word (substitute (cut mult set) word.now)) < length out.old }
    ensures written { take result out.new ≡ take at out.old ++ cyclic_word (substitute (cut mult set) word.now) }
    ensures place { result ≡ at + length (cyclic_word (substitute (cut mult set) word.now)) }
    ensures same_length { length out.new ≡ length out.old }
{
    let end = write_pass(out, at, word, mult, set);
    turn_between(out, at, end);
    end
}

/// Writes the images of cyclic words under a cut, each with its end, and answers the place behind them. There has to be
/// one place more than the images need.
#[tactic(auto, using(crate::proofs::CutRows::images_start))]
fn write_cuts(
    out: &mut [Letter],
    marks: &mut [u16],
    from: &[Letter],
    ends: &[u16],
    mult: Letter,
    set: LetterSet,
) -> usize
    requires laid { EndsRise 0 ends.now (length from.now) }
    requires own { All (λ w. cyclic_word w ≡ w) (split_at 0 ends.now from.now) }
    requires holds { bit_at set mult ≡ 1 }
    requires omits { bit_at set (inverse_letter mult) ≡ 0 }
    requires room { sum_by length (map (λ w. cyclic_word (substitute (cut mult set) w)) (split_at 0 ends.now from.now)) < length out.old }
    requires short { sum_by length (map (λ w. cyclic_word (substitute (cut mult set) w)) (split_at 0 ends.now from.now)) ≤ most_letters }
    requires places { length ends.now ≤ length marks.old }
    ensures written { AreWritten mult set ends.now from.now (length ends.now) result marks.new out.new }
    ensures same_length { length out.new ≡ length out.old }
    ensures same_places { length marks.new ≡ length marks.old }
{
    let mut at = 0;
    for place in 0..ends.len() {
        at = write_cut(out, at, word_in(from, ends, place), mult, set);
        marks[place] = at as u16;
    }
    at
}

/// Makes runs those of the images of cyclic words under a cut.
pub(crate) fn fill_cuts(
    letters: &mut LetterRun,
    marks: &mut EndRun,
    from: &[Letter],
    ends: &[u16],
    mult: Letter,
    set: LetterSet,
)
    requires laid { EndsRise 0 ends.now (length from.now) }
    requires own { All (λ w. cyclic_word w ≡ w) (split_at 0 ends.now from.now) }
    requires holds { bit_at set mult ≡ 1 }
    requires omits { bit_at set (inverse_letter mult) ≡ 0 }
    requires room { sum_by length (map (λ w. cyclic_word (substitute (cut mult set) w)) (split_at 0 ends.now from.now)) ≤ letters.old.capacity }
    requires short { sum_by length (map (λ w. cyclic_word (substitute (cut mult set) w)) (split_at 0 ends.now from.now)) ≤ most_letters }
    requires places { length ends.now ≤ marks.old.capacity }
    ensures words { split_at 0 marks.new.items letters.new.items ≡ map (λ w. cyclic_word (substitute (cut mult set) w)) (split_at 0 ends.now from.now) }
    ensures laid { EndsRise 0 marks.new.items (length letters.new.items) }
    ensures capacity { letters.new.capacity ≡ letters.old.capacity }
    ensures ends_capacity { marks.new.capacity ≡ marks.old.capacity }
{
    letters.count = write_cuts(
        letters.places.as_mut_slice(),
        marks.places.as_mut_slice(),
        from,
        ends,
        mult,
        set,
    );
    marks.count = ends.len();
}
