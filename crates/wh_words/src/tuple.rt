//! Tuples of cyclic words.
ghost use Rattle.std.specs.Prelude.{◌≡◌, ◌≢◌, true, ◌+◌, ◌<◌, ◌≤◌, [], length, map, slice_index_or, IfOk, IsOk};
ghost use Rattle.std.specs.List.{All, sum_by, concat};
ghost use Rattle.std.specs.Bool.{MatchBool};
ghost use Rattle.wh_words.specs.Limits.{most_rank, most_words, most_letters};
ghost use Rattle.wh_words.specs.Words.{IsOfRank};
ghost use Rattle.wh_words.specs.CyclicWords.{cyclic_word, IsCyclicallyReduced};
ghost use Rattle.wh_words.specs.Tuples.{tuple_cmp, tuple_length, IsRoomed, own_room, in_rooms_of, without_words, with_word, HasLetterRoom, HasWordRoom};
ghost use Rattle.wh_words.specs.Moves.{IsCut, IsKind, cut_move};
ghost use Rattle.wh_words.specs.Action.{act, substitute};
ghost use Rattle.wh_words.specs.Moves.Kind.{swap, invert};

use crate::OutOfMemory;
use crate::cyclic_word::{CyclicWord, strip_ends};
use crate::letter::Letter;
use crate::letter_set::LetterSet;
use crate::rank::Rank;
use crate::storage::{EndRun, LetterRun, end_word, fill_cuts, word_in};
use crate::word::Word;
use std::alloc::Global;
use std::cmp::Ordering;
use std::marker::Model;

/// A tuple of cyclic words of one rank: at most 64 words with at most 4,096 letters in all. Contracts see its data, which
/// is the rank and the list of its words, and its rooms, which are how many letters and how many words fit in it. Up to
/// 16 letters in up to 4 words need no memory of their own.
#[derive(Debug, Drop)]
pub struct Tuple {
    rank: Rank,
    letters: LetterRun,
    ends: EndRun,
    room: usize,
    word_room: usize,
}

impl Model for Tuple {
    ghost use Rattle.wh_words.specs.Tuples as spec;
    ghost use Rattle.wh_words.specs.Storage.{tuple_of, IsStored};

    ghost Value = { spec.Tuple };

    ghost view = { λ t. tuple_of t.rank t.ends.items t.letters.items t.room t.word_room };

    ghost invariant = { λ t. IsStored t.rank t.ends.items t.letters.items t.room t.word_room t.letters.capacity t.ends.capacity };
}

/// The letters of all words.
fn total_length(words: &[CyclicWord]) -> usize
    requires { sum_by length words.now ≤ most_letters }
    ensures { result ≡ sum_by length words.now }
{
    let mut total = 0;
    for word in words {
        total += word.letters().len();
    }
    total
}

/// The letters of the cyclic words of all words.
fn total_core(words: &[Word]) -> usize
    requires { sum_by length (map cyclic_word words.now) ≤ most_letters }
    ensures { result ≡ sum_by length (map cyclic_word words.now) }
{
    let mut total = 0;
    for word in words {
        total += strip_ends(word.letters()).len();
    }
    total
}

/// Whether two rows have the same rank, ends and letters.
#[tactic(auto, using(crate::proofs::SameTuples::slices_same, crate::proofs::SameTuples::slices_equal))]
fn are_same(
    rank: u8,
    other_rank: u8,
    ends: &[u16],
    other_ends: &[u16],
    letters: &[Letter],
    other_letters: &[Letter],
) -> bool
    ensures same { result ≡ true → (rank ≡ other_rank) × (ends.now ≡ other_ends.now) × (letters.now ≡ other_letters.now) }
    ensures apart { rank ≡ other_rank → ends.now ≡ other_ends.now → letters.now ≡ other_letters.now → result ≡ true }
{
    if rank != other_rank || ends != other_ends {
        return false;
    }
    letters == other_letters
}

impl Tuple {
    /// The tuple of the cyclic words of at most 64 words of the rank, whose cyclic words have at most 4,096 letters in
    /// all. It has room for itself alone. It always succeeds, and takes no memory, where there are at most 4 words with
    /// 16 letters.
    pub fn of(alloc: Global, rank: Rank, words: &[Word]) -> Result<Tuple, OutOfMemory>
        requires of_rank { All (IsOfRank rank) words.now }
        requires few { length words.now ≤ most_words }
        requires short { sum_by length (map cyclic_word words.now) ≤ most_letters }
        ensures made { IfOk result (λ t. t ≡ own_room (record { rank = rank; words = map cyclic_word words.now })) }
        ensures succeeds { length words.now ≤ 4 → sum_by length (map cyclic_word words.now) ≤ 16 → IsOk result }
    {
        let mut made = Tuple::with_room(alloc, rank, words.len(), total_core(words))?;
        for word in words {
            made.push_word(strip_ends(word.letters()));
        }
        Ok(made)
    }

    /// The tuple of at most 64 cyclic words of the rank with at most 4,096 letters in all. It has room for itself alone.
    /// It always succeeds, and takes no memory, where there are at most 4 words with 16 letters.
    #[tactic(auto, using(crate::proofs::MadeOfCyclic::made_start, crate::proofs::MadeOfCyclic::made_own))]
    pub fn of_cyclic(alloc: Global, rank: Rank, words: &[CyclicWord]) -> Result<Tuple, OutOfMemory>
        requires of_rank { All (IsOfRank rank) words.now }
        requires few { length words.now ≤ most_words }
        requires short { sum_by length words.now ≤ most_letters }
        ensures made { IfOk result (λ t. t ≡ own_room (record { rank = rank; words = words.now })) }
        ensures succeeds { length words.now ≤ 4 → sum_by length words.now ≤ 16 → IsOk result }
    {
        let mut made = Tuple::with_room(alloc, rank, words.len(), total_length(words))?;
        for word in words {
            made.push_word(word.letters());
        }
        Ok(made)
    }

    /// The order of two tuples, whatever their rooms are: by rank, then word by word; a proper prefix is smaller. It
    /// takes no memory.
    #[tactic(auto, using(crate::proofs::MadeOfCyclic::words_equal, crate::proofs::MadeOfCyclic::words_first, crate::proofs::MadeOfCyclic::words_start, crate::proofs::MadeOfCyclic::words_end))]
    pub fn compared(&self, other: &Tuple) -> Ordering
        ensures { result ≡ tuple_cmp self.now.plain other.now.plain }
    {
        let ranks = self.rank().get().cmp(&other.rank().get());
        if ranks != Ordering::Equal {
            return ranks;
        }
        let mut place = 0;
        while place < self.count() && place < other.count() {
            let words = self.word(place).cmp(&other.word(place));
            if words != Ordering::Equal {
                return words;
            }
            place += 1;
        }
        self.count().cmp(&other.count())
    }

    /// A tuple without words that has room for so many words, at most 64, and so many letters, at most 4,096. It always
    /// succeeds, and takes no memory, up to 4 words and 16 letters.
    #[tactic(auto, using(crate::proofs::Storing::empty_tuple))]
    pub fn with_room(
        alloc: Global,
        rank: Rank,
        words: usize,
        letters: usize,
    ) -> Result<Tuple, OutOfMemory>
        requires few { words ≤ most_words }
        requires short { letters ≤ most_letters }
        ensures made { IfOk result (λ t. t ≡ record { plain = record { rank = rank; words = [] }; room = letters; word_room = words }) }
        ensures succeeds { words ≤ 4 → letters ≤ 16 → IsOk result }
    {
        Ok(Tuple {
            rank,
            letters: LetterRun::with_room(alloc, letters)?,
            ends: EndRun::with_room(alloc, words)?,
            room: letters,
            word_room: words,
        })
    }

    /// The rank.
    pub fn rank(&self) -> Rank
        ensures rank { result ≡ self.now.plain.rank }
        ensures roomed { IsRoomed self.now }
    {
        self.rank
    }

    /// How many words there are.
    #[tactic(auto, using(crate::proofs::StoredWords::split_at_length))]
    pub fn count(&self) -> usize
        ensures count { result ≡ length self.now.plain.words }
        ensures roomed { IsRoomed self.now }
    {
        self.ends.len()
    }

    /// How many letters all words have together.
    #[tactic(auto, using(crate::proofs::StoredWords::split_at_total))]
    pub fn length(&self) -> u32
        ensures length { result ≡ tuple_length self.now.plain }
        ensures roomed { IsRoomed self.now }
    {
        self.letters.len() as u32
    }

    /// The letters of the word at a place, counted from 0.
    #[tactic(auto, using(crate::proofs::StoredWords::split_at_length))]
    pub fn word(&self, place: usize) -> &[Letter]
        requires { place < length self.now.plain.words }
        ensures value { result.now ≡ slice_index_or self.now.plain.words place [] }
        ensures roomed { IsRoomed self.now }
    {
        word_in(self.letters.as_slice(), self.ends.as_slice(), place)
    }

    /// The letters of all words in one row.
    #[tactic(auto, using(crate::proofs::StoredWords::split_at_concat))]
    pub fn letters(&self) -> &[Letter]
        ensures row { result.now ≡ concat self.now.plain.words }
        ensures roomed { IsRoomed self.now }
    {
        self.letters.as_slice()
    }

    /// How many letters fit in all: the number that `with_room` was asked for, or the tuple's own.
    pub fn room(&self) -> usize
        ensures { result ≡ self.now.room }
    {
        self.room
    }

    /// How many words fit in all.
    pub fn word_room(&self) -> usize
        ensures { result ≡ self.now.word_room }
    {
        self.word_room
    }

    /// An equal tuple, with room for itself alone. It always succeeds, and takes no memory, up to 4 words with 16 letters.
    #[tactic(auto, using(crate::proofs::StoredWords::split_at_length, crate::proofs::StoredWords::split_at_total))]
    pub fn copy(&self, alloc: Global) -> Result<Tuple, OutOfMemory>
        ensures same { IfOk result (λ t. t ≡ own_room self.now.plain) }
        ensures succeeds { length self.now.plain.words ≤ 4 → tuple_length self.now.plain ≤ 16 → IsOk result }
    {
        let letters = self.letters.copy(alloc)?;
        let ends = self.ends.copy(alloc)?;
        let room = letters.len();
        let word_room = ends.len();
        Ok(Tuple {
            rank: self.rank,
            letters,
            ends,
            room,
            word_room,
        })
    }

    /// Keeps room for the tuple itself alone. What memory it has stays with it.
    #[tactic(auto, using(crate::proofs::StoredWords::split_at_length, crate::proofs::StoredWords::split_at_total))]
    pub fn close_rooms(&mut self)
        ensures { self.new ≡ own_room self.old.plain }
    {
        self.room = self.letters.len();
        self.word_room = self.ends.len();
    }

    /// Takes all words out, makes the tuple one of a rank, and keeps its rooms.
    #[tactic(auto, using(crate::proofs::Storing::empty_tuple))]
    pub fn clear(&mut self, rank: Rank)
        ensures { self.new ≡ without_words rank self.old }
    {
        self.rank = rank;
        self.letters.clear();
        self.ends.clear();
    }

    /// Writes the image of a cyclic word under the swap of generators `k` and `k + 1` after the words. It has to fit; the
    /// rooms stay.
    fn push_swap(&mut self, word: &[Letter], k: u8)
        requires own { cyclic_word word.now ≡ word.now }
        requires of_rank { IsOfRank self.old.plain.rank word.now }
        requires is_swap { IsKind self.old.plain.rank (swap k) }
        requires within { self.old.plain.rank ≤ most_rank }
        requires letters { HasLetterRoom self.old (length (cyclic_word (substitute (swap k) word.now))) }
        requires place { HasWordRoom self.old }
        ensures { self.new ≡ with_word self.old (cyclic_word (substitute (swap k) word.now)) }
    {
        let start = self.letters.len();
        self.letters.push_swapped(word, k);
        end_word(&mut self.letters, &mut self.ends, start);
    }

    /// Writes the image of a cyclic word under the inversion of generator `k` after the words. It has to fit; the rooms
    /// stay.
    fn push_invert(&mut self, word: &[Letter], k: u8)
        requires own { cyclic_word word.now ≡ word.now }
        requires of_rank { IsOfRank self.old.plain.rank word.now }
        requires is_invert { IsKind self.old.plain.rank (invert k) }
        requires letters { HasLetterRoom self.old (length (cyclic_word (substitute (invert k) word.now))) }
        requires place { HasWordRoom self.old }
        ensures { self.new ≡ with_word self.old (cyclic_word (substitute (invert k) word.now)) }
    {
        let start = self.letters.len();
        self.letters.push_inverted(word, k);
        end_word(&mut self.letters, &mut self.ends, start);
    }

    /// Makes this the tuple after the swap of generators `k` and `k + 1`, and keeps the rooms, in which it has to fit.
    #[tactic(auto, using(crate::proofs::ActedRows::image_place, crate::proofs::ActedRows::image_more))]
    pub fn become_swapped(&mut self, tuple: &Tuple, k: u8)
        requires is_swap { IsKind tuple.now.plain.rank (swap k) }
        requires letters { tuple_length (act tuple.now.plain (record { rank = tuple.now.plain.rank; kind = swap k })) ≤ self.old.room }
        requires words { length tuple.now.plain.words ≤ self.old.word_room }
        ensures { self.new ≡ in_rooms_of self.old (act tuple.now.plain (record { rank = tuple.now.plain.rank; kind = swap k })) }
    {
        self.clear(tuple.rank());
        for place in 0..tuple.count() {
            self.push_swap(tuple.word(place), k);
        }
    }

    /// Makes this the tuple after the inversion of generator `k`, and keeps the rooms, in which it has to fit.
    #[tactic(auto, using(crate::proofs::ActedRows::image_place, crate::proofs::ActedRows::image_more))]
    pub fn become_inverted(&mut self, tuple: &Tuple, k: u8)
        requires is_invert { IsKind tuple.now.plain.rank (invert k) }
        requires letters { tuple_length (act tuple.now.plain (record { rank = tuple.now.plain.rank; kind = invert k })) ≤ self.old.room }
        requires words { length tuple.now.plain.words ≤ self.old.word_room }
        ensures { self.new ≡ in_rooms_of self.old (act tuple.now.plain (record { rank = tuple.now.plain.rank; kind = invert k })) }
    {
        self.clear(tuple.rank());
        for place in 0..tuple.count() {
            self.push_invert(tuple.word(place), k);
        }
    }

    /// Makes this the tuple after a cut of its rank, and keeps the rooms, in which it has to fit. The cut acts in one pass
    /// round each word (Lyndon and Schupp, I.4), and since nearly all moves of a level are cuts, on all words at once.
    pub fn become_cut(&mut self, tuple: &Tuple, mult: Letter, set: LetterSet)
        requires is_cut { IsCut tuple.now.plain.rank mult set }
        requires letters { tuple_length (act tuple.now.plain (cut_move tuple.now.plain.rank mult set)) ≤ self.old.room }
        requires words { length tuple.now.plain.words ≤ self.old.word_room }
        ensures { self.new ≡ in_rooms_of self.old (act tuple.now.plain (cut_move tuple.now.plain.rank mult set)) }
    {
        self.rank = tuple.rank;
        fill_cuts(
            &mut self.letters,
            &mut self.ends,
            tuple.letters.as_slice(),
            tuple.ends.as_slice(),
            mult,
            set,
        );
    }

    /// Writes the cyclic word of a cyclically reduced word after the words. It has to fit; the rooms stay.
    pub fn push_word(&mut self, word: &[Letter])
        requires reduced { IsCyclicallyReduced word.now }
        requires of_rank { IsOfRank self.old.plain.rank word.now }
        requires letters { HasLetterRoom self.old (length (cyclic_word word.now)) }
        requires place { HasWordRoom self.old }
        ensures { self.new ≡ with_word self.old (cyclic_word word.now) }
    {
        let start = self.letters.len();
        self.letters.push_letters(word);
        end_word(&mut self.letters, &mut self.ends, start);
    }

    /// Whether the ranks and the words are the same, whatever the rooms are.
    pub fn same(&self, other: &Tuple) -> bool
        ensures { MatchBool result (self.now.plain ≡ other.now.plain) (self.now.plain ≢ other.now.plain) }
    {
        are_same(
            self.rank.get(),
            other.rank.get(),
            self.ends.as_slice(),
            other.ends.as_slice(),
            self.letters.as_slice(),
            other.letters.as_slice(),
        )
    }
}
