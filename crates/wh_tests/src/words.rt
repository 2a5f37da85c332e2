//! Words, cyclic words and tuples.
use crate::support::{are_spelled, letter, rank, tuple, word};
use std::alloc::Global;
use std::test::Fail;
use wh_words::{CyclicWord, LetterSet, List, Tuple};

/// Whether a text has this free reduction.
fn reduces_to(alloc: Global, text: &str, reduced: &str) -> Result<bool, Fail> {
    let word = word(alloc, text)?;
    Ok(are_spelled(word.letters(), reduced))
}

/// Whether texts have these free reductions.
fn reduce_to(alloc: Global, cases: &[(&str, &str)]) -> Result<bool, Fail> {
    for (text, reduced) in cases {
        if !reduces_to(alloc, text, reduced)? {
            return Ok(false);
        }
    }
    Ok(true)
}

#[test]
fn words_are_reduced(rt: HostRuntime) -> Result<(), Fail> {
    let cases = [
        ("", ""),
        ("aA", ""),
        ("abBAc", "c"),
        ("abBAaabAB", "aabAB"),
        ("aaaaaaaaaaaaaaaaaaaaaaaa", "aaaaaaaaaaaaaaaaaaaaaaaa"),
    ];
    assert!(rt; reduce_to(rt.alloc(), &cases)?);
    Ok(())
}

/// Whether a text has this cyclic word.
fn is_cyclically(alloc: Global, text: &str, cyclic: &str) -> Result<bool, Fail> {
    let word = word(alloc, text)?;
    let made = CyclicWord::of(alloc, &word)?;
    Ok(are_spelled(made.letters(), cyclic))
}

/// Whether texts have these cyclic words.
fn are_cyclically(alloc: Global, cases: &[(&str, &str)]) -> Result<bool, Fail> {
    for (text, cyclic) in cases {
        if !is_cyclically(alloc, text, cyclic)? {
            return Ok(false);
        }
    }
    Ok(true)
}

#[test]
fn cyclic_words_are_the_first_rotations(rt: HostRuntime) -> Result<(), Fail> {
    let cases = [
        ("", ""),
        ("bAB", "A"),
        ("BabAb", "b"),
        ("BAba", "aBAb"),
        ("baba", "abab"),
        ("aaCBcAcACb", "aaCBcAcACb"),
    ];
    assert!(rt; are_cyclically(rt.alloc(), &cases)?);
    Ok(())
}

/// Whether one word comes before another one.
fn comes_before(alloc: Global, less: &str, more: &str) -> Result<bool, Fail> {
    let less = word(alloc, less)?;
    let more = word(alloc, more)?;
    Ok(less < more)
}

/// Whether the first word of each pair comes before the second.
fn come_before(alloc: Global, cases: &[(&str, &str)]) -> Result<bool, Fail> {
    for (less, more) in cases {
        if !comes_before(alloc, less, more)? {
            return Ok(false);
        }
    }
    Ok(true)
}

#[test]
fn words_are_ordered_letter_by_letter(rt: HostRuntime) -> Result<(), Fail> {
    let cases = [("a", "A"), ("A", "b"), ("a", "ab"), ("", "a"), ("aB", "bA")];
    assert!(rt; come_before(rt.alloc(), &cases)?);
    Ok(())
}

#[test]
fn sets_have_their_letters(rt: HostRuntime) -> Result<(), Fail> {
    let a = letter(b'a')?;
    let b = letter(b'b')?;
    let set = LetterSet::empty().with(a).with(b.inverse());
    let bits = [
        set.bits(),
        set.complement(rank(2)).bits(),
        set.without(a).bits(),
    ];
    assert_eq!(rt; bits, [9, 6, 8]);
    assert_eq!(rt; [set.contains(b.inverse()), set.contains(b)], [true, false]);
    Ok(())
}

/// Whether a list has items, and how many it gives back.
fn given_back(alloc: Global, items: &[u8]) -> Result<(bool, usize), Fail> {
    let list = List::of(Vec::from_slice(alloc, items)?);
    let has = list.items() == items;
    Ok((has, list.into_items().len()))
}

#[test]
fn lists_give_their_items_back(rt: HostRuntime) -> Result<(), Fail> {
    assert_eq!(rt; given_back(rt.alloc(), &[1, 2, 3])?, (true, 3));
    Ok(())
}

/// Whether a tuple equals that of a problem text, by the operator and by the call.
fn equals(alloc: Global, one: &Tuple, other: &str) -> Result<(bool, bool), Fail> {
    let other = tuple(alloc, other)?;
    Ok((*one == other, one.same(&other)))
}

/// Whether a tuple of rank 3 equals that of a problem text.
fn is_equal(alloc: Global, other: &str) -> Result<(bool, bool), Fail> {
    let one = tuple(alloc, "rank 3\ntuple ab c\n")?;
    equals(alloc, &one, other)
}

/// Whether a tuple of rank 3 equals those of problem texts just where this is told.
fn are_equal(alloc: Global, cases: &[(&str, bool)]) -> Result<bool, Fail> {
    for (other, equal) in cases {
        let (by_operator, by_call) = is_equal(alloc, other)?;
        if by_operator != *equal || by_call != *equal {
            return Ok(false);
        }
    }
    Ok(true)
}

#[test]
fn tuples_are_compared_by_their_words(rt: HostRuntime) -> Result<(), Fail> {
    let cases = [
        ("rank 3\ntuple ba c\n", true),
        ("rank 3\ntuple c ab\n", false),
        ("rank 3\ntuple a bc\n", false),
        ("rank 3\ntuple ab\n", false),
        ("rank 4\ntuple ab c\n", false),
    ];
    assert!(rt; are_equal(rt.alloc(), &cases)?);
    Ok(())
}

/// How many words and how many letters the tuple of no words has.
fn empty_size(alloc: Global) -> Result<(usize, u32), Fail> {
    let empty = Tuple::of_cyclic(alloc, rank(3), &[])?;
    Ok((empty.count(), empty.length()))
}

#[test]
fn no_cyclic_words_make_the_empty_tuple(rt: HostRuntime) -> Result<(), Fail> {
    assert_eq!(rt; empty_size(rt.alloc())?, (0, 0));
    Ok(())
}
