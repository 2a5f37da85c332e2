//! Printing of what presents a stabiliser: the tree of its level, the generators and the relators.
ghost use Rattle.std.specs.Prelude.{◌≡◌, ◌++◌, map, IfSome, OnOk};
ghost use Rattle.std.specs.List.{All};
ghost use Rattle.wh_lines.specs.Rows.{rows_text};
ghost use Rattle.wh_fields.specs.StabiliserFields.{HasNumber, generator_row, relator_row};
ghost use Rattle.wh_data.specs.AnswerData.{parts_of};
ghost use Rattle.wh_data.specs.PresentationTexts.{entry_rows, tree_rows, generator_rows, relator_rows, presentation_rows, HaveNumbers};

use crate::answer::{Loop, Parts};
use wh_fields::{print_generator, print_relator, print_tree_edge};
use wh_lines::print_number_row;
use wh_moves::Move;
use wh_words::OutOfMemory;

/// Writes the line of a vertex, where it has a parent.
#[tactic(auto, using(crate::proofs::PrintedPresentations::one_row))]
fn print_entry(
    out: &mut Vec<u8>,
    vertex: usize,
    entry: &Option<(usize, Move)>,
) -> Result<(), OutOfMemory>
    requires vertex { HasNumber vertex }
    requires parent { IfSome entry.now (λ s. HasNumber s.0) }
    ensures { OnOk result (out.new.items ≡ out.old.items ++ rows_text (entry_rows vertex entry.now)) }
{
    match entry {
        Some((parent, m)) => print_tree_edge(out, vertex, *parent, m),
        None => Ok(()),
    }
}

/// Writes the lines of a tree.
fn print_tree(out: &mut Vec<u8>, tree: &[Option<(usize, Move)>]) -> Result<(), OutOfMemory>
    requires { All (λ e. IfSome e (λ s. HasNumber s.0)) tree.now }
    ensures { OnOk result (out.new.items ≡ out.old.items ++ rows_text (tree_rows 0 tree.now)) }
{
    for vertex in 0..tree.len() {
        print_entry(out, vertex, &tree[vertex])?;
    }
    Ok(())
}

/// Writes the line of each generator.
fn print_each_generator(out: &mut Vec<u8>, generators: &[(usize, Move)]) -> Result<(), OutOfMemory>
    requires { All (λ g. HasNumber g.0) generators.now }
    ensures { OnOk result (out.new.items ≡ out.old.items ++ rows_text (map (λ g. generator_row g.0 g.1) generators.now)) }
{
    for (vertex, m) in generators {
        print_generator(out, *vertex, m)?;
    }
    Ok(())
}

/// Writes how many generators there are, and each of them.
fn print_generators(out: &mut Vec<u8>, generators: &[(usize, Move)]) -> Result<(), OutOfMemory>
    requires { All (λ g. HasNumber g.0) generators.now }
    ensures { OnOk result (out.new.items ≡ out.old.items ++ rows_text (generator_rows generators.now)) }
{
    print_number_row(out, b"generators", generators.len() as u64)?;
    print_each_generator(out, generators)
}

/// Writes the line of each relator.
fn print_each_relator(out: &mut Vec<u8>, relators: &[Loop]) -> Result<(), OutOfMemory>
    requires { All (λ r. HasNumber r.at) relators.now }
    ensures { OnOk result (out.new.items ≡ out.old.items ++ rows_text (map (λ r. relator_row r.at r.moves r.word) relators.now)) }
{
    for relator in relators {
        print_relator(out, relator.at, relator.moves.items(), relator.word.items())?;
    }
    Ok(())
}

/// Writes how many relators there are, and each of them.
fn print_relators(out: &mut Vec<u8>, relators: &[Loop]) -> Result<(), OutOfMemory>
    requires { All (λ r. HasNumber r.at) relators.now }
    ensures { OnOk result (out.new.items ≡ out.old.items ++ rows_text (relator_rows relators.now)) }
{
    print_number_row(out, b"relators", relators.len() as u64)?;
    print_each_relator(out, relators)
}

/// Writes the lines of the tree, the generators and the relators. The number of a vertex that is named, counted from 1, is
/// below 2 ^ 64. OutOfMemory comes where there is no memory for them.
pub fn print_presentation(out: &mut Vec<u8>, parts: &Parts) -> Result<(), OutOfMemory>
    requires { HaveNumbers (parts_of parts.now) }
    ensures { OnOk result (out.new.items ≡ out.old.items ++ rows_text (presentation_rows (parts_of parts.now))) }
{
    print_tree(out, parts.tree.items())?;
    print_generators(out, parts.generators.items())?;
    print_relators(out, parts.relators.items())?;
    Ok(())
}
