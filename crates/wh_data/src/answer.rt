//! Answers.
ghost use Rattle.std.specs.Prelude.{◌≡◌, ◌≤◌};
ghost use Rattle.wh_data.specs.AnswerData.{answer_of};
ghost use Rattle.wh_data.specs.Numberings.{head_lines};
ghost use Rattle.wh_data.specs.Statuses.{verdict_status, stab_status, answer_status};

use crate::status::Status;
use wh_flow::Flow;
use wh_moves::Move;
use wh_words::{List, Tuple};

/// What an answer tells of one tuple.
#[derive(Drop)]
pub struct Side {
    /// The moves that shorten the tuple, first to last.
    pub trace: List<Move>,
    /// The tuple at the end of the trace.
    pub end: Tuple,
    /// For each generator a flow from it to its inverse in the graph of the end.
    pub flows: List<Flow>,
}

/// What was met that is too large.
#[derive(Clone, Copy, PartialEq, Eq, Debug)]
pub enum Bound {
    /// The tuples at the ends have this length, which is over 256.
    Length(u32),
    /// The level has more tuples than this limit.
    Level(u32),
    /// The level has more than 65,536 edges.
    Edges,
    /// The level has more than 393,216 relators.
    Relators,
}

/// Whether moves carry one tuple onto another. That a no means that none do is peak reduction (Lyndon and Schupp, I.4).
#[derive(Drop)]
pub enum Verdict {
    /// These moves carry the first tuple onto the second.
    Yes(List<Move>),
    /// A no: no cut shortens the ends of the two sides, and they have different lengths.
    NoLength(Side, Side),
    /// A no: no cut shortens the ends of the two sides, and the second isn't among these tuples, the level of the first.
    NoLevel(Side, Side, List<Tuple>),
    /// It isn't decided, for this bound.
    Undecided(Bound),
}

impl Verdict {
    /// How a run ends that writes the verdict.
    fn status(&self) -> Status
        ensures { result ≡ verdict_status self.now }
    {
        match self {
            Verdict::Yes(_) => Status::Done,
            Verdict::NoLength(_, _) => Status::No,
            Verdict::NoLevel(_, _, _) => Status::No,
            Verdict::Undecided(_) => Status::Undecided,
        }
    }
}

/// A relator: a way round the level from a vertex, and the numbers of the generators on it.
#[derive(Drop)]
pub struct Loop {
    /// The vertex, counted from 0.
    pub at: usize,
    /// The moves on the way, first to last.
    pub moves: List<Move>,
    /// The numbers of the generators on the way, counted from 1, first to last.
    pub word: List<u32>,
}

/// What presents the stabiliser of the end of a side (McCool 1975). Vertices are counted from 0.
#[derive(Drop)]
pub struct Parts {
    /// The vertices: the tuples of the level of the end, in order.
    pub vertices: List<Tuple>,
    /// For each vertex its parent in a tree, and the move that leads from there to it. The end, which is the root, has none.
    pub tree: List<Option<(usize, Move)>>,
    /// For each generator the vertex where its edge starts, and the move of the edge.
    pub generators: List<(usize, Move)>,
    /// The relators.
    pub relators: List<Loop>,
}

/// What is found of the stabiliser of a tuple.
#[derive(Drop)]
pub enum StabVerdict {
    /// The side of the tuple, and what presents the stabiliser by its end.
    Done(Side, Parts),
    /// It isn't made, for this bound.
    Undecided(Bound),
}

impl StabVerdict {
    /// How a run ends that writes what is found.
    fn status(&self) -> Status
        ensures { result ≡ stab_status self.now }
    {
        match self {
            StabVerdict::Done(_, _) => Status::Done,
            StabVerdict::Undecided(_) => Status::Undecided,
        }
    }
}

/// What a command answers.
#[derive(Drop)]
pub enum Answer {
    /// The tuple that was asked for, and its side.
    Reduce {
        tuple: Tuple,
        side: Side,
    },
    /// The two tuples that were asked for, and the verdict on them.
    Decide {
        first: Tuple,
        second: Tuple,
        verdict: Verdict,
    },
    /// The tuple and the moves that were asked for, the straight moves in their place, and the tuple that both lead to.
    Straighten {
        tuple: Tuple,
        given: List<Move>,
        moves: List<Move>,
        end: Tuple,
    },
    /// The tuple that was asked for, and what is found of its stabiliser.
    Stabiliser {
        tuple: Tuple,
        verdict: StabVerdict,
    },
}

impl Answer {
    /// How many lines its text has before the sides.
    pub fn head_lines(&self) -> usize
        ensures same { result ≡ head_lines (answer_of self.now) }
        ensures few { result ≤ 5 }
    {
        match self {
            Answer::Reduce { .. } => 3,
            Answer::Decide { .. } => 5,
            Answer::Straighten { .. } => 3,
            Answer::Stabiliser { .. } => 3,
        }
    }

    /// How a run ends that writes the answer: a no and an undecided verdict have a status of their own.
    pub fn status(&self) -> Status
        ensures { result ≡ answer_status self.now }
    {
        match self {
            Answer::Reduce { .. } => Status::Done,
            Answer::Decide { verdict, .. } => verdict.status(),
            Answer::Straighten { .. } => Status::Done,
            Answer::Stabiliser { verdict, .. } => verdict.status(),
        }
    }
}
