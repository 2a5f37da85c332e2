//! A run of the program.
ghost use Rattle.std.specs.Prelude.{◌≡◌, ℕ, List, Option, None, Some, map};
ghost use Rattle.clap.specs.Words.{Text};
ghost use Rattle.wh_io.specs.Device.{Consumed};
ghost use Rattle.whitehead.specs.Asked.{asked};
ghost use Rattle.whitehead.specs.Endings.{Finished};
ghost use Rattle.whitehead.specs.Streams.{IsWholeUpTo};
ghost use Rattle.whitehead.specs.Outcome as spec;
ghost use Rattle.whitehead.specs.Outcome.{RanTo, IsSilent, source_count, sink_count};

use crate::arguments::{Arguments, Task, WordsError, read_arguments};
use crate::reply::reply_to;
use crate::streams::{InputError, read_all, write_all};
use std::alloc::Global;
use wh_io::{Sink, Source};
use wh_text::{MOST_ANSWER_BYTES, MOST_PROBLEM_BYTES, Status, refused_words};
use wh_words::OutOfMemory;

/// How many bytes the input of a task may have.
fn most_input(task: Task) -> usize
    ensures { result ≡ spec.most_input task }
{
    match task {
        Task::Answer(_) => MOST_PROBLEM_BYTES,
        Task::Check => MOST_ANSWER_BYTES,
    }
}

/// Writes a text, and answers the status, or the fault of writing.
fn finish<K: Sink>(sink: &mut K, text: &[u8], status: Status) -> Status
    ensures { Finished (K.held sink.old) (K.held sink.new) (K.sent sink.new) (K.fault_count sink.old) (K.fault_count sink.new) text.now status result }
{
    match write_all(sink, text) {
        Ok(()) => status,
        Err(_) => Status::WriteFault,
    }
}

/// Writes the answer to the bytes that were read for what is asked, or their first refusal, to the sink.
fn tell<K: Sink>(alloc: Global, arguments: Arguments, bytes: &[u8], sink: &mut K) -> Status
    ensures ran { (words : List Text) (left left' : Option (List ℕ)) → asked words ≡ Some arguments → Consumed left left' bytes.now → IsWholeUpTo (spec.most_input arguments.task) bytes.now left' → RanTo words left left' (K.held sink.old) (K.held sink.new) (K.sent sink.new) result }
    ensures read_faults { (count : ℕ) → source_count count result ≡ count }
    ensures write_faults { K.fault_count sink.new ≡ sink_count (K.fault_count sink.old) result }
    ensures unwritten { IsSilent result → sink.new ≡ sink.old }
{
    match reply_to(alloc, arguments.task, arguments.limit, bytes) {
        Ok(reply) => finish(sink, reply.text.items(), reply.status),
        Err(OutOfMemory) => Status::OutOfMemory,
    }
}

/// Reads the whole source for what is asked, and writes the answer or the first refusal to the sink.
fn run_on<S: Source, K: Sink>(
    alloc: Global,
    arguments: Arguments,
    source: &mut S,
    sink: &mut K,
) -> Status
    ensures ran { (words : List Text) → asked words ≡ Some arguments → RanTo words (S.left source.old) (S.left source.new) (K.held sink.old) (K.held sink.new) (K.sent sink.new) result }
    ensures read_faults { S.fault_count source.new ≡ source_count (S.fault_count source.old) result }
    ensures write_faults { K.fault_count sink.new ≡ sink_count (K.fault_count sink.old) result }
    ensures unwritten { IsSilent result → sink.new ≡ sink.old }
{
    match read_all(alloc, source, most_input(arguments.task)) {
        Ok(bytes) => tell(alloc, arguments, &bytes, sink),
        Err(InputError::Fault) => Status::ReadFault,
        Err(InputError::OutOfMemory) => Status::OutOfMemory,
    }
}

/// Runs the program: reads its words, which stand after its name, then the whole source, and writes the answer or the
/// first refusal to the sink. The text stands whole in memory before the first byte is written.
///
/// Where the source tells its bytes and the sink what it holds and sent on, the clause `ran` says for `Done`, `No`,
/// `Refused` and `Undecided` that the sink grew by exactly the text that these words and these bytes are told, that it
/// sent on all that it holds, and that the source was read to its end or to one byte past 1,048,576, or past 67,108,864
/// for `check`. For `WriteFault` it grew by a prefix of such a text. For `ReadFault` and `OutOfMemory` the sink is as it
/// was, and a prefix of the source was read. `ReadFault` comes exactly where the source failed, and `WriteFault` where the
/// sink did: each fault is counted, and ends the run. Where the words are refused nothing is read.
pub fn run<S: Source, K: Sink>(
    alloc: Global,
    words: &[&str],
    source: &mut S,
    sink: &mut K,
) -> Status
    ensures ran { RanTo (map (λ w. w.now) words.now) (S.left source.old) (S.left source.new) (K.held sink.old) (K.held sink.new) (K.sent sink.new) result }
    ensures read_faults { S.fault_count source.new ≡ source_count (S.fault_count source.old) result }
    ensures write_faults { K.fault_count sink.new ≡ sink_count (K.fault_count sink.old) result }
    ensures unread { asked (map (λ w. w.now) words.now) ≡ None → source.new ≡ source.old }
    ensures unwritten { IsSilent result → sink.new ≡ sink.old }
{
    match read_arguments(alloc, words) {
        Ok(arguments) => run_on(alloc, arguments, source, sink),
        Err(WordsError::Refused) => finish(sink, refused_words(), Status::Refused),
        Err(WordsError::OutOfMemory) => Status::OutOfMemory,
    }
}
