//! Whole inputs and whole texts.
ghost use Rattle.std.specs.Prelude.{◌≡◌, ◌<◌, ◌^◌, IfOk, OnOk, OnErr};
ghost use Rattle.wh_io.specs.Device.{Consumed, counted};
ghost use Rattle.whitehead.specs.Streams.{read_count, IsWholeUpTo, IsPartRead, IsWritten, IsPartWritten};

use std::alloc::Global;
use thiserror::Error;
use wh_io::{Failed, Sink, Source};

/// Why an input could not be read.
#[derive(Clone, Copy, Debug, PartialEq, Eq, Error)]
pub enum InputError {
    /// The source failed.
    #[error("the input could not be read")]
    Fault,
    /// There was no memory.
    #[error("out of memory")]
    OutOfMemory,
}

/// The bytes of a source to its end, or to one byte past the limit.
///
/// `Fault` comes where the source failed, which is counted, and `OutOfMemory` where there was no memory. The source has
/// then given a prefix of its bytes, of one more than the limit at most, and the others are left.
pub fn read_all<S: Source>(
    alloc: Global,
    source: &mut S,
    limit: usize,
) -> Result<Vec<u8>, InputError>
    requires { limit < 2 ^ 32 }
    ensures bytes { IfOk result (λ v. Consumed (S.left source.old) (S.left source.new) v.items) }
    ensures whole { IfOk result (λ v. IsWholeUpTo limit v.items (S.left source.new)) }
    ensures part { OnErr result (IsPartRead limit (S.left source.old) (S.left source.new)) }
    ensures fault { S.fault_count source.new ≡ read_count (S.fault_count source.old) result }
{
    let mut bytes = Vec::new(alloc);
    let mut block = [0; 4096];
    'blocks: while bytes.len() <= limit {
        let room = block.len().min(limit + 1 - bytes.len());
        let Ok(count) = source.read(&mut block[..room]) else {
            return Err(InputError::Fault);
        };
        if count == 0 {
            return Ok(bytes);
        }
        bytes
            .extend_from_slice(&block[..count])
            .map_err(|_| InputError::OutOfMemory)?;
    }
    Ok(bytes)
}

/// Writes a whole text and flushes, so that the sink sent on all that it holds.
///
/// `Failed` comes where the sink failed, which is counted. It has then taken a prefix of the text.
pub fn write_all<K: Sink>(sink: &mut K, text: &[u8]) -> Result<(), Failed>
    ensures whole { OnOk result (IsWritten (K.held sink.old) (K.held sink.new) (K.sent sink.new) text.now) }
    ensures part { IsPartWritten (K.held sink.old) (K.held sink.new) text.now }
    ensures fault { K.fault_count sink.new ≡ counted (K.fault_count sink.old) result }
{
    let mut at = 0;
    'pieces: while at < text.len() {
        at += sink.write(&text[at..])?;
    }
    sink.flush()
}
