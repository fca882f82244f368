//! Where bytes come from and where they go.
ghost use Rattle.std.specs.Prelude.{◌≡◌, ℕ, ◌<◌, ◌≤◌, List, length, IfOk, OnOk, OnErr, IfSome, IsErrOf};
ghost use Rattle.std.specs.declared.option.Option.{Option};
ghost use Rattle.std.specs.Io.{ReadsAtMost, WritesAtMost};
ghost use Rattle.std.specs.Io.KnownBytes.{ReadConsumes, WriteAppends, Consumes, Appends, IsAtEnd};
ghost use Rattle.git_base.specs.Faults.{HasCause, HasRisen};
ghost use Rattle.git_base.specs.Prefixes.{LosesPrefix, GrowsByPrefix};

use crate::{Failed, ReadError, WriteFault};
use std::alloc::Global;

/// Where bytes come from.
pub trait Source {
    /// The bytes still to come, where the source tells them.
    ghost left: { Self → Option (List ℕ) };

    /// How many reads have failed, at most 2^64 - 1.
    ghost faults: { Self → ℕ };

    /// Gives the next bytes at the front of `buf`, and answers how many.
    ///
    /// It gives 0 bytes only at the end or where `buf` is empty. A read that fails takes no byte,
    /// and raises the count of faults.
    fn read(&mut self, buf: &mut [u8]) -> Result<usize, Failed>
        ensures bound { ReadsAtMost result buf.new }
        ensures bytes { ReadConsumes (left self.old) (left self.new) result buf.new }
        ensures cause { HasCause (faults self.old) (faults self.new) result };
}

/// Where bytes go.
pub trait Sink {
    /// The bytes written so far, where the sink tells them.
    ghost written: { Self → Option (List ℕ) };

    /// How many writes have failed, at most 2^64 - 1.
    ghost faults: { Self → ℕ };

    /// Takes bytes from the front of `piece`, and answers how many.
    ///
    /// It takes 0 bytes only where `piece` is empty. A write that fails takes no byte, and raises
    /// the count of faults.
    fn write(&mut self, piece: &[u8]) -> Result<usize, Failed>
        ensures bound { WritesAtMost result piece.now }
        ensures some { IfOk result (λ n. 0 < length piece.now → 0 < n) }
        ensures bytes { WriteAppends (written self.old) (written self.new) result piece.now }
        ensures cause { HasCause (faults self.old) (faults self.new) result };
}

/// The bytes that are asked of a source at a time.
const PIECE: usize = 4096;

/// Reads a source to its end, where at most `limit` bytes come.
///
/// Refused with `ReadFault` where a read fails, with `TooLong` where more than `limit` bytes come,
/// and with `NoMemory`. The source has then lost the bytes that were read.
pub fn read_all<S: Source>(
    alloc: Global,
    source: &mut S,
    limit: usize,
) -> Result<Vec<u8>, ReadError>
    ensures all { IfOk result (λ v. Consumes (S.left source.old) (S.left source.new) v.items) }
    ensures exact { IfOk result (λ v. IfSome (S.left source.old) (λ bs. bs ≡ v.items)) }
    ensures end { OnOk result (IsAtEnd (S.left source.new)) }
    ensures within { IfOk result (λ v. length v.items ≤ limit) }

    ensures long { IsErrOf result ReadError.TooLong → IfSome (S.left source.old) (λ bs. limit < length bs) }
    ensures fault { IsErrOf result ReadError.ReadFault → HasRisen (S.faults source.old) (S.faults source.new) }

    // For every answer.
    ensures lost { LosesPrefix (S.left source.old) (S.left source.new) }
    ensures later { S.faults source.old ≤ S.faults source.new }
{
    let mut bytes = Vec::new(alloc);
    let mut buffer = [0u8; PIECE];
    loop {
        let Ok(count) = source.read(&mut buffer) else {
            return Err(ReadError::ReadFault);
        };
        if count == 0 {
            return Ok(bytes);
        }
        if limit - bytes.len() < count {
            return Err(ReadError::TooLong);
        }
        if bytes.extend_from_slice(&buffer[..count]).is_err() {
            return Err(ReadError::NoMemory);
        }
    }
}

/// Writes all of the bytes to a sink, and takes no memory.
///
/// Refused with `WriteFault` where a write fails. The sink has then taken the bytes before it.
pub fn write_all_of<K: Sink>(sink: &mut K, bytes: &[u8]) -> Result<(), WriteFault>
    ensures all { OnOk result (Appends (K.written sink.old) (K.written sink.new) bytes.now) }
    ensures fault { OnErr result (HasRisen (K.faults sink.old) (K.faults sink.new)) }

    // For every answer.
    ensures prefix { GrowsByPrefix (K.written sink.old) (K.written sink.new) bytes.now }
    ensures later { K.faults sink.old ≤ K.faults sink.new }
{
    let mut done = 0;
    while done < bytes.len() {
        let Ok(count) = sink.write(&bytes[done..]) else {
            return Err(WriteFault);
        };
        done += count;
    }
    Ok(())
}
