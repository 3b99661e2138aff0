//! Reading a trace while its bytes come, and while a sink takes what was read.

ghost use Rattle.std.specs.Prelude.{◌≡◌, ◌≤◌, ◌<◌, ◌+◌, ◌^◌, ◌++◌, ℕ, IfErr};
ghost use Rattle.std.specs.Prelude.{IfOk, List, OnOk, flat_map, length};
ghost use Rattle.std.specs.Io.KnownBytes.{IsAtEnd};
ghost use Rattle.std.specs.Thread.{IsSync};
ghost use Rattle.kq_model.specs.declared.event.Event.{Event};
ghost use Rattle.kq_trace.specs.Blocks.{EndsWith, HasNothing, IsFaultSoFar, IsInputFault, IsNextBlock, IsNoLine};
ghost use Rattle.kq_trace.specs.Blocks.{IsReadWhole, IsTraceOf};
ghost use Rattle.kq_trace.specs.Rest.{lines_behind};
ghost use Rattle.kq_trace.specs.Sink.{HasTaken};
ghost use Rattle.kq_trace.specs.Source.{Ahead};
ghost use Rattle.kq_trace.specs.Unread.{AreRecordsFrom, IsFaultFrom};

use crate::TraceError;
use crate::block_part::part_of;
use crate::blocks::Blocks;
use crate::header::{FIRST_RECORD_LINE, opened};
use crate::input_error::InputError;
use crate::part::Part;
use crate::sink::Sink;
use crate::source::Source;
use kq_model::Memory;
use kq_threads::join_mut;
use std::alloc::Global;
use std::mem::{replace, swap};
use std::sync::Wait;
use std::thread::Threads;

/// Reads the trace that a source has, while it comes, and gives its records to the sink: the version that its header
/// names. By two threads and more the calling one has the sink take a part of the records, while another decodes what
/// came behind it, helped by as many as are asked for but two and the sink leaves, and then reads on; so no more of the
/// text is held than two blocks of it. By 0 and 1 the calling one does all, and so it does where the sink leaves none.
///
/// [`InputError::Read`]: a read failed, whatever is wrong with what came before. `Bad`: the first line that has a
/// fault, once all was read. `Memory` also comes where the sink answered it, and where the thread beside the calling
/// one does not start, or one that would have helped it, but for those of a pool. After an error nothing is known of
/// the sink, and part of the source is used up.
pub fn read_trace_into<R: AllocGlobal + Threads + Wait + Sync, S: Source + Send, K: Sink>(
    rt: &R,
    source: &mut S,
    threads: u32,
    sink: &mut K,
) -> Result<u32, InputError>
    requires { K.fresh sink.old }
    ensures good { IfOk result (λ version. (events : List Event)
        × IsTraceOf (S.ahead source.old) version events × K.took version sink.new events) }
    ensures end { OnOk result (IsAtEnd (S.ahead source.new).known) }
    ensures bad { IfErr result (IsInputFault S.may_fail (S.ahead source.old)) }
{
    let mut text = Text::new(rt.alloc(), threads)?;
    match read_blocks(rt, source, &mut text, threads, sink) {
        Ok(version) => Ok(version),
        Err(error) => Err(once_all_came(&mut text.coming, source, error)),
    }
}

/// An error, for which what is left is read where it is that of a line: then that may be the one that counts.
fn once_all_came<S: Source>(blocks: &mut Blocks, source: &mut S, error: InputError) -> InputError
    requires { (start : Ahead) × IsFaultSoFar S.may_fail start (S.ahead source.old) blocks.old error }
    ensures { (start : Ahead) → IsFaultSoFar S.may_fail start (S.ahead source.old) blocks.old error
        → IsInputFault S.may_fail start result }
{
    match error {
        InputError::Read => InputError::Read,
        InputError::Trace(TraceError::Memory) => InputError::Trace(TraceError::Memory),
        InputError::Trace(TraceError::Bad { line, fault }) => match blocks.drain(source) {
            Ok(()) => InputError::Trace(TraceError::Bad { line, fault }),
            Err(error) => error,
        },
    }
}

/// A text that comes in blocks: one is decoded while the next one comes.
#[derive(Drop)]
struct Text {
    coming: Blocks,
    block: Vec<u8>,
    next: Vec<u8>,
}

impl Text {
    /// None came yet, for so many threads.
    fn new(alloc: Global, threads: u32) -> Result<Self, Memory>
        ensures { IfOk result (λ text. HasNothing text.coming) }
    {
        Ok(Text {
            coming: Blocks::new(alloc, threads)?,
            block: Vec::new(alloc),
            next: Vec::new(alloc),
        })
    }
}

/// Records that were decoded and that the sink has still to take.
#[derive(Drop)]
struct Decoded {
    /// How many records it took before them.
    before: u64,
    part: Part,
}

/// Reads the trace block by block, up to the last one or a bad line.
fn read_blocks<R: AllocGlobal + Threads + Wait + Sync, S: Source + Send, K: Sink>(
    rt: &R,
    source: &mut S,
    text: &mut Text,
    threads: u32,
    sink: &mut K,
) -> Result<u32, InputError>
    requires nothing { HasNothing text.old.coming }
    requires fresh { K.fresh sink.old }
    ensures good { IfOk result (λ version. (events : List Event)
        × IsReadWhole (S.ahead source.old) (S.ahead source.new) text.new.coming version events
        × K.took version sink.new events) }
    ensures bad { IfErr result
        (IsFaultSoFar S.may_fail (S.ahead source.old) (S.ahead source.new) text.new.coming) }
{
    let alloc = rt.alloc();
    text.coming.next(source, &mut text.next)?;
    let (version, first) = opened(alloc, &text.next)?;
    sink.begin(version)?;
    let decoders = sink.decoders().at_most(threads.saturating_sub(1));
    let part = part_of(rt, FIRST_RECORD_LINE, first, decoders)?;
    text.coming.next(source, &mut text.block)?;
    let mut decoded = Decoded { before: 0, part };
    'rounds: while !decoded.part.is_empty() || !text.block.is_empty() {
        let before = decoded.before + decoded.part.len();
        let (read, next, taken) = round(rt, source, text, sink, &mut decoded, threads);
        read?;
        let part = next?;
        taken?;
        decoded = Decoded { before, part };
        swap(&mut text.block, &mut text.next);
    }
    Ok(version)
}

/// Reads the next block, decodes the one that came, and has the sink take the records of the one before: at the same
/// time where there is another thread for it, and else one after the other.
fn round<R: AllocGlobal + Threads + Wait + Sync, S: Source + Send, K: Sink>(
    rt: &R,
    source: &mut S,
    text: &mut Text,
    sink: &mut K,
    decoded: &mut Decoded,
    threads: u32,
) -> (
    Result<(), InputError>,
    Result<Part, TraceError>,
    Result<(), Memory>,
)
    requires before { HasTaken K.took decoded.old.before sink.old }
    requires few { decoded.old.before + length decoded.old.part ≤ 1000000 }
    requires ends { EndsWith text.old.coming (S.ahead source.old) }
    ensures block { OnOk result.0
        (IsNextBlock (S.ahead source.old) (S.ahead source.new) text.old.coming text.new.coming text.new.next.items) }
    ensures ends { OnOk result.0 (EndsWith text.new.coming (S.ahead source.new)) }
    ensures fault { IfErr result.0 (IsNoLine S.may_fail) }
    ensures part { IfOk result.1
        (AreRecordsFrom (2 + decoded.old.before + length decoded.old.part) (lines_behind text.old.block.items)) }
    ensures bad { IfErr result.1
        (IsFaultFrom (2 + decoded.old.before + length decoded.old.part) (lines_behind text.old.block.items)) }
    ensures taken { OnOk result.2 ((version : ℕ) (so_far : List Event) → length so_far ≡ decoded.old.before
        → K.took version sink.old so_far → K.took version sink.new (so_far ++ decoded.old.part)) }
{
    let Decoded { before, part } = decoded;
    let before = *before;
    let number = FIRST_RECORD_LINE + before + part.len();
    let alloc = rt.alloc();
    let mut pieces = part.take_pieces(alloc);
    let Text {
        coming,
        block,
        next,
    } = text;
    let decoders = sink.decoders().at_most(threads.saturating_sub(1));
    let mut prepare = ||
        requires { IsSync R.row × (number ≤ 1000002) × EndsWith coming.now (S.ahead source.now) }
        ensures part { IfOk result.1 (AreRecordsFrom number (lines_behind block.entry.now.items)) }
        ensures bad { IfErr result.1 (IsFaultFrom number (lines_behind block.entry.now.items)) }
        ensures block { OnOk result.0 (IsNextBlock (S.ahead source.entry.now) (S.ahead source.exit.now)
            coming.entry.now coming.exit.now next.exit.now.items) }
        ensures ends { OnOk result.0 (EndsWith coming.exit.now (S.ahead source.exit.now)) }
        ensures fault { IfErr result.0 (IsNoLine S.may_fail) }
    {
        let part = part_of(rt, number, block.as_slice(), decoders);
        (coming.next(source, next), part)
    };
    let mut take = ||
        requires { IsSync R.row × HasTaken K.took before sink.now
            × (before + length (flat_map (λ piece. piece.items) pieces.items) < 2 ^ 31) }
        ensures { OnOk result ((version : ℕ) (so_far : List Event) → length so_far ≡ before
            → K.took version sink.entry.now so_far
            → K.took version sink.exit.now (so_far ++ flat_map (λ piece. piece.items) pieces.entry.items)) }
    { sink.accept(rt, before, replace(&mut pieces, Vec::new(alloc))) };
    if decoders.most() == 0 {
        // Each takes what was made last, so that it still stands in the cache.
        let taken = take();
        let (read, part) = prepare();
        return (read, part, taken);
    }
    let joined = join_mut(rt, &mut prepare, &mut take);
    let (read, part) = joined.first;
    if !joined.has_started {
        return (read, part, Err(Memory));
    }
    (read, part, joined.second)
}
