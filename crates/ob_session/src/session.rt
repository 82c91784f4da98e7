ghost use Rattle.std.specs.Prelude.{◌≡◌, ◌≢◌, ◌+◌, ◌<◌, ◌≤◌, ◌^◌, ◌∷◌, [], IfErr, IfNone, Some, IfSome, OnOk, IsTrue, IsFalse};
ghost use Rattle.std.specs.Io.KnownBytes.{Appends, prepend_known};
ghost use Rattle.ob_io.specs.Outside.{Rose, AppendsFront};
ghost use Rattle.ob_session.specs.Answer.{answer, replies, open_world};
ghost use Rattle.ob_session.specs.Ends.{AllEnds, RunEnds, Refuses};
ghost use Rattle.ob_session.specs.Reading.{IsReading, IsBetween, IsOver, left_of};
ghost use Rattle.ob_session.specs.Show.{show};
ghost use Rattle.ob_session.specs.Sound.{IsSound};
ghost use Rattle.ob_session.specs.Step.{GoesOn, IsUnfed};
ghost use Rattle.ob_session.specs.Stops.{IsStop, IsEnd};
ghost use Rattle.ob_session.specs.Trace.{lines, end, exit_of, fed_lines, opened, finish_opened};

use crate::answer::{CommandError, open_line};
use crate::exit::Exit;
use crate::reply::Reply;
use crate::show::reply_text;
use crate::world::World;
use ob_base::Cause;
use ob_io::{LineReader, NextLine, Sink, Source, write_all};
use std::alloc::Global;

/// Writes a reply whole.
fn write_reply<K: Sink>(alloc: Global, reply: &Reply, sink: &mut K) -> Result<(), Exit>
    ensures ok { OnOk result (Appends (K.held sink.old) (K.held sink.new) (show reply.now)) }
    ensures cut { result ≡ Err Exit.WriteFault → AppendsFront (K.held sink.old) (K.held sink.new) (show reply.now) }
    ensures stopped { result ≡ Err Exit.NoMemory → K.held sink.new ≡ K.held sink.old }
    ensures causes { IfErr result IsStop }
    ensures fault { result ≡ Err Exit.WriteFault → Rose (K.faults sink.old) (K.faults sink.new) }
    ensures later { K.faults sink.old ≤ K.faults sink.new }
{
    let text = match reply_text(alloc, reply) {
        Ok(text) => text,
        Err(_) => return Err(Exit::NoMemory),
    };
    match write_all(sink, text.as_bytes()) {
        Ok(()) => Ok(()),
        Err(_) => Err(Exit::WriteFault),
    }
}

// Answers one line.
fn answer_line<K: Sink>(
    alloc: Global,
    world: &mut World,
    line: &[u8],
    sink: &mut K,
) -> Result<(), Exit>
    requires sound { IsSound world.old }
    requires number { world.old.ticks + 1 < 2 ^ 64 }
    ensures ok { OnOk result (Appends (K.held sink.old) (K.held sink.new) (show (answer world.old line.now).0)) }
    ensures world { OnOk result (world.new ≡ (answer world.old line.now).1) }
    ensures sound { IsSound world.new }
    ensures ticks { world.new.ticks ≤ world.old.ticks + 1 }
    ensures cut { result ≡ Err Exit.WriteFault → AppendsFront (K.held sink.old) (K.held sink.new) (show (answer world.old line.now).0) }
    ensures stopped { result ≡ Err Exit.NoMemory → K.held sink.new ≡ K.held sink.old }
    ensures causes { IfErr result IsStop }
    ensures fault { result ≡ Err Exit.WriteFault → Rose (K.faults sink.old) (K.faults sink.new) }
    ensures later { K.faults sink.old ≤ K.faults sink.new }
{
    match world.answer(alloc, line) {
        Ok(reply) => write_reply(alloc, &reply, sink),
        Err(_) => Err(Exit::NoMemory),
    }
}

// Takes the next line and answers it; none where the session goes on.
fn answer_next<S: Source, K: Sink>(
    alloc: Global,
    world: &mut World,
    reader: &mut LineReader,
    source: &mut S,
    sink: &mut K,
) -> Option<Exit>
    requires reading { IsReading reader.old }
    requires between { IsBetween world.old reader.old }
    ensures goes { IfNone result (GoesOn (left_of reader.old) (left_of reader.new)
        (prepend_known reader.old.kept (S.left source.old)) (prepend_known reader.new.kept (S.left source.new)) reader.new.ended
        world.old world.new (K.held sink.old) (K.held sink.new)) }
    ensures reading { IfNone result (IsReading reader.new) }
    ensures over { IfNone result (IfSome (prepend_known reader.old.kept (S.left source.old)) (λ b. IsOver reader.new (prepend_known reader.new.kept (S.left source.new)))) }
    ensures between { IfNone result (IsBetween world.new reader.new) }
    ensures onward { IfNone result (reader.old.handed < reader.new.handed) }
    ensures fed { IfNone result (IsFalse reader.old.ended) }
    ensures causes { IfSome result IsEnd }
    ensures done { IsTrue reader.old.ended → result ≡ Some Exit.Done }
    ensures kept { result ≡ Some Exit.ReadFault → IsUnfed reader.new.kept }
    ensures ends { IsOver reader.old (prepend_known reader.old.kept (S.left source.old)) → IfSome result (AllEnds
        (prepend_known reader.old.kept (S.left source.old)) (prepend_known reader.new.kept (S.left source.new))
        (λ b. replies world.old (lines (left_of reader.old) b)) (λ t. replies world.old (fed_lines t)) (λ b. exit_of (end (left_of reader.old) b)) (K.held sink.old) (K.held sink.new)) }
    ensures read_fault { result ≡ Some Exit.ReadFault → Rose (S.faults source.old) (S.faults source.new) }
    ensures write_fault { result ≡ Some Exit.WriteFault → Rose (K.faults sink.old) (K.faults sink.new) }
    ensures read_later { S.faults source.old ≤ S.faults source.new }
    ensures write_later { K.faults sink.old ≤ K.faults sink.new }
{
    match reader.next_line(source) {
        NextLine::Line(line) => match answer_line(alloc, world, line.as_slice(), sink) {
            Ok(()) => None,
            Err(exit) => Some(exit),
        },
        NextLine::End => Some(Exit::Done),
        NextLine::LineTooLong => Some(Exit::LineTooLong),
        NextLine::InputTooLong => Some(Exit::InputTooLong),
        NextLine::ReadFault => Some(Exit::ReadFault),
        NextLine::NoMemory => Some(Exit::NoMemory),
    }
}

// Answers the lines that come, to the end.
fn answer_lines<S: Source, K: Sink>(
    alloc: Global,
    world: World,
    reader: &mut LineReader,
    source: &mut S,
    sink: &mut K,
) -> Exit
    requires reading { IsReading reader.old }
    requires between { IsBetween world reader.old }
    ensures causes { IsEnd result }
    ensures done { IsTrue reader.old.ended → result ≢ Exit.ReadFault }
    ensures kept { result ≡ Exit.ReadFault → IsUnfed reader.new.kept }
    ensures ends { IsOver reader.old (prepend_known reader.old.kept (S.left source.old)) → AllEnds
        (prepend_known reader.old.kept (S.left source.old)) (prepend_known reader.new.kept (S.left source.new))
        (λ b. replies world (lines (left_of reader.old) b)) (λ t. replies world (fed_lines t)) (λ b. exit_of (end (left_of reader.old) b)) (K.held sink.old) (K.held sink.new) result }
    ensures read_fault { result ≡ Exit.ReadFault → Rose (S.faults source.old) (S.faults source.new) }
    ensures write_fault { result ≡ Exit.WriteFault → Rose (K.faults sink.old) (K.faults sink.new) }
    ensures read_later { S.faults source.old ≤ S.faults source.new }
    ensures write_later { K.faults sink.old ≤ K.faults sink.new }
{
    let mut world = world;
    'lines: loop {
        match answer_next(alloc, &mut world, reader, source, sink) {
            Some(exit) => return exit,
            None => {}
        }
    }
}

// The replies behind `ok`.
fn answer_world<S: Source, K: Sink>(
    alloc: Global,
    world: World,
    reader: &mut LineReader,
    source: &mut S,
    sink: &mut K,
) -> Exit
    requires reading { IsReading reader.old }
    requires between { IsBetween world reader.old }
    ensures causes { IsEnd result }
    ensures done { IsTrue reader.old.ended → result ≢ Exit.ReadFault }
    ensures kept { result ≡ Exit.ReadFault → IsUnfed reader.new.kept }
    ensures ends { IsOver reader.old (prepend_known reader.old.kept (S.left source.old)) → AllEnds
        (prepend_known reader.old.kept (S.left source.old)) (prepend_known reader.new.kept (S.left source.new))
        (λ b. Reply.Accepted ∷ replies world (lines (left_of reader.old) b)) (λ t. Reply.Accepted ∷ replies world (fed_lines t)) (λ b. exit_of (end (left_of reader.old) b)) (K.held sink.old) (K.held sink.new) result }
    ensures read_fault { result ≡ Exit.ReadFault → Rose (S.faults source.old) (S.faults source.new) }
    ensures write_fault { result ≡ Exit.WriteFault → Rose (K.faults sink.old) (K.faults sink.new) }
    ensures read_later { S.faults source.old ≤ S.faults source.new }
    ensures write_later { K.faults sink.old ≤ K.faults sink.new }
{
    match write_reply(alloc, &Reply::Accepted, sink) {
        Ok(()) => answer_lines(alloc, world, reader, source, sink),
        Err(exit) => exit,
    }
}

// The reply to a refused first line.
fn refuse_bundle<K: Sink>(alloc: Global, cause: Cause, sink: &mut K) -> Exit
    ensures ends { Refuses cause (K.held sink.old) (K.held sink.new) result }
    ensures write_fault { result ≡ Exit.WriteFault → Rose (K.faults sink.old) (K.faults sink.new) }
    ensures write_later { K.faults sink.old ≤ K.faults sink.new }
{
    match write_reply(alloc, &Reply::BadBundle(cause), sink) {
        Ok(()) => Exit::BadBundle,
        Err(exit) => exit,
    }
}

// The replies to the first line and those behind it.
fn answer_first<S: Source, K: Sink>(
    alloc: Global,
    line: &[u8],
    reader: &mut LineReader,
    source: &mut S,
    sink: &mut K,
) -> Exit
    requires reading { IsReading reader.old }
    ensures ends { IsOver reader.old (prepend_known reader.old.kept (S.left source.old)) → AllEnds
        (prepend_known reader.old.kept (S.left source.old)) (prepend_known reader.new.kept (S.left source.new))
        (λ b. opened (open_world line.now) (lines (left_of reader.old) b)) (λ t. opened (open_world line.now) (fed_lines t)) (λ b. finish_opened (open_world line.now) (exit_of (end (left_of reader.old) b)))
        (K.held sink.old) (K.held sink.new) result }
    ensures causes { result ≢ Exit.Usage }
    ensures done { IsTrue reader.old.ended → result ≢ Exit.ReadFault }
    ensures kept { result ≡ Exit.ReadFault → IsUnfed reader.new.kept }
    ensures read_fault { result ≡ Exit.ReadFault → Rose (S.faults source.old) (S.faults source.new) }
    ensures write_fault { result ≡ Exit.WriteFault → Rose (K.faults sink.old) (K.faults sink.new) }
    ensures read_later { S.faults source.old ≤ S.faults source.new }
    ensures write_later { K.faults sink.old ≤ K.faults sink.new }
{
    match open_line(alloc, line) {
        Ok(world) => answer_world(alloc, world, reader, source, sink),
        Err(CommandError::Refused(cause)) => refuse_bundle(alloc, cause, sink),
        Err(CommandError::NoMemory) => Exit::NoMemory,
    }
}

// A session over a reader that has taken nothing.
pub fn run_from<S: Source, K: Sink>(
    alloc: Global,
    reader: &mut LineReader,
    source: &mut S,
    sink: &mut K,
) -> Exit
    requires reading { IsReading reader.old }
    requires fresh { (reader.old.kept ≡ []) × (reader.old.handed ≡ 0) × IsFalse reader.old.ended }
    ensures ends { RunEnds (S.left source.old) (prepend_known reader.new.kept (S.left source.new)) (K.held sink.old) (K.held sink.new) result }
    ensures kept { result ≡ Exit.ReadFault → IsUnfed reader.new.kept }
    ensures read_fault { result ≡ Exit.ReadFault → Rose (S.faults source.old) (S.faults source.new) }
    ensures write_fault { result ≡ Exit.WriteFault → Rose (K.faults sink.old) (K.faults sink.new) }
    ensures read_later { S.faults source.old ≤ S.faults source.new }
    ensures write_later { K.faults sink.old ≤ K.faults sink.new }
{
    match reader.next_line(source) {
        NextLine::Line(line) => answer_first(alloc, line.as_slice(), reader, source, sink),
        NextLine::End => answer_first(alloc, &[], reader, source, sink),
        NextLine::LineTooLong => Exit::LineTooLong,
        NextLine::InputTooLong => Exit::InputTooLong,
        NextLine::ReadFault => Exit::ReadFault,
        NextLine::NoMemory => Exit::NoMemory,
    }
}
