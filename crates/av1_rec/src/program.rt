//! The run of a program: its words, where bytes come from and go to, how a run ends, and what it prints.
ghost use Rattle.std.specs.Prelude.{◌≡◌, ◌≤◌, ◌+◌, ◌^◌, map, length, false, true, IfSome, IfOk, Some, [], string_bytes};
ghost use Rattle.av1_rec.specs.Answer.{fault_answer, text_answer, grid_answer, answer_of, asked, IsOfText, IsOfOwnFrame, IsFaultless, Made, Finished, Answered};
ghost use Rattle.av1_rec.specs.Commands.{command_of, asks_for_text, makes_frame};
ghost use Rattle.av1_rec.specs.Told.{Rose, LosesCount};

pub(crate) mod commands;
pub(crate) mod generated;
pub(crate) mod grid_report;
pub(crate) mod group;
pub(crate) mod memory_sink;
pub(crate) mod memory_source;
pub(crate) mod refusals;
pub(crate) mod report;
pub(crate) mod sink;
pub(crate) mod source;
pub(crate) mod status;
pub(crate) mod std_streams;
pub(crate) mod summary;
pub(crate) mod transfer;

use crate::program::commands::Command;
use crate::program::generated::generated_answer;
use crate::program::grid_report::grid_report;
use crate::program::group::group;
use crate::program::refusals::{line_number, refused};
use crate::program::sink::{Sink, SinkError};
use crate::program::source::Source;
use crate::program::status::Status;
use crate::program::transfer::{ReadError, read_text, write_all};
use crate::text::fault::{Fault, TextError};
use crate::text::{text_of, tiled_header};
use av1_frame::Gate;
use std::alloc::{AllocError, Global};
use std::thread::Threads;

// Where a text is wrong or has no tiling.
fn fault_answer(alloc: Global, text: &[u8], fault: Fault) -> Result<(Status, Vec<u8>), AllocError>
    requires { length text.now ≤ 2 ^ 28 }
    ensures value { IfOk result (λ x. (x.0, x.1.items) ≡ fault_answer text.now fault) }
    ensures kind { IfOk result (λ x. IsOfText x.0) }
{
    match fault {
        Fault::NoTiling => refused(alloc, Status::NoTiling),
        Fault::Wrong(left) => {
            let line = line_number(text, left);
            refused(alloc, Status::Syntax { line })
        }
    }
}

// The answer to a text, with the report of its frame. The text is let go before the frame is coded.
#[tactic(auto, unfolding(crate::specs::Answer::text_answer))]
fn text_answer<R: Threads + Sync, G: Gate>(
    rt: &R,
    alloc: Global,
    text: Vec<u8>,
    workers: usize,
    gate: &G,
) -> Result<(Status, Vec<u8>), AllocError>
    requires { length text.items ≤ 2 ^ 28 }
    ensures value { IfOk result (λ x. (x.0, x.1.items) ≡ text_answer text.items) }
    ensures kind { IfOk result (λ x. IsOfText x.0) }
{
    match text_of(alloc, &text) {
        Ok(said) => {
            drop(text);
            group(rt, alloc, said, workers, gate)
        }
        Err(TextError::OutOfMemory) => Err(AllocError),
        Err(TextError::Fault(fault)) => fault_answer(alloc, &text, fault),
    }
}

// The answer to a text, with its tile grid.
#[tactic(auto, unfolding(crate::specs::Answer::grid_answer))]
fn grid_answer(alloc: Global, text: &[u8]) -> Result<(Status, Vec<u8>), AllocError>
    requires { length text.now ≤ 2 ^ 28 }
    ensures value { IfOk result (λ x. (x.0, x.1.items) ≡ grid_answer text.now) }
    ensures kind { IfOk result (λ x. IsOfText x.0) }
{
    match tiled_header(text) {
        Ok((_, tiling, _)) => Ok((Status::Done, grid_report(alloc, &tiling)?)),
        Err(TextError::OutOfMemory) => Err(AllocError),
        Err(TextError::Fault(fault)) => fault_answer(alloc, text, fault),
    }
}

// The answer to a command and a text.
fn answer_of<R: Threads + Sync, G: Gate>(
    rt: &R,
    alloc: Global,
    command: Command,
    text: Vec<u8>,
    gate: &G,
) -> Result<(Status, Vec<u8>), AllocError>
    requires { length text.items ≤ 2 ^ 28 }
    ensures value { IfOk result (λ x. (x.0, x.1.items) ≡ answer_of command text.items) }
    ensures kind { IfOk result (λ x. IsOfText x.0) }
{
    match command {
        Command::Group { workers } => text_answer(rt, alloc, text, workers as usize, gate),
        Command::Tiles => grid_answer(alloc, &text),
        Command::Gen { seed, workers } => {
            generated_answer(rt, alloc, seed, workers as usize, gate)
        }
    }
}

// The answer to the words and the source, where there is memory.
#[tactic(auto, unfolding(crate::specs::Answer::asked, crate::specs::Answer::input_answer))]
fn try_make<R: Threads + Sync, S: Source, G: Gate>(
    rt: &R,
    alloc: Global,
    words: &[String],
    source: &mut S,
    gate: &G,
) -> Result<(Status, Vec<u8>), AllocError>
    ensures made { let command = command_of (map string_bytes words.now) in IfOk result
        (λ x. Made command (asked command (S.left source.old))
        (Rose (S.faults source.old) (S.faults source.new)) x.0 x.1.items) }
    ensures drained { asks_for_text (command_of (map string_bytes words.now)) ≡ true
        → IfOk result (λ x. x.0 ≡ Status.Done
        → IfSome (S.left source.old) (λ _. S.left source.new ≡ Some [])) }
    ensures too_long { IfOk result (λ x. x.0 ≡ Status.TooLong
        → LosesCount (S.left source.old) (S.left source.new) (2 ^ 28 + 1)) }
    ensures quiet { S.is_quiet ≡ true → IfOk result (λ x. IsFaultless x.0
        → S.faults source.new ≡ S.faults source.old) }
    ensures unread { asks_for_text (command_of (map string_bytes words.now)) ≡ false
        → source.new ≡ source.old }
{
    let Some(command) = Command::from_words(words) else {
        return refused(alloc, Status::Usage);
    };
    if !command.reads() {
        return answer_of(rt, alloc, command, Vec::new(alloc), gate);
    }
    match read_text(alloc, source) {
        Ok(text) => answer_of(rt, alloc, command, text, gate),
        Err(ReadError::OutOfMemory) => Err(AllocError),
        Err(ReadError::Fault) => refused(alloc, Status::ReadFault),
        Err(ReadError::TooLong) => refused(alloc, Status::TooLong),
    }
}

// The answer to the words and the source, or that memory ran out.
fn make<R: Threads + Sync, S: Source, G: Gate>(
    rt: &R,
    alloc: Global,
    words: &[String],
    source: &mut S,
    gate: &G,
) -> (Status, Vec<u8>)
    ensures made { let command = command_of (map string_bytes words.now) in
        Made command (asked command (S.left source.old))
        (Rose (S.faults source.old) (S.faults source.new)) result.0 result.1.items }
    ensures drained { asks_for_text (command_of (map string_bytes words.now)) ≡ true
        → result.0 ≡ Status.Done
        → IfSome (S.left source.old) (λ _. S.left source.new ≡ Some []) }
    ensures too_long { result.0 ≡ Status.TooLong
        → LosesCount (S.left source.old) (S.left source.new) (2 ^ 28 + 1) }
    ensures quiet { S.is_quiet ≡ true → IsFaultless result.0
        → S.faults source.new ≡ S.faults source.old }
    ensures unread { asks_for_text (command_of (map string_bytes words.now)) ≡ false
        → source.new ≡ source.old }
{
    match try_make(rt, alloc, words, source, gate) {
        Ok(made) => made,
        Err(_) => (Status::OutOfMemory, Vec::new(alloc)),
    }
}

// Writes what is printed, and says how the run ends.
fn finish<K: Sink>(sink: &mut K, status: Status, printed: &[u8]) -> Status
    ensures written { Finished status printed.now (Rose (K.faults sink.old) (K.faults sink.new))
        (K.written sink.old) (K.written sink.new) result }
    ensures kept { IsFaultless result → result ≡ status }
    ensures quiet { K.is_quiet ≡ true → IsFaultless result
        → K.faults sink.new ≡ K.faults sink.old }
{
    match write_all(sink, printed) {
        Ok(()) => status,
        Err(SinkError::Failed) => Status::WriteFault,
        Err(SinkError::OutOfMemory) => Status::OutOfMemory,
    }
}

/// Runs the command in `words`, those behind the program's name, and writes what it prints to `sink`.
///
/// `group N` reads a text from `source` to its end, codes its tiles by N workers and writes the report of
/// its tile group. `tiles` reads a text to its end and writes the tile grid of its header. `gen K N` makes
/// a frame from K, codes it by N workers and writes its summary. It refuses nothing: it ends with `Done`,
/// without memory or with a failed write. It reads nothing, and so do other words.
/// The gate hears of each tile that a worker claims. What is written doesn't depend on N.
#[tactic(auto, using(crate::proofs::Ends::ends))]
pub fn run<R: Threads + Sync, S: Source, K: Sink, G: Gate>(
    rt: &R,
    alloc: Global,
    words: &[String],
    source: &mut S,
    sink: &mut K,
    gate: &G,
) -> Status
    ensures answered { let command = command_of (map string_bytes words.now) in
        Answered command (asked command (S.left source.old))
        (Rose (S.faults source.old) (S.faults source.new))
        (Rose (K.faults sink.old) (K.faults sink.new))
        (K.written sink.old) (K.written sink.new) result }
    ensures drained { asks_for_text (command_of (map string_bytes words.now)) ≡ true
        → result ≡ Status.Done
        → IfSome (S.left source.old) (λ _. S.left source.new ≡ Some []) }
    ensures too_long { result ≡ Status.TooLong
        → LosesCount (S.left source.old) (S.left source.new) (2 ^ 28 + 1) }
    ensures quiet_source { S.is_quiet ≡ true → IsFaultless result
        → S.faults source.new ≡ S.faults source.old }
    ensures quiet_sink { K.is_quiet ≡ true → IsFaultless result
        → K.faults sink.new ≡ K.faults sink.old }
    ensures unread { asks_for_text (command_of (map string_bytes words.now)) ≡ false
        → source.new ≡ source.old }
    ensures own_frame { makes_frame (command_of (map string_bytes words.now)) ≡ true
        → IsOfOwnFrame result }
{
    let (status, printed) = make(rt, alloc, words, source, gate);
    finish(sink, status, &printed)
}
