ghost use Rattle.std.specs.Prelude.{◌≡◌, ◌≢◌, ◌≤◌, ℕ, None, false, map, IfOk, IfSome};
ghost use Rattle.std.specs.Result.{IsErrOf};
ghost use Rattle.std.specs.String.{string_bytes};
ghost use Rattle.std.specs.Io.KnownBytes.{Keeps};
ghost use Rattle.std.specs.Thread.{IsSync};
ghost use Rattle.outer_world.specs.Faults.{Rose};
ghost use Rattle.command_words.specs.Command.{command as command_of};
ghost use Rattle.command_words.specs.Options.{AreWorkers};
ghost use Rattle.plan_solver.specs.SoundEnclosures.{AreEnclosuresBy};
ghost use Rattle.hypercube_cli.specs.Commands.{meaning_of};
ghost use Rattle.hypercube_cli.specs.Endings.{usage_ending};
ghost use Rattle.hypercube_cli.specs.Meanings.{texts_for};
ghost use Rattle.hypercube_cli.specs.Refusals.{WantsMemory};
ghost use Rattle.hypercube_cli.specs.Runs.{Answers, ComesFrom, Finishes, FinishesAs, Runs, WritesProved};
ghost use Rattle.hypercube_cli.specs.Untouched.{IsUntouched};
ghost use Rattle.hypercube_cli.specs.declared.refusal.Refusal.{Refusal};

use crate::Outcome;
use crate::answer::Answer;
use crate::enclosing::{enclose, processors_for};
use crate::lines::refusal_text;
use crate::stop::Stop;
use crate::tasks::{Job, Task};
use command_words::{USAGE, WordsEnd, read_words};
use hyper_model::{Enclosures, Method, Plan};
use outer_world::{Shelf, Sink, WriteEnd, write_text};
use rate_matrix::Gate;
use std::alloc::{AllocError, Global};
use std::thread::Threads;

/// Runs the command that the arguments give: reads its texts off the shelf, and writes one text to the sink.
///
/// `words` are the arguments after the program's name. The runtime starts as many workers as they ask for, and the gate
/// computes each entry that an elimination changes; neither has a part in the outcome or the text.
pub fn hypercube<R: Threads + Sync, S: Shelf, K: Sink, G: Gate + Sync>(
    rt: &R,
    alloc: Global,
    words: &[String],
    shelf: &mut S,
    sink: &mut K,
    gate: &G,
) -> Outcome
    // What comes of it, and what is written: over the texts that the shelf tells, and over every shelf for a command that
    // reads none.
    ensures ending { let asked = meaning_of (command_of (map string_bytes words.now)) in
        IfSome (texts_for asked (S.told shelf.old)) (λ texts.
        Runs (asked.ends texts) result (K.taken sink.old) (K.taken sink.new)) }
    ensures proved { let asked = meaning_of (command_of (map string_bytes words.now)) in
        IfSome (texts_for asked (S.told shelf.old)) (λ texts. result ≡ Outcome.Done →
        WritesProved (asked.proves texts) (K.taken sink.old) (K.taken sink.new)) }

    // The causes of each ending that no text can tell of.
    ensures no_command { command_of (map string_bytes words.now) ≡ None →
        Finishes usage_ending result (K.taken sink.old) (K.taken sink.new) }
    ensures usage { result ≡ Outcome.Usage → command_of (map string_bytes words.now) ≡ None }
    ensures refused { (refusal : Refusal) → result ≡ Outcome.Refused refusal → ¬ WantsMemory refusal }
    ensures read_fault { let asked = meaning_of (command_of (map string_bytes words.now)) in
        result ≡ Outcome.ReadFault → Rose S.last_count (S.faults shelf.old) (S.faults shelf.new)
        × asked.asks (S.told shelf.old) (S.last_fault shelf.new) }
    ensures write_fault { result ≡ Outcome.WriteFault → Rose K.last_count (K.faults sink.old) (K.faults sink.new) }

    // What stands after each ending.
    ensures untouched { (meaning_of (command_of (map string_bytes words.now))).reads ≡ false →
        IsUntouched S.told S.left S.open_name S.faults S.last_fault shelf.old shelf.new }
    ensures unread { result ≡ Outcome.ReadFault → Keeps (K.taken sink.old) (K.taken sink.new) }
    ensures absent { (place : ℕ) → result ≡ Outcome.Absent place → Keeps (K.taken sink.old) (K.taken sink.new) }
    ensures told { S.told shelf.new ≡ S.told shelf.old }
    ensures shelf_count { S.faults shelf.old ≤ S.faults shelf.new }
    ensures sink_count { K.faults sink.old ≤ K.faults sink.new }
{
    let answer = answer_of(rt, alloc, words, shelf, gate);
    finish(alloc, sink, answer)
}

/// What the arguments come to.
#[tactic(auto, unfolding(crate::specs::Commands::meaning_of))]
fn answer_of<R: Threads + Sync, S: Shelf, G: Gate + Sync>(
    rt: &R,
    alloc: Global,
    words: &[String],
    shelf: &mut S,
    gate: &G,
) -> Result<Answer, Stop>
    ensures ending { let asked = meaning_of (command_of (map string_bytes words.now)) in
        IfSome (texts_for asked (S.told shelf.old)) (λ texts. Answers (asked.ends texts) result) }
    ensures proved { let asked = meaning_of (command_of (map string_bytes words.now)) in
        IfSome (texts_for asked (S.told shelf.old)) (λ texts.
        IfOk result (λ answer. answer.outcome ≡ Outcome.Done → asked.proves texts answer.text)) }
    ensures usage { IsErrOf result Stop.Usage → command_of (map string_bytes words.now) ≡ None }
    ensures refused { (refusal : Refusal) → IsErrOf result (Stop.Refused refusal) → ¬ WantsMemory refusal }
    ensures fault { let asked = meaning_of (command_of (map string_bytes words.now)) in
        IsErrOf result Stop.ReadFault → Rose S.last_count (S.faults shelf.old) (S.faults shelf.new)
        × asked.asks (S.told shelf.old) (S.last_fault shelf.new) }
    ensures untouched { (meaning_of (command_of (map string_bytes words.now))).reads ≡ false →
        IsUntouched S.told S.left S.open_name S.faults S.last_fault shelf.old shelf.new }
    ensures told { S.told shelf.new ≡ S.told shelf.old }
    ensures count { S.faults shelf.old ≤ S.faults shelf.new }
{
    let command = match read_words(alloc, words) {
        Ok(command) => command,
        Err(WordsEnd::NoCommand) => return Err(Stop::Usage),
        Err(WordsEnd::NoMemory) => return Err(Stop::NoMemory),
    };
    let processors = processors_for(rt, &command);
    let job = Job {
        command,
        processors,
    };
    job.answer(
        alloc,
        shelf,
        &|plans: &[Plan], method: Method, workers: u32| -> Result<Vec<Enclosures>, AllocError>
            requires { IsSync R.row × IsSync G.row × AreWorkers workers }
            ensures { IfOk result (λ found. AreEnclosuresBy method plans.now found.items) }
        { enclose(rt, alloc, plans, method, workers, gate) },
    )
}

/// Writes the text of what was answered, if it has one.
fn finish<K: Sink>(alloc: Global, sink: &mut K, answer: Result<Answer, Stop>) -> Outcome
    ensures finishes { FinishesAs answer result (K.taken sink.old) (K.taken sink.new) }
    ensures cause { ComesFrom answer result }
    ensures write_fault { result ≡ Outcome.WriteFault → Rose K.last_count (K.faults sink.old) (K.faults sink.new) }
    ensures sink_count { K.faults sink.old ≤ K.faults sink.new }
{
    match answer {
        Ok(answer) => write(alloc, sink, answer.outcome(), answer.text()),
        Err(Stop::Usage) => write(alloc, sink, Outcome::Usage, USAGE.as_bytes()),
        Err(Stop::Refused(refusal)) => match refusal_text(alloc, refusal) {
            Ok(text) => write(alloc, sink, Outcome::Refused(refusal), &text),
            Err(_) => Outcome::NoMemory,
        },
        Err(Stop::Absent(place)) => Outcome::Absent(place),
        Err(Stop::ReadFault) => Outcome::ReadFault,
        Err(Stop::NoMemory) => Outcome::NoMemory,
    }
}

/// Writes the text of an outcome, which is the run's if the text is taken whole.
fn write<K: Sink>(alloc: Global, sink: &mut K, outcome: Outcome, text: &[u8]) -> Outcome
    requires { outcome ≢ Outcome.WriteFault }
    ensures finishes { Finishes (record { outcome = outcome; text = text.now }) result (K.taken sink.old) (K.taken sink.new) }
    ensures write_fault { result ≡ Outcome.WriteFault → Rose K.last_count (K.faults sink.old) (K.faults sink.new) }
    ensures sink_count { K.faults sink.old ≤ K.faults sink.new }
{
    match write_text(alloc, sink, text) {
        Ok(()) => outcome,
        Err(WriteEnd::Failed) => Outcome::WriteFault,
        Err(WriteEnd::NoMemory) => Outcome::NoMemory,
    }
}
