//! The top call, which does all that the program does.
ghost use Rattle.std.specs.Prelude.{◌≡◌, ℕ, ◌<◌, ◌⊎◌, List, None};
ghost use Rattle.forms.specs.Tree.{Formula};
ghost use Rattle.command_endings.specs.Endings.{status_of};
ghost use Rattle.command_endings.specs.Reading.{Reads};
ghost use Rattle.command_endings.specs.Tasks.{Performs};
ghost use Rattle.command_endings.specs.Worlds.{FileFailed, world};
ghost use Rattle.command_endings.specs.Writing.{Writes};
ghost use Rattle.translate_command.specs.Translation.{IsTranslation, IsOnlyTranslation};
ghost use Rattle.synth_command.specs.Promised.{PrintsStrategy};
ghost use Rattle.synth_command.specs.Synthesis.{FileHolds};
ghost use Rattle.bes_suite.specs.Asked.{task_of};
ghost use Rattle.bes_suite.specs.Commands.{command_of, word_at};
ghost use Rattle.bes_suite.specs.Results.{IsAnswered, AsksForOne, IsComplete, HasFaultCause, CountsStand, IsPartial, IsStreamed, PutsMessages, KeepsFiles, IsReadSoFar};

use crate::commands::{Command, find_command};
use bes_io::{Files, Sink, Source, Word};
use command_endings::{Ending, Refusal, Status, finish};
use forms_command::show_formula;
use judge_command::judge_formula;
use monitor_command::monitor_formula;
use std::alloc::Global;
use synth_command::synthesise_file;
use translate_command::translate_formula;

/// Does what the words ask for, and tells how the run ends. It puts no message.
fn perform<F: Files, S: Source, O: Sink>(
    alloc: Global,
    words: &[Word],
    files: &mut F,
    input: &mut S,
    out: &mut O,
) -> Ending
    ensures performs { let before = world (F.contents files.old) (F.failed files.old) (S.left input.old) (S.faults input.old) (O.held out.old) (O.faults out.old) in
        let after = world (F.contents files.new) (F.failed files.new) (S.left input.new) (S.faults input.new) (O.held out.new) (O.faults out.new) in
        Performs (task_of words.now) before after result }
    ensures writes { let before = world (F.contents files.old) (F.failed files.old) (S.left input.old) (S.faults input.old) (O.held out.old) (O.faults out.old) in
        let after = world (F.contents files.new) (F.failed files.new) (S.left input.new) (S.faults input.new) (O.held out.new) (O.faults out.new) in
        Writes O.IsPut (task_of words.now) before after out.old out.new (status_of result) }
    ensures reads { let before = world (F.contents files.old) (F.failed files.old) (S.left input.old) (S.faults input.old) (O.held out.old) (O.faults out.old) in
        Reads S.faults S.IsTaken (task_of words.now) before input.old input.new (status_of result) }
    ensures usage { command_of words.now ≡ Command.Usage → result ≡ Ending.Refused Refusal.Usage }
    ensures unopened { (task_of words.now).file ≡ None → files.new ≡ files.old }
    ensures unread { FileFailed (task_of words.now).file (F.failed files.old) (F.failed files.new) → input.new ≡ input.old }
    ensures headline { command_of words.now ≡ Command.Synth → status_of result < 2 →
        FileHolds (F.contents files.old) (word_at words.now 1) (λ bytes. PrintsStrategy bytes (O.held out.old) (O.held out.new) (status_of result)) }
{
    match find_command(words) {
        Command::Usage => Ending::Refused(Refusal::Usage),
        Command::Judge(dialect) => judge_formula(alloc, dialect, words[2].bytes(), input, out),
        Command::Forms(dialect) => show_formula(alloc, dialect, words[2].bytes(), out),
        Command::Translate(dialect) => translate_formula(alloc, dialect, words[2].bytes(), out),
        Command::Monitor(dialect) => {
            monitor_formula(alloc, dialect, words[2].bytes(), input, out)
        }
        Command::Synth => synthesise_file(alloc, &words[1], files, out),
    }
}

/// Does all that the program does: what the words ask for, over these files, this input, and these places for the
/// output and for messages. It answers the status.
pub fn run<F: Files, S: Source, O: Sink, E: Sink>(
    alloc: Global,
    words: &[Word],
    files: &mut F,
    input: &mut S,
    out: &mut O,
    err: &mut E,
) -> Status
    // Where the named file and the input tell what they hold, each status but 7 and 8 is the one that they and the words
    // ask for, with its output and its message. They ask for one thing, so nothing but 7 and 8 comes in its place.
    ensures answers { let before = world (F.contents files.old) (F.failed files.old) (S.left input.old) (S.faults input.old) (O.held out.old) (O.faults out.old) in
        let after = world (F.contents files.new) (F.failed files.new) (S.left input.new) (S.faults input.new) (O.held out.new) (O.faults out.new) in
        IsAnswered (task_of words.now) before after (E.held err.old) (E.held err.new) result.number }
    ensures one { AsksForOne (task_of words.now) }

    // What is accepted is answered: where no fault has a cause the status is 0 or 1, with the output that is asked for, or 8.
    ensures complete { let before = world (F.contents files.old) (F.failed files.old) (S.left input.old) (S.faults input.old) (O.held out.old) (O.faults out.old) in
        let after = world (F.contents files.new) (F.failed files.new) (S.left input.new) (S.faults input.new) (O.held out.new) (O.faults out.new) in
        IsComplete (task_of words.now) before after (E.held err.old) (E.held err.new) (E.faults err.old) (E.faults err.new) result.number }

    // The automaton that `translate` prints is fixed by the names and the traces, and so are the words that tell its
    // locations apart; none with these traces is smaller.
    ensures only_automaton { (names : List (List ℕ)) (f : Formula) (text : List ℕ) (t : IsTranslation names f text) → IsOnlyTranslation names f text t }

    // For every specification `synth` prints a strategy which, at every history that it and a legal environment can reach, wins
    // within the printed least number of rounds if any strategy can force the goal, and otherwise keeps a legal continuation
    // that meets the goal wherever one exists, and the duty wherever it can; if the goal can't be forced from the start, the
    // printed answers of the environment refute every number of rounds.
    ensures headline { command_of words.now ≡ Command.Synth → result.number < 2 →
        FileHolds (F.contents files.old) (word_at words.now 1) (λ bytes. PrintsStrategy bytes (O.held out.old) (O.held out.new) result.number) }

    // Status 7 comes only where a count of faults rose, or stands at its end, 2^64 - 1, or the named file failed: of the
    // input only where it came to be asked, of the place for messages only where a message was asked for.
    ensures fault { let before = world (F.contents files.old) (F.failed files.old) (S.left input.old) (S.faults input.old) (O.held out.old) (O.faults out.old) in
        let after = world (F.contents files.new) (F.failed files.new) (S.left input.new) (S.faults input.new) (O.held out.new) (O.faults out.new) in
        HasFaultCause (task_of words.now) before after (E.faults err.old) (E.faults err.new) result.number }

    // Where a count of the files, the input or the output rose the status is 7; where that of the place for messages
    // rose it is 7 or 8.
    ensures counts { let before = world (F.contents files.old) (F.failed files.old) (S.left input.old) (S.faults input.old) (O.held out.old) (O.faults out.old) in
        let after = world (F.contents files.new) (F.failed files.new) (S.left input.new) (S.faults input.new) (O.held out.new) (O.faults out.new) in
        CountsStand before after (E.faults err.old) (E.faults err.new) result.number }

    // After 7 the output has gained a prefix of what was asked for.
    ensures partly { let before = world (F.contents files.old) (F.failed files.old) (S.left input.old) (S.faults input.old) (O.held out.old) (O.faults out.old) in
        let after = world (F.contents files.new) (F.failed files.new) (S.left input.new) (S.faults input.new) (O.held out.new) (O.faults out.new) in
        IsPartial (task_of words.now) before after result.number }

    // The output isn't asked where nothing is due, nor where memory ran out. What is due is put whole in one call, or by a
    // command that writes as it reads in one call a line; over an output that tells what it holds, `answers` says which lines.
    ensures writes { let before = world (F.contents files.old) (F.failed files.old) (S.left input.old) (S.faults input.old) (O.held out.old) (O.faults out.old) in
        let after = world (F.contents files.new) (F.failed files.new) (S.left input.new) (S.faults input.new) (O.held out.new) (O.faults out.new) in
        Writes O.IsPut (task_of words.now) before after out.old out.new result.number }

    // Of an input that tells its rest: where it failed, a command that writes as it reads has put what is due for the whole
    // lines that were taken. Where the output failed, it failed at one line, and fewer than 4,097 bytes were taken past what
    // this line needs.
    ensures streams { let before = world (F.contents files.old) (F.failed files.old) (S.left input.old) (S.faults input.old) (O.held out.old) (O.faults out.old) in
        let after = world (F.contents files.new) (F.failed files.new) (S.left input.new) (S.faults input.new) (O.held out.new) (O.faults out.new) in
        IsStreamed (task_of words.now) before after }

    // The message of the run's ending is put in one call; the status is the ending's, or 7 where that call failed. After 0
    // and 1 none is put.
    ensures messages { PutsMessages E.IsPut err.old err.new (E.held err.old) (E.held err.new) (E.faults err.old) (E.faults err.new) result.number }

    // Words that are none of the listed forms are refused whatever memory there is: the status is 2, or 7.
    ensures usage { command_of words.now ≡ Command.Usage → (result.number ≡ 2) ⊎ (result.number ≡ 7) }

    // The names that failed gain the named file at most, and where no file is named the files stay as they are. Where the
    // named file failed the input is not asked.
    ensures files { let before = world (F.contents files.old) (F.failed files.old) (S.left input.old) (S.faults input.old) (O.held out.old) (O.faults out.old) in
        let after = world (F.contents files.new) (F.failed files.new) (S.left input.new) (S.faults input.new) (O.held out.new) (O.faults out.new) in
        KeepsFiles (task_of words.now) before after files.old files.new input.old input.new }

    // The input is not asked by a command that reads none, nor where the words, the formula or file, its class counts or
    // the keeping of what it assumes are refused; nor again after it failed. A command that writes as it reads doesn't end
    // for want of memory once it has asked.
    ensures reads { let before = world (F.contents files.old) (F.failed files.old) (S.left input.old) (S.faults input.old) (O.held out.old) (O.faults out.old) in
        Reads S.faults S.IsTaken (task_of words.now) before input.old input.new result.number }

    // Of an input that tells its rest: after an answer a command that reads it has read it to its end, or, where it stops at
    // its goal, to the line that met it.
    ensures far { let before = world (F.contents files.old) (F.failed files.old) (S.left input.old) (S.faults input.old) (O.held out.old) (O.faults out.old) in
        let after = world (F.contents files.new) (F.failed files.new) (S.left input.new) (S.faults input.new) (O.held out.new) (O.faults out.new) in
        IsReadSoFar (task_of words.now) before after result.number }
{
    let ending = perform(alloc, words, files, input, out);
    finish(ending, err)
}
