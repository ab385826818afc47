//! The command `monitor`.
ghost use Rattle.std.specs.Prelude.{◌≡◌, ◌≢◌, ℕ, false, List, length, Option, Some, IfOk, OnOk, IfErr};
ghost use Rattle.forms.specs.Tree.{tree};
ghost use Rattle.forms.specs.Word.{Claim};
ghost use Rattle.forms.specs.Proper.{IsProper};
ghost use Rattle.forms.specs.Satisfaction.{meets};
ghost use Rattle.bes_io.specs.Asking.{IsAsked};
ghost use Rattle.bes_io.specs.Causes.{HasCause};
ghost use Rattle.bes_io.specs.Streams.{Puts};
ghost use Rattle.monitor.specs.Verdicts.{verdict_of};
ghost use Rattle.monitor.specs.Configuration.{IsReady};
ghost use Rattle.translate.specs.Counting.{IfTooMany, IsFirstOver};
ghost use Rattle.class_limit.specs.Limits.{most_classes, AreFew};
ghost use Rattle.command_endings.specs.Calls.{PutsLines};
ghost use Rattle.command_endings.specs.Endings.{IsUnread, status_of};
ghost use Rattle.command_endings.specs.Reading.{Reads};
ghost use Rattle.command_endings.specs.Tasks.{NoOutputIsDue, Performs};
ghost use Rattle.command_endings.specs.Worlds.{Contents, world};
ghost use Rattle.command_endings.specs.Writing.{Writes};
ghost use Rattle.monitor_command.specs.Monitoring.{IsMonitored, verdict_line, ending_of as ending_of_verdict, monitor_task, monitored_task};
ghost use Rattle.monitor_command.specs.OpenedMonitor.{IsOpened, ending_after};

use bes_io::{Failed, LineReader, Sink, Source};
use class_limit::{MOST_CLASSES, limit_ending};
use command_endings::{Concern, Ending, Refusal, read_formula};
use diagrams::Store;
use form_tokens::{Dialect, Names};
use forms::Form;
use input_letters::next_letter;
use monitor::{Monitor, Verdict};
use std::alloc::Global;
use translate::{TranslateFault, translate};

/// The most bytes of an input that is monitored.
const MOST_MONITORED: u64 = 1 << 40;

/// A monitor, with the store of its automaton.
#[derive(Drop)]
struct Opened {
    store: Store,
    monitor: Monitor,
}

/// A monitor of the formula's traces. Nothing below takes memory once it is opened.
fn open(alloc: Global, form: &Form, names: &Names) -> Result<Opened, TranslateFault>
    requires proper { IsProper (length names.now.names) (tree form.now) }
    ensures opened { IfOk result (λ opened. IsOpened opened.store opened.monitor names.now.names (λ w. meets (length names.now.names) (tree form.now) w)) }
    ensures within { OnOk result (AreFew names.now.names (tree form.now)) }
    ensures fault { IfErr result (λ fault. IfTooMany fault (IsFirstOver (length names.now.names) (tree form.now) false most_classes)) }
{
    let mut store = Store::new(alloc, names.len())?;
    let made = translate(alloc, &mut store, form, false, MOST_CLASSES)?;
    let monitor = Monitor::new(alloc, &store, made.whole)?;
    Ok(Opened { store, monitor })
}

/// Puts the line of the verdict.
fn put_verdict<O: Sink>(verdict: Verdict, out: &mut O) -> Result<(), Failed>
    ensures bytes { Puts (O.held out.old) (O.held out.new) result (verdict_line (verdict_of verdict)) }
    ensures cause { HasCause (O.faults out.old) (O.faults out.new) result }
    ensures put { O.IsPut out.old (verdict_line (verdict_of verdict)) out.new }
{
    match verdict {
        Verdict::PermTrue => out.put(b"perm_true\n"),
        Verdict::PermFalse => out.put(b"perm_false\n"),
        Verdict::TempTrue => out.put(b"temp_true\n"),
        Verdict::TempFalse => out.put(b"temp_false\n"),
    }
}

/// How a run ends with this last verdict.
fn verdict_ending(verdict: Verdict) -> Ending
    ensures { result ≡ ending_of_verdict (verdict_of verdict) }
{
    match verdict {
        Verdict::PermTrue | Verdict::TempTrue => Ending::Positive,
        Verdict::PermFalse | Verdict::TempFalse => Ending::Negative,
    }
}

/// How a run ends at the end of the input, by the last verdict.
fn last_ending(last: Option<Verdict>) -> Ending
    ensures { result ≡ ending_after last }
{
    match last {
        Some(verdict) => verdict_ending(verdict),
        None => Ending::Refused(Refusal::NoEvent),
    }
}

/// Puts the verdict after each line of the input, before it looks at the next. It takes no memory.
fn monitor_input<S: Source, O: Sink>(
    store: &Store,
    mut monitor: Monitor,
    names: &Names,
    input: &mut S,
    out: &mut O,
) -> Ending
    requires ready { IsReady store.now monitor }
    requires props { store.now.props ≡ length names.now.names }
    ensures performs { (contents : Option Contents) (failed : List (List ℕ)) (claim : Claim) → IsOpened store.now monitor names.now.names claim →
        Performs (monitored_task names.now.names claim)
        (world contents failed (S.left input.old) (S.faults input.old) (O.held out.old) (O.faults out.old))
        (world contents failed (S.left input.new) (S.faults input.new) (O.held out.new) (O.faults out.new)) result }
    ensures silent { (claim : Claim) → IsOpened store.now monitor names.now.names claim → (rest : List ℕ) → S.left input.old ≡ Some rest →
        NoOutputIsDue (IsMonitored names.now.names claim rest) → out.new ≡ out.old }
    ensures asked { IsAsked S.faults S.IsTaken input.old input.new }
    ensures late { ¬ IsUnread (status_of result) }
    ensures served { result ≢ Ending.NoMemory }
    ensures lines { PutsLines O.IsPut out.old out.new }
{
    let mut reader = LineReader::new(MOST_MONITORED);
    let mut line = 1;
    let mut last = None;
    loop {
        let letter = match next_letter(&mut reader, names, line, input) {
            Ok(Some(letter)) => letter,
            Ok(None) => return last_ending(last),
            Err(ending) => return ending,
        };
        let verdict = monitor.event(store, letter);
        match put_verdict(verdict, out) {
            Ok(()) => {}
            Err(_) => return Ending::OutsideFault,
        }
        line += 1;
        last = Some(verdict);
    }
}

/// Monitors the input by the formula: puts the verdict of the letters so far after each event.
pub fn monitor_formula<S: Source, O: Sink>(
    alloc: Global,
    dialect: Dialect,
    text: &[u8],
    input: &mut S,
    out: &mut O,
) -> Ending
    ensures performs { (contents : Option Contents) (failed : List (List ℕ)) → Performs (monitor_task dialect text.now)
        (world contents failed (S.left input.old) (S.faults input.old) (O.held out.old) (O.faults out.old))
        (world contents failed (S.left input.new) (S.faults input.new) (O.held out.new) (O.faults out.new)) result }
    ensures writes { (contents : Option Contents) (failed : List (List ℕ)) → Writes O.IsPut (monitor_task dialect text.now)
        (world contents failed (S.left input.old) (S.faults input.old) (O.held out.old) (O.faults out.old))
        (world contents failed (S.left input.new) (S.faults input.new) (O.held out.new) (O.faults out.new)) out.old out.new (status_of result) }
    ensures reads { (contents : Option Contents) (failed : List (List ℕ)) → Reads S.faults S.IsTaken (monitor_task dialect text.now)
        (world contents failed (S.left input.old) (S.faults input.old) (O.held out.old) (O.faults out.old)) input.old input.new (status_of result) }
{
    let (form, names) = match read_formula(alloc, dialect, text) {
        Ok(read) => read,
        Err(ending) => return ending,
    };
    match open(alloc, &form, &names) {
        Ok(Opened { store, monitor }) => monitor_input(&store, monitor, &names, input, out),
        Err(fault) => limit_ending(Concern::Formula, MOST_CLASSES, fault),
    }
}
