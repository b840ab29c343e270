//! The top call: from the words of the command line to the printed lines and the outcome.
#![tactic(auto)]

ghost use Rattle.std.specs.Prelude.{◌≡◌, ◌≤◌, length, map, string_bytes, Some};
ghost use Rattle.std.specs.Option.{option_map};
ghost use Rattle.cb_model.specs.Commands.{command_of};
ghost use Rattle.cb_model.specs.Faults.{Counted};
ghost use Rattle.cb_model.specs.Top.{HasUsage};
ghost use Rattle.cb_lines.specs.Words.{command_view};
ghost use Rattle.cb_accept.specs.File.{holds, IsAccepted};
ghost use Rattle.cb_top.specs.Built.{command_over};
ghost use Rattle.cb_top.specs.Top.{Prints, IsRun, MakesFew, MayStop, Ran};
ghost use Rattle.cb_top.specs.Tasks.{task_view, ReadsInput, TaskRun, BytesRun};

use cb_accept::{Accepted, accept, end, load_file};
use cb_commands::{check, make, same, verify};
use cb_host::{Files, Sink, Source};
use cb_lines::ended::finish;
use cb_lines::lines;
use cb_lines::words::{Command, Nodes, command_in};
pub use cb_model::{Outcome, Side};
use cb_run::run;
use std::alloc::Global;

/// Runs one command line: `words` are the words after the program's name. `run` writes the text of each query as it is
/// made; all else is decided before its first byte is written. Only `run` reads the input, once its file is accepted. A
/// front of the text is left where the output fails.
pub fn chipbool<F: Files, I: Source, O: Sink>(
    alloc: Global,
    words: &[String],
    files: &mut F,
    input: &mut I,
    out: &mut O,
) -> Outcome
    ensures prints { Prints (command_of (map string_bytes words.now))
        (F.list files.old) (I.left input.old) (I.left input.new) (O.written out.old) (O.written out.new) result }
    ensures usage { HasUsage (map string_bytes words.now) result }
    ensures stopped { result ≡ Outcome.Stopped → MayStop (command_of (map string_bytes words.now)) }
    ensures input_unread { (IsRun (command_of (map string_bytes words.now)) → ⊥) → input.new ≡ input.old }
    ensures input_of_run { result ≡ Outcome.Fault Side.Input → IsRun (command_of (map string_bytes words.now)) }
    ensures file_faults { Counted (result ≡ Outcome.Fault Side.File) (F.faults files.old) (F.faults files.new) }
    ensures input_faults { Counted (result ≡ Outcome.Fault Side.Input) (I.faults input.old) (I.faults input.new) }
    ensures output_faults { Counted (result ≡ Outcome.Fault Side.Output) (O.faults out.old) (O.faults out.new) }
{
    let command = command_in(words);
    over_command(alloc, command, files, input, out)
}

// What is asked of a file.
#[derive(Clone, Copy)]
enum Task<'w> {
    Check,
    Run {
        resolutions: u32,
        nodes: Nodes,
    },
    Verify {
        name: &'w str,
        nodes: Nodes,
    },
    Same {
        one: &'w str,
        two: &'w str,
        nodes: Nodes,
    },
}

// Runs a command, or refuses words that name none.
fn over_command<F: Files, I: Source, O: Sink>(
    alloc: Global,
    command: Option<Command<'_>>,
    files: &mut F,
    input: &mut I,
    out: &mut O,
) -> Outcome
    requires { MakesFew (option_map command_view command) }
    ensures ran { Ran (option_map command_view command.entry)
        (F.list files.old) (I.left input.old) (I.left input.new) (O.written out.old) (O.written out.new) result }
    ensures input_unread { (IsRun (option_map command_view command.entry) → ⊥) → input.new ≡ input.old }
    ensures file_faults { Counted (result ≡ Outcome.Fault Side.File) (F.faults files.old) (F.faults files.new) }
    ensures input_faults { Counted (result ≡ Outcome.Fault Side.Input) (I.faults input.old) (I.faults input.new) }
    ensures output_faults { Counted (result ≡ Outcome.Fault Side.Output) (O.faults out.old) (O.faults out.new) }
{
    match command {
        None => finish(out, lines::USAGE, Outcome::Refused(19)),
        Some(Command::Check { file }) => over_file(alloc, file, Task::Check, files, input, out),
        Some(
            Command::Run {
                file,
                resolutions,
                nodes,
            },
        ) => {
            let task = Task::Run { resolutions, nodes };
            over_file(alloc, file, task, files, input, out)
        }
        Some(Command::Verify { file, name, nodes }) => {
            over_file(alloc, file, Task::Verify { name, nodes }, files, input, out)
        }
        Some(
            Command::Same {
                file,
                one,
                two,
                nodes,
            },
        ) => {
            let task = Task::Same { one, two, nodes };
            over_file(alloc, file, task, files, input, out)
        }
        Some(Command::Make { bits, nodes }) => make(alloc, bits, nodes, out),
    }
}

// Does a task over the file of a name.
fn over_file<F: Files, I: Source, O: Sink>(
    alloc: Global,
    file: &str,
    task: Task<'_>,
    files: &mut F,
    input: &mut I,
    out: &mut O,
) -> Outcome
    ensures ran { Ran (Some (command_over file.now (task_view task.entry)))
        (F.list files.old) (I.left input.old) (I.left input.new) (O.written out.old) (O.written out.new) result }
    ensures input_unread { (ReadsInput (task_view task.entry) → ⊥) → input.new ≡ input.old }
    ensures file_faults { Counted (result ≡ Outcome.Fault Side.File) (F.faults files.old) (F.faults files.new) }
    ensures input_faults { Counted (result ≡ Outcome.Fault Side.Input) (I.faults input.old) (I.faults input.new) }
    ensures output_faults { Counted (result ≡ Outcome.Fault Side.Output) (O.faults out.old) (O.faults out.new) }
{
    match load_file(alloc, file, files) {
        Ok(bytes) => over_bytes(alloc, bytes.as_slice(), task, input, out),
        Err(ended) => ended.tell(out),
    }
}

// Does a task over the bytes of its file.
fn over_bytes<I: Source, O: Sink>(
    alloc: Global,
    bytes: &[u8],
    task: Task<'_>,
    input: &mut I,
    out: &mut O,
) -> Outcome
    requires { length bytes.now ≤ 4194304 }
    ensures says { BytesRun (task_view task.entry) bytes.now
        (I.left input.old) (I.left input.new) (O.written out.old) (O.written out.new) result }
    ensures input_unread { (ReadsInput (task_view task.entry) → ⊥) → input.new ≡ input.old }
    ensures input_faults { Counted (result ≡ Outcome.Fault Side.Input) (I.faults input.old) (I.faults input.new) }
    ensures output_faults { Counted (result ≡ Outcome.Fault Side.Output) (O.faults out.old) (O.faults out.new) }
{
    match accept(alloc, bytes) {
        Ok(file) => {
            let outcome = over_accepted(alloc, &file, task, input, out);
            end(file);
            outcome
        }
        Err(ended) => ended.tell(out),
    }
}

// Does a task over an accepted file.
fn over_accepted<I: Source, O: Sink>(
    alloc: Global,
    file: &Accepted<'_>,
    task: Task<'_>,
    input: &mut I,
    out: &mut O,
) -> Outcome
    requires { IsAccepted file.now }
    ensures says { TaskRun (task_view task.entry) (holds file.now)
        (I.left input.old) (I.left input.new) (O.written out.old) (O.written out.new) result }
    ensures input_unread { (ReadsInput (task_view task.entry) → ⊥) → input.new ≡ input.old }
    ensures input_faults { Counted (result ≡ Outcome.Fault Side.Input) (I.faults input.old) (I.faults input.new) }
    ensures output_faults { Counted (result ≡ Outcome.Fault Side.Output) (O.faults out.old) (O.faults out.new) }
{
    match task {
        Task::Check => check(alloc, file, out),
        Task::Run { resolutions, nodes } => run(alloc, file, resolutions, nodes, input, out),
        Task::Verify { name, nodes } => verify(alloc, file, name.as_bytes(), nodes, out),
        Task::Same { one, two, nodes } => {
            same(alloc, file, one.as_bytes(), two.as_bytes(), nodes, out)
        }
    }
}
