// A desk of lines.
ghost use Rattle.std.specs.Prelude.{◌≡◌, [], ◌∷◌, ◌++◌, Decides, IfOk, IfErr};
ghost use Rattle.std.specs.Option.{option_to_list, option_flatten};
ghost use Rattle.std.specs.Result.{result_ok};
ghost use Rattle.console.specs.States.{HasFailed};

use dialog::{Command, EndText, ShownText, command};
use game::Event;
use refusal::Refusal;
use session::{Cut, Desk, Ending, Shown};
use std::alloc::Global;
use std::fmt::Display;
use std::io;
use std::io::{BufRead, Write};
use wording::CostKind;

// What a console has come to.
#[derive(Clone, Copy)]
enum State {
    Open,
    // `end` was read
    Ended,
    // reading, printing or keeping has failed, after `end` was read or before
    Failed { ended: bool },
}

impl State {
    // Whether `end` was read.
    fn has_ended(self) -> bool {
        matches!(self, State::Ended | State::Failed { ended: true })
    }

    // Whether something has failed.
    fn has_failed(self) -> bool
        ensures { Decides result (HasFailed self) }
    {
        matches!(self, State::Failed { .. })
    }

    // The state after a failure.
    fn failed(self) -> State
        ensures { HasFailed result }
    {
        State::Failed {
            ended: self.has_ended(),
        }
    }
}

/// Lines in, lines out. It keeps the events that it has told, and what it was shown.
#[derive(Drop)]
pub struct Console<R: Drop, W: Drop> {
    heap: Global,
    kind: CostKind,
    input: R,
    output: W,
    told: Vec<Event>,
    log: Vec<Shown>,
    state: State,
}

// Prints a line, and sees that it goes out.
fn say<W: Write, D: Display + Drop>(output: &mut W, text: D) -> io::Result<()> {
    writeln!(output, "{text}")?;
    output.flush()
}

// Reads a line without its LF; none at the end of the input.
fn read_line<R: BufRead>(heap: Global, input: &mut R) -> io::Result<Option<Command>> {
    let mut line: Vec<u8> = Vec::new(heap);
    if input.read_until(b'\n', &mut line)? == 0 {
        return Ok(None);
    }
    let bytes = line.as_slice();
    Ok(Some(command(bytes.strip_suffix(b"\n").unwrap_or(bytes))))
}

impl<R: BufRead + Drop, W: Write + Drop> Console<R, W> {
    /// A desk that has told nothing.
    pub fn new(heap: Global, kind: CostKind, input: R, output: W) -> Console<R, W> {
        Console {
            heap,
            kind,
            input,
            output,
            told: Vec::new(heap),
            log: Vec::new(heap),
            state: State::Open,
        }
    }

    // What was done, or none where it failed, which is noted.
    fn noted<T: Drop>(&mut self, outcome: io::Result<T>) -> Option<T>
        ensures told { self.new.told ≡ self.old.told }
        ensures log { self.new.log ≡ self.old.log }
        ensures value { result ≡ result_ok outcome }
        ensures failed { IfErr outcome (λ _. HasFailed self.new.state) }
    {
        if outcome.is_err() {
            self.state = self.state.failed();
        }
        outcome.ok()
    }

    // Prints a line, or notes that it failed.
    fn print<D: Display + Drop>(&mut self, text: D)
        ensures told { self.new.told ≡ self.old.told }
        ensures log { self.new.log ≡ self.old.log }
    {
        let printed = say(&mut self.output, text);
        let _ = self.noted(printed);
    }

    // Reads lines up to one that tells an event, and keeps it; none at `end`, or at the end of the input.
    fn read(&mut self) -> io::Result<Option<Event>>
        ensures told { self.new.told.items ≡ self.old.told.items ++ option_to_list (option_flatten (result_ok result)) }
        ensures log { self.new.log.items ≡ self.old.log.items }
    {
        // kept: a count that is never reached stands for a loop that the input ends.
        for _ in 0..u64::MAX {
            match read_line(self.heap, &mut self.input)? {
                Some(Command::Told(event)) => {
                    self.told.push(event)?;
                    return Ok(Some(event));
                }
                Some(Command::End) => {
                    self.state = State::Ended;
                    return Ok(None);
                }
                Some(Command::Unreadable) => say(&mut self.output, "unreadable")?,
                None => return Ok(None),
            }
        }
        Ok(None)
    }

    // Prints what was shown, and keeps it.
    fn keep(&mut self, shown: Shown) -> io::Result<()>
        ensures told { self.new.told ≡ self.old.told }
        ensures log { IfOk result (λ _. self.new.log.items ≡ self.old.log.items ++ (shown ∷ [])) }
    {
        let kind = self.kind;
        let printed = say(&mut self.output, ShownText { kind, shown });
        self.log.push(shown)?;
        printed
    }

    /// Prints how the session ended: where the run was, if `end` was read, or why none began.
    pub fn finish(&mut self, ending: Ending) -> io::Result<()> {
        let kind = self.kind;
        match ending {
            Ending::Ended(progress) if self.state.has_ended() => {
                self.print(EndText { kind, progress })
            }
            Ending::Ended(_) => (),
            Ending::NotBegun(refusal) => self.refuse(refusal),
            Ending::Cut => self.state = self.state.failed(),
        }
        if self.state.has_failed() {
            return Err(io::Error::other("reading, printing or memory failed"));
        }
        Ok(())
    }

    /// Prints a refusal.
    pub fn refuse(&mut self, refusal: Refusal) {
        self.print(refusal);
    }
}

impl<R: BufRead + Drop, W: Write + Drop> Desk for Console<R, W> {
    ghost told = { λ c. c.told.items };

    ghost log = { λ c. c.log.items };

    // nothing tells that the input is at its end
    ghost closed = { λ _. Unit {0} };

    ghost broken = { λ c. HasFailed c.state };

    fn next(&mut self) -> Option<Event> {
        if self.state.has_failed() {
            return None;
        }
        let read = self.read();
        self.noted(read).flatten()
    }

    fn show(&mut self, shown: Shown) -> Result<(), Cut> {
        let outcome = self.keep(shown);
        let _ = self.noted(outcome);
        if self.state.has_failed() {
            Err(Cut)
        } else {
            Ok(())
        }
    }
}
