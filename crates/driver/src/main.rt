// The store driver: a session from standard input to standard output. Document 01, "One session, whole".
// What a line says and what an answer looks like is promised by `text_lines`, what an event does by `engine`; here is what reads and
// writes, and that it is safe and ends. Memory does not grow with the input: of a line that is too long no more is kept than shows it.
#![tactic(auto)]

ghost use Rattle.std.specs.Prelude.{◌+◌, ◌≤◌, ◌≡◌, [], ◌++◌, length, leb, if◌then◌else◌, OnOk, OnErr};
ghost use Rattle.rules.specs.Events.{reply_of};
ghost use Rattle.text_lines.specs.Texts.{text_limit, bytes_of};
ghost use Rattle.driver.specs.Answers.{answer_to};

use arrayvec::ArrayVec;
use rules::{Event, Outcome, Refused, Reply, Table};
use std::io;
use std::io::{Read, Write};
use text_lines::Text;

// Bytes of input that are read, and of output that are gathered, at a time.
const BLOCK: usize = 65536;

// ---- "reads standard input"

// A block of the input: its bytes from `at` to `end` are not looked at yet.
#[derive(Drop)]
struct Input<R> {
    source: R,
    block: [u8; BLOCK],
    at: usize,
    end: usize,
    ghost inside: { end ≤ 65536 },
}

impl<R: Read> Input<R> {
    fn new(source: R) -> Input<R> {
        Input {
            source,
            block: [0; BLOCK],
            at: 0,
            end: 0,
        }
    }

    // The next line, which may go over several blocks; the last one may lack its newline. Input that cannot be read is at its end.
    // Nothing says that the input ends, and a proved loop does: it counts its turns, to a number that no run uses up.
    fn next_line(&mut self) -> Option<Text> {
        let mut text = text_lines::no_text();
        for _ in 0..u64::MAX {
            let cut = text_lines::cut_line(&self.block[..self.end], self.at, text);
            text = cut.text;
            if let Some(next) = cut.next {
                self.at = next;
                return Some(text);
            }
            self.at = 0;
            self.end = self.source.read(&mut self.block).unwrap_or(0);
            if self.end == 0 {
                break;
            }
        }
        self.last_line(text)
    }

    // At the end of the input: the last line may lack its newline. Nothing is left unread behind it.
    fn last_line(&mut self, text: Text) -> Option<Text>
        ensures { self.new.end ≡ 0 }
    {
        self.end = 0;
        if text.count == 0 { None } else { Some(text) }
    }
}

// ---- "writes a line an event"

#[derive(Drop)]
struct Output<W> {
    sink: W,
    gathered: ArrayVec<u8, BLOCK>,
}

impl<W: Write> Output<W> {
    fn new(sink: W) -> Output<W> {
        Output {
            sink,
            gathered: ArrayVec::new(),
        }
    }

    // What is gathered is written. An error leaves it gathered.
    fn flush(&mut self) -> io::Result<()>
        ensures ok { OnOk result (self.new.gathered.items ≡ []) }
        ensures err { OnErr result (self.new.gathered ≡ self.old.gathered) }
    {
        self.sink.write_all(&self.gathered)?;
        self.gathered.clear();
        Ok(())
    }

    // A line goes behind what is gathered; where room for the longest lacks, that is written first. An error leaves what was gathered
    // before, and no part of this line.
    fn push(&mut self, line: &Text) -> io::Result<()>
        ensures ok { OnOk result (self.new.gathered.items ≡ (if leb (length self.old.gathered.items + text_limit) 65536 then self.old.gathered.items ++ bytes_of line.now else bytes_of line.now)) }
        ensures err { OnErr result (self.new.gathered ≡ self.old.gathered) }
    {
        let bytes = &line.bytes[..line.count.min(text_lines::ROOM)];
        if self.gathered.remaining_capacity() < text_lines::ROOM {
            self.flush()?;
        }
        let _ = self.gathered.try_extend_from_slice(bytes);
        Ok(())
    }
}

// ---- a session

// "a line of hosts, chunks, blocks, age limit; a line with one number a block"
fn store(input: &mut Input<impl Read>) -> Option<Table> {
    let first = text_lines::parse_text(&input.next_line()?);
    let second = text_lines::parse_text(&input.next_line()?);
    let made = engine::create(text_meanings::creation_of(first, second)?);
    if made.code != rules::DONE {
        return None;
    }
    Some(made.table)
}

// "A bad event line .. writes `1 0 0 0 0` and is passed over"
fn answer_to(t: &mut Table, e: Option<Event>) -> Reply
    ensures { (result ≡ reply_of (answer_to t.old e)) × (t.new ≡ (answer_to t.old e).table) }
{
    match e {
        Some(e) => engine::step_in(t, e),
        None => Reply {
            code: u64::from(Refused::OutOfRange),
            outcome: Outcome::None,
        },
    }
}

// "an event a line": each is answered, in its order.
fn run(
    input: &mut Input<impl Read>,
    output: &mut Output<impl Write>,
    mut t: Table,
) -> io::Result<()> {
    for _ in 0..u64::MAX {
        let Some(line) = input.next_line() else {
            break;
        };
        let e = text_meanings::event_of(text_lines::parse_text(&line));
        let Reply { code, outcome } = answer_to(&mut t, e);
        output.push(&text_lines::answer_text(code, outcome))?;
    }
    Ok(())
}

fn main(rt: HostRuntime) -> io::Result<()> {
    let mut input = Input::new(rt.stdin());
    let mut output = Output::new(rt.stdout());
    match store(&mut input) {
        Some(t) => run(&mut input, &mut output, t)?,
        // "bad first lines, or a refused creation, write that once and end"
        None => output.push(&text_lines::answer_text(1, Outcome::None))?,
    }
    output.flush()
}
