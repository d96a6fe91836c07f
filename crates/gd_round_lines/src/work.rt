//! The lines of a round, once read.
ghost use Rattle.std.specs.Prelude.{◌≡◌, ◌≢◌, ◌≤◌, ◌<◌, ◌+◌, ◌*◌, ◌++◌, ◌∷◌, ◌^◌, ℕ, List, []};
ghost use Rattle.std.specs.Prelude.{◌⊎◌, length, map, true, Some, Ok, Err, IfOk, IfSome, OnOk};
ghost use Rattle.std.specs.List.{All};
ghost use Rattle.gd_cache.specs.Asked.{key_of};
ghost use Rattle.gd_runs.specs.Request.{read};
ghost use Rattle.gd_runs.specs.Input.{input_fault_line, line_too_long};
ghost use Rattle.gd_runs.specs.Input as input;
ghost use Rattle.gd_runs.specs.Explained.{Numbered, memory_line};
ghost use Rattle.gd_input.specs.Line.{IsKept, IsShort};
ghost use Rattle.gd_input.specs.Rounds.{AreKept};
ghost use Rattle.gd_mql.specs.Line.{fault_view};
ghost use Rattle.gd_mql.specs.Requests.{read_set_view};
ghost use Rattle.gd_round_lines.specs.Works.{no_number, IsAsked, IsAskedAt, IsAskedOf, AreAsked};
ghost use Rattle.gd_round_lines.specs.Works.{Pushes, TakesLine, AreRead, AreWithin, texts_of};
ghost use Rattle.gd_reply.specs.Replies.{reply_text};

use gd_base::memory::Memory;
use gd_cache::asked::key_text;
use gd_cache::key::ReplyText;
use gd_input::line::RoundLine;
use gd_mql::fault::LineFault;
use gd_mql::line::line_from;
use gd_mql::request::{Line, ReadSet, WriteRequest};
use gd_reply::lines::err_line_plain;
use gd_reply::refusal::Refusal;
use gd_reply::reply::Reply;
use std::alloc::Global;
use std::num::NonZeroU32;
use std::thread;
use std::thread::Threads;

/// The fewest lines that are worth a thread to read them, unless they have `LEAST_BYTES`.
const LEAST_LINES: usize = 64;

/// The fewest bytes that are worth a thread to read them, unless they are `LEAST_LINES` lines.
const LEAST_BYTES: usize = 65_536;

/// A read line of a round: its number, its session, what it asks, and, where replies are kept, the
/// text under which its reply is.
#[derive(Drop)]
pub struct ReadLine {
    pub line: u64,
    pub session: u32,
    pub request: ReadSet,
    pub key: Option<ReplyText>,
}

/// A write line of a round: its number, its session, what it asks, and its length.
#[derive(Drop)]
pub struct WriteLine {
    pub line: u64,
    pub session: u32,
    pub request: WriteRequest,
    pub bytes: u64,
}

/// What a line of a round came to, by numbers: its number, if it is a write that has one, and its
/// entry, if it is a write that was stored and is shown.
#[derive(Clone, Copy)]
pub struct LineNumber {
    pub number: Option<u32>,
    pub entry: Option<u32>,
}

/// What a line asks, or its reply where it asks nothing, or the number of a line that there was no
/// memory to read.
#[derive(Drop)]
enum Asked {
    Read(ReadLine),
    Write(WriteLine),
    Told(Reply),
    Unread(u64),
}

/// The lines of a round, once read: the reads and the writes among them, each in the order of their
/// lines, and a first reply to each line. It says why the line is none, or that there was no
/// memory, and stays where nothing else is told. No line has a number at first. They are whole if
/// there was memory to read each line: then no write is missing.
#[derive(Drop)]
pub struct Works {
    pub reads: Vec<ReadLine>,
    pub writes: Vec<WriteLine>,
    pub numbers: Vec<LineNumber>,
    pub replies: Vec<Reply>,
    pub whole: bool,
}

impl LineNumber {
    /// None yet.
    pub fn none() -> LineNumber
        ensures { result ≡ no_number }
    {
        LineNumber {
            number: None,
            entry: None,
        }
    }
}

/// The reply to a line that has too many bytes.
fn too_long_reply(alloc: Global, line: u64) -> Result<Vec<u8>, Memory>
    requires { line < 2 ^ 63 }
    ensures { IfOk result (λ reply. reply.items ≡ input_fault_line line line_too_long) }
{
    err_line_plain(alloc, line, &Refusal::LineTooLong)
}

/// What is told of a line that is refused by its form.
fn fault_asked(alloc: Global, line: u64, fault: LineFault) -> Asked
    requires { line < 2 ^ 63 }
    ensures refusal { (bytes : List ℕ)
        → (fault ≢ LineFault.Memory → input.line_from bytes ≡ Err (fault_view fault))
        → IsAsked line bytes result }
    ensures within { IsAskedAt line result }
{
    let reply = match fault {
        LineFault::Json(fault) => err_line_plain(alloc, line, &Refusal::Json(fault)),
        LineFault::BadLine => err_line_plain(alloc, line, &Refusal::BadLine),
        LineFault::BadQuery { code, path } => {
            err_line_plain(alloc, line, &Refusal::BadQuery { code, path })
        }
        LineFault::Memory => return Asked::Unread(line),
    };
    Asked::Told(Reply::made(line, reply))
}

/// The text of what a read line asks, if it is asked for. `Memory`: an allocation was refused.
fn key_asked(alloc: Global, bytes: &[u8], keyed: bool) -> Result<Option<ReplyText>, Memory>
    ensures { IfOk result (λ key. IfSome key (λ text. key_of bytes.now ≡ Some text)) }
{
    if !keyed {
        return Ok(None);
    }
    key_text(alloc, bytes)
}

/// A read line of these bytes, which ask this of a session. Where its text is asked for and there
/// is no memory for that, the line is unread.
fn read_asked(
    alloc: Global,
    line: u64,
    bytes: &[u8],
    session: u32,
    request: ReadSet,
    keyed: bool,
) -> Asked
    requires asks { input.line_from bytes.now ≡ Ok (read session (read_set_view request)) }
    requires session { session < 64 }
    ensures asked { IsAsked line bytes.now result }
    ensures within { IsAskedAt line result }
{
    match key_asked(alloc, bytes, keyed) {
        Ok(key) => Asked::Read(ReadLine {
            line,
            session,
            request,
            key,
        }),
        Err(_) => Asked::Unread(line),
    }
}

/// What a line asks, or its reply; of a read with its text, if that is asked for.
fn read_line(alloc: Global, line: u64, text: &RoundLine, keyed: bool) -> Asked
    requires line { line < 2 ^ 63 }
    requires short { IsShort text.now }
    ensures asked { (bytes : List ℕ) → IsKept 262_144 text.now bytes → IsAsked line bytes result }
    ensures within { IsAskedAt line result }
{
    let bytes = match text {
        RoundLine::TooLong => return Asked::Told(Reply::made(line, too_long_reply(alloc, line))),
        RoundLine::Bytes(bytes) => bytes.as_slice(),
    };
    match line_from(alloc, bytes) {
        Ok(Line::Read { sid, request }) => read_asked(alloc, line, bytes, sid, request, keyed),
        Ok(Line::Write { sid, request }) => Asked::Write(WriteLine {
            line,
            session: sid,
            request,
            bytes: bytes.len() as u64,
        }),
        Err(fault) => fault_asked(alloc, line, fault),
    }
}

/// The sessions that have a line, as bits of a number, with one more.
fn with_session(sessions: u64, session: u32) -> u64 {
    sessions | 1 << (session % 64)
}

impl Works {
    /// How many of the 64 sessions have a line. It says nothing that an answer could rest on: it
    /// tells how many workers are worth hiring.
    pub fn session_count(&self) -> u32 {
        let mut sessions = 0u64;
        for read in &self.reads {
            sessions = with_session(sessions, read.session);
        }
        for write in &self.writes {
            sessions = with_session(sessions, write.session);
        }
        sessions.count_ones()
    }

    /// No line yet, with room for the replies to so many lines. `Memory`: an allocation was
    /// refused.
    fn new(alloc: Global, count: usize) -> Result<Works, Memory>
        ensures reads { IfOk result (λ works. works.reads.items ≡ []) }
        ensures writes { IfOk result (λ works. works.writes.items ≡ []) }
        ensures numbers { IfOk result (λ works. works.numbers.items ≡ []) }
        ensures replies { IfOk result (λ works. works.replies.items ≡ []) }
        ensures whole { IfOk result (λ works. works.whole ≡ true) }
    {
        Ok(Works {
            reads: Vec::new(alloc),
            writes: Vec::new(alloc),
            numbers: Vec::with_capacity(alloc, count)?,
            replies: Vec::with_capacity(alloc, count)?,
            whole: true,
        })
    }

    /// Appends a line by its first reply alone. `Memory`: an allocation was refused.
    fn push_reply(&mut self, reply: Reply) -> Result<(), Memory>
        ensures { OnOk result (Pushes self.old self.new [] [] (reply_text reply)) }
    {
        self.numbers.push(LineNumber::none())?;
        self.replies.push(reply)?;
        Ok(())
    }

    /// Appends a line that is a read. `Memory`: an allocation was refused.
    fn push_read(&mut self, read: ReadLine) -> Result<(), Memory>
        ensures { OnOk result (Pushes self.old self.new (read ∷ []) [] (memory_line read.line)) }
    {
        let line = read.line;
        self.reads.push(read)?;
        self.push_reply(Reply::no_memory(line))?;
        Ok(())
    }

    /// Appends a line that is a write. `Memory`: an allocation was refused.
    fn push_write(&mut self, write: WriteLine) -> Result<(), Memory>
        ensures { OnOk result (Pushes self.old self.new [] (write ∷ []) (memory_line write.line)) }
    {
        let line = write.line;
        self.writes.push(write)?;
        self.push_reply(Reply::no_memory(line))?;
        Ok(())
    }

    /// Appends a line by what it asks. `Memory`: an allocation was refused.
    fn push(&mut self, asked: Asked) -> Result<(), Memory>
        ensures takes { OnOk result ((line : ℕ) (bytes : List ℕ) → IsAskedAt line asked
            → IsAsked line bytes asked → TakesLine line bytes self.old self.new) }
        ensures within { OnOk result ((first line : ℕ) → first ≤ line → IsAskedAt line asked
            → AreWithin first line self.old → AreWithin first (line + 1) self.new) }
    {
        match asked {
            Asked::Read(read) => self.push_read(read),
            Asked::Write(write) => self.push_write(write),
            Asked::Told(reply) => self.push_reply(reply),
            Asked::Unread(line) => {
                self.whole = false;
                self.push_reply(Reply::no_memory(line))
            }
        }
    }
}

/// How many bytes a line has that is read.
fn bytes_of(line: &RoundLine) -> usize {
    match line {
        RoundLine::Bytes(bytes) => bytes.len(),
        RoundLine::TooLong => 0,
    }
}

/// How many bytes lines have together that are read, or `usize::MAX` where they have more.
fn all_bytes(lines: &[RoundLine]) -> usize {
    let mut total = 0usize;
    for line in lines {
        total = total.saturating_add(bytes_of(line));
    }
    total
}

/// In how many threads so many lines, with so many bytes, are read: at most `threads`, and no more
/// than have `LEAST_LINES` lines or `LEAST_BYTES` bytes each.
fn threads_for(lines: usize, bytes: usize, threads: NonZeroU32) -> usize
    ensures some { 0 < result }
    ensures most { result ≤ threads.value }
    ensures worth { 1 < result → (result * 64 ≤ lines) ⊎ (result * 65_536 ≤ bytes) }
{
    let by_lines = lines / LEAST_LINES;
    let by_bytes = bytes / LEAST_BYTES;
    let worth = if by_lines < by_bytes {
        by_bytes
    } else {
        by_lines
    };
    worth.clamp(1, threads.get() as usize)
}

/// Reads the line at a place, of the lines from line `first` on, in place of what was said of it.
fn read_at(
    alloc: Global,
    first: u64,
    lines: &[RoundLine],
    keyed: bool,
    place: usize,
    asked: &mut Asked,
)
    requires lines { first + length lines.now < 2 ^ 63 }
    requires short { All IsShort lines.now }
    requires place { place < length lines.now }
    ensures { IsAskedOf first lines.now place asked.new }
{
    *asked = read_line(alloc, first + place as u64, &lines[place], keyed);
}

/// So many lines from line `first` on, of which none was read yet. `Memory`: an allocation was
/// refused.
fn unread(alloc: Global, first: u64, count: usize) -> Result<Vec<Asked>, Memory>
    requires { first + count < 2 ^ 63 }
    ensures { IfOk result (λ asked. length asked.items ≡ count) }
{
    let mut asked = Vec::with_capacity(alloc, count)?;
    for place in 0..count {
        asked.push_reserved(Asked::Unread(first + place as u64));
    }
    Ok(asked)
}

/// What each line of a round asks, or its reply, read in at most so many threads; of each read with
/// its text, if that is asked for. `Memory`: an allocation was refused.
fn read_each<R: Threads + Sync>(
    rt: &R,
    alloc: Global,
    threads: NonZeroU32,
    first: u64,
    lines: &[RoundLine],
    keyed: bool,
) -> Result<Vec<Asked>, Memory>
    requires lines { first + length lines.now < 2 ^ 63 }
    requires short { All IsShort lines.now }
    ensures { IfOk result (λ asked. AreAsked first lines.now asked.items) }
{
    let mut asked = unread(alloc, first, lines.len())?;
    let read = |place: usize, asked: &mut Asked|
        requires { (first + length lines.now < 2 ^ 63) × All IsShort lines.now
            × (place < length lines.now) }
        ensures { IsAskedOf first lines.entry.now place asked.exit.now }
    { read_at(alloc, first, lines, keyed, place, asked) };
    let threads = threads_for(lines.len(), all_bytes(lines), threads);
    thread::for_each_mut(rt, asked.as_mut_slice(), threads, &read);
    Ok(asked)
}

/// The lines of a round, once read, the first of them line `first`, in at most so many threads. Each
/// read has its text where `keyed` says so: a read for whose text there is no memory is not read,
/// and the lines are not whole then. `Memory`: an allocation was refused.
pub fn read_lines<R: Threads + Sync>(
    rt: &R,
    alloc: Global,
    threads: NonZeroU32,
    first: u64,
    lines: &[RoundLine],
    keyed: bool,
) -> Result<Works, Memory>
    requires lines { first + length lines.now < 2 ^ 63 }
    requires short { All IsShort lines.now }
    ensures read { IfOk result (λ works. (given : List Numbered)
        → AreKept lines.now (texts_of given) → AreRead first given works) }
    ensures within { IfOk result (λ works. AreWithin first (first + length lines.now) works) }
{
    let mut works = Works::new(alloc, lines.len())?;
    for asked in read_each(rt, alloc, threads, first, lines, keyed)? {
        works.push(asked)?;
    }
    Ok(works)
}
