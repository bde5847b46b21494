// The program report: reads a night's file in pieces, with a fixed amount of memory, and prints what the library says.
//   report [FILE]
// Without FILE it reads standard input.
#![tactic(auto)]

ghost use Rattle.std.specs.Prelude.{◌≡◌, ◌+◌, ◌*◌, ◌≤◌, ◌<◌, ◌^◌, length, take, true, IfSome, IfOk, OnOk};
ghost use Rattle.std.specs.Io.KnownBytes.{Appends, Consumes, IsAtEnd};
ghost use Rattle.night.specs.Pass.{Kept, blocks, passed};
ghost use Rattle.report.specs.Printed.{printed};
ghost use Rattle.morning.specs.Reading.{StandsAfter, GoesOn, Prints};

use night::Night;
use report::print;
use std::fs::File;
use std::io::{IsTerminal, Read, Write};
use std::process::ExitCode;
use std::{env, fmt, io};

// How the reading stands: there may be more, or all is read.
#[derive(Clone, Copy)]
enum Stands {
    More,
    All,
}

// Why there is no report: the file could not be read, or the report could not be written.
enum Failure {
    Unread(io::Error),
    Unwritten(io::Error),
}

// The bytes of a piece, and the pieces of the longest file: more blocks than these would not fit a counter.
const PIECE: usize = 65536;

const MOST_PIECES: u64 = 72057594037927936;

// So many pieces between two words of how far it is.
const TOLD_AFTER: u64 = 1024;

// The exit status of what went wrong.
const WRONG: u8 = 2;

// Reads until the piece is full, the input ends or a read fails, and returns how many bytes it put at the start of the piece.
// The `while` stays: each read says by how much it goes on.
fn read_full<R: Read>(input: &mut R, piece: &mut [u8]) -> usize
    ensures within { result ≤ length piece.new }
    ensures size { length piece.new ≡ length piece.old }
    ensures bytes { Consumes (R.remaining input.old) (R.remaining input.new) (take result piece.new) }
{
    let mut done = 0;
    while done < piece.len() {
        match input.read(&mut piece[done..]) {
            Ok(0) => return done,
            Ok(n) => done += n,
            Err(_) => return done,
        }
    }
    done
}

// Where a read failed, the next read does not answer 0.
fn is_at_end<R: Read>(input: &mut R) -> io::Result<bool>
    ensures { IfOk result (λ b. b ≡ true → IsAtEnd (R.remaining input.old)) }
{
    let mut next = [0u8; 1];
    Ok(input.read(&mut next)? == 0)
}

// How the reading stands after a piece of n bytes.
fn stands_after<R: Read>(input: &mut R, n: usize) -> io::Result<Stands>
    ensures { StandsAfter n (R.remaining input.old) (R.remaining input.new) result }
{
    if n == PIECE {
        return Ok(Stands::More);
    }
    if is_at_end(input)? {
        return Ok(Stands::All);
    }
    Err(io::Error::other("cannot be read"))
}

// Reads one piece, and counts its blocks, where no read fails.
fn read_piece<R: Read>(night: &mut Night, input: &mut R) -> io::Result<Stands>
    requires { Kept night.old × (night.old.totals.blocks + 128 < 2 ^ 64) }
    ensures kept { Kept night.new × (night.new.totals.blocks ≤ night.old.totals.blocks + 128) }
    ensures goes_on { GoesOn 1 (R.remaining input.old) (R.remaining input.new) night.old night.new result }
{
    let mut piece = [0u8; PIECE];
    let n = read_full(input, &mut piece);
    let stands = stands_after(input, n)?;
    night.pass(&piece[..n]);
    Ok(stands)
}

// On a terminal, says how many blocks are read.
fn tell(rt: &HostRuntime, pieces: u64, blocks: u64) {
    if pieces % TOLD_AFTER == 0 && rt.stderr().is_terminal() {
        let _ = eprint!(rt; "\rreport: blocks read: {blocks}");
    }
}

// Ends the line that tells of it.
fn end_line(rt: &HostRuntime, pieces: u64) {
    if TOLD_AFTER <= pieces && rt.stderr().is_terminal() {
        let _ = eprint!(rt; "\n");
    }
}

// Reads all pieces. A file of more pieces than can be counted is one that cannot be read.
fn read_all<R: Read>(rt: &HostRuntime, input: &mut R, night: &mut Night) -> io::Result<()>
    requires { Kept night.old × (night.old.totals.blocks ≡ 0) }
    ensures kept { Kept night.new }
    ensures all { OnOk result (IfSome (R.remaining input.old) (λ file. night.new ≡ passed night.old file (blocks file))) }
{
    for pieces in 0..MOST_PIECES {
        let blocks = night.totals.blocks;
        let stands = read_piece(night, input);
        tell(rt, pieces + 1, blocks);
        let ended = match stands {
            Ok(Stands::More) => continue,
            Ok(Stands::All) => Ok(()),
            Err(e) => Err(e),
        };
        end_line(rt, pieces + 1);
        return ended;
    }
    end_line(rt, MOST_PIECES);
    Err(io::Error::other("cannot be read"))
}

// Writes the report, or answers why not all of it was taken.
fn write_out<W: Write>(out: &mut W, night: &Night) -> io::Result<()>
    requires { Kept night.now }
    ensures { OnOk result (Appends (W.contents out.old) (W.contents out.new) (printed night.now)) }
{
    let mut text = [0u8; PIECE];
    let n = print(night, &mut text);
    out.write_all(&text[..n])
}

// Prints the report of what can be read from an input, all at the end, and nothing where a read fails.
fn mahqurith_report<R: Read, W: Write>(
    rt: &HostRuntime,
    input: &mut R,
    out: &mut W,
) -> Result<(), Failure>
    ensures { Prints (R.remaining input.old) (W.contents out.old) (W.contents out.new) result }
{
    let mut night = Night::start();
    match read_all(rt, input, &mut night) {
        Ok(()) => write_out(out, &night).map_err(Failure::Unwritten),
        Err(e) => Err(Failure::Unread(e)),
    }
}

fn fail<D: fmt::Display>(rt: &impl Eprint, what: &str, why: &D) -> ExitCode {
    let _ = eprintln!(rt; "report: {what}: {why}");
    ExitCode::from(WRONG)
}

// The report of an input that is called NAME, and the exit status.
fn run<R: Read>(rt: &HostRuntime, name: &str, input: &mut R) -> ExitCode {
    match mahqurith_report(rt, input, &mut rt.stdout()) {
        Ok(()) => ExitCode::SUCCESS,
        Err(Failure::Unread(e)) => fail(rt, name, &e),
        Err(Failure::Unwritten(e)) => fail(rt, "standard output", &e),
    }
}

fn main(rt: HostRuntime) -> ExitCode {
    let mut words = match env::args(&rt) {
        Ok(words) => words,
        Err(e) => return fail(&rt, "arguments", &e),
    };
    let _ = words.next();
    let first = words.next();
    if words.next().is_some() {
        return fail(&rt, "use", &"report [FILE]");
    }
    match first {
        None => run(&rt, "standard input", &mut rt.stdin()),
        Some(name) => match File::open(&rt, name.as_str()) {
            Ok(mut file) => run(&rt, name.as_str(), &mut file),
            Err(e) => fail(&rt, name.as_str(), &e),
        },
    }
}
