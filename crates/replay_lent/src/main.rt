//! Reads answers on standard input, one after the other to its end: each a header of 16 bytes and a book. It lowers
//! each book by `lower_lent`, into slices that hold a pattern and with counters that mean nothing, and prints a line
//! for it: the four words of the reply, the three counters, and one number made of every field of every struct and of
//! the front of the results. Where the input ends within an answer, or a header asks for more than there is, it prints
//! `broken` and stops.

#![tactic(auto)]

ghost use Rattle.std.specs.Prelude.{◌≤◌, ◌<◌};

use lent::{Diagnostic, ErrorClass};
use lower::Counts;
use record::refusal::Refusal;
use record::{RECORD_BYTES, Span};
use std::io;
use types::{LowerCtx, MOST_RESULTS};

// As many bytes of results and structs as there are to lend: two records, or two structs, past the limits.
const RESULT_BYTES: usize = RECORD_BYTES * (MOST_RESULTS as usize + 2);

const STRUCTS: usize = lent::MOST + 2;

// The modulus of the digest, the greatest prime below 2^32.
const PRIME: u64 = 4294967291;

// The counters as lent. They mean nothing.
const LENT: LowerCtx = LowerCtx {
    next: 70000,
    results: 801,
    diagnostics: 902,
};

// What an answer lends: so many bytes of results and so many structs; and how many bytes of the results count in its
// line.
#[derive(Clone, Copy, Debug)]
struct Loan {
    results: usize,
    structs: usize,
    shown: usize,
}

// Struct i, as lent.
fn lent_struct(i: usize) -> Diagnostic
    requires { i < STRUCTS }
{
    Diagnostic {
        kind: (i % 256) as u8,
        message: (3 * i % 256) as u8,
        name: (7 * i) as u16,
        member: (11 * i) as u16,
        class: ErrorClass::from(i as u64 % 3),
        span: Span {
            offset: (13 * i) as u32,
            len: (17 * i) as u32,
        },
    }
}

// Byte i of the results, as lent. `replay` fills its results with the same bytes; it keeps what is proved of them in
// its own definitions, and the two programs share only how they read, which is `answers`.
fn lent_byte(i: usize) -> u8 {
    ((5 * (i % 256) + 17) % 256) as u8
}

// The digest h with one number more behind it.
fn digest(h: u64, x: u64) -> u64 {
    h.wrapping_mul(31).wrapping_add(x).wrapping_add(1) % PRIME
}

// The digest h with every field of a struct behind it.
fn digest_struct(h: u64, d: Diagnostic) -> u64 {
    let fields = [
        u64::from(d.kind),
        u64::from(d.message),
        u64::from(d.name),
        u64::from(d.member),
        d.class.number(),
        u64::from(d.span.offset),
        u64::from(d.span.len),
    ];
    fields.iter().fold(h, |h, x| digest(h, *x))
}

// One number made of all structs and of the bytes that are shown.
fn digest_of(structs: &[Diagnostic], shown: &[u8]) -> u64 {
    let told = structs.iter().fold(0, |h, d| digest_struct(h, *d));
    shown
        .iter()
        .fold(told, |h, byte| digest(h, u64::from(*byte)))
}

// The line of an answer.
fn print_answer<P: Print>(
    rt: &P,
    reply: Result<Counts, Refusal>,
    ctx: LowerCtx,
    left: u64,
) -> io::Result<()> {
    let [a, b, c, d] = lower::reply_words(reply);
    let LowerCtx {
        next,
        results,
        diagnostics,
    } = ctx;
    println!(rt; "{a} {b} {c} {d} {next} {results} {diagnostics} {left}")
}

// Lowers a book into what is lent, and prints the line of the answer.
fn lower_and_print<P: Print>(rt: &P, loan: Loan, book: &[u8]) -> io::Result<()>
    requires { (loan.results ≤ RESULT_BYTES) × (loan.structs ≤ STRUCTS) × (loan.shown ≤ loan.results) }
{
    let mut results = [0u8; RESULT_BYTES];
    let mut structs = [Diagnostic::default(); STRUCTS];
    let mut ctx = LENT;
    for (i, byte) in results[..loan.shown].iter_mut().enumerate() {
        *byte = lent_byte(i);
    }
    for (i, diagnostic) in structs.iter_mut().enumerate() {
        *diagnostic = lent_struct(i);
    }
    let reply = lent::lower_lent(
        &mut ctx,
        book,
        &mut results[..loan.results],
        &mut structs[..loan.structs],
    );
    let left = digest_of(&structs, &results[..loan.shown]);
    print_answer(rt, reply, ctx, left)
}

// What reads the input stands from here on. Where `tests/lent` runs the program on the interpreter, which reads no
// input, it has answers in the text in its place.

use answers::{Stop, read_part};
use book::BLOCKS;
use record::{BLOCK_BYTES, bytes};
use std::io::{BufRead, Read};

// The longest book that is read, one block past the limit.
const BOOK_BYTES: usize = (BLOCKS + 1) * BLOCK_BYTES;

// The most bytes of the results that count in a line, those of fifty records.
const MOST_SHOWN: usize = 50 * RECORD_BYTES;

// The header of an answer: the length of the book, and what is lent.
#[derive(Clone, Copy, Debug)]
struct Header {
    book: usize,
    loan: Loan,
}

// The number in the four bytes from a place on.
fn number(header: &[u8; 16], at: usize) -> usize {
    bytes::four(bytes::from(header, at)) as usize
}

impl From<[u8; 16]> for Header {
    fn from(header: [u8; 16]) -> Self {
        Header {
            book: number(&header, 0),
            loan: Loan {
                results: number(&header, 4),
                structs: number(&header, 8),
                shown: number(&header, 12),
            },
        }
    }
}

// Reads an answer and prints its line.
fn run_answer<P: Print, R: Read>(rt: &P, reader: &mut R) -> Result<(), Stop> {
    let mut header = [0u8; 16];
    reader.read_exact(&mut header)?;
    let Header { book: length, loan } = Header::from(header);
    if length > BOOK_BYTES || loan.results > RESULT_BYTES || loan.structs > STRUCTS {
        return Err(Stop::Broken);
    }
    if loan.shown > MOST_SHOWN || loan.shown > loan.results {
        return Err(Stop::Broken);
    }
    let mut room = [0u8; BOOK_BYTES];
    let book = read_part(reader, &mut room, length)?;
    lower_and_print(rt, loan, book)?;
    Ok(())
}

// Reads answers to the end of the input. It goes by a count that no input reaches, since a loop has to have an end, and
// how long an input is cannot be known.
fn run<P: Print, R: BufRead>(rt: &P, reader: &mut R) -> Result<(), Stop> {
    for _ in 0..u64::MAX {
        if reader.fill_buf()?.is_empty() {
            break;
        }
        run_answer(rt, reader)?;
    }
    Ok(())
}

fn main(rt: HostRuntime) -> io::Result<()> {
    match run(&rt, &mut rt.reader()) {
        Ok(()) => Ok(()),
        Err(Stop::Broken) => println!(rt; "broken"),
        Err(Stop::Failed(error)) => Err(error),
    }
}
