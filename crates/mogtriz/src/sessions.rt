// Sessions and boxes from C. A session's marks come as bytes, since another value than 0 or 1 in a `bool` is undefined: a
// session with a byte above 1 is turned away with 13. Each call is the session's own, and write, live nodes and read out hand
// the session back as it came, byte for byte.
ghost use Rattle.std.specs.Prelude.{◌≡◌, map};
ghost use Rattle.mogtriz.specs.Sessions.{byte_of, mark_of, some_above1, session_for_c, session_of_c, started_c, length_c, written_c, live_listed_c, read_out_c, part_in};
ghost use Rattle.checks.specs.Refusals.{number_in};
ghost use Rattle.lists.specs.Lists.{none_live};
ghost use Rattle.repair.specs.Answers.{started_as, written_as, block_in};
ghost use Rattle.repair.specs.Session.{session_with, started};
ghost use Rattle.repair.specs.Boxed.{checked_box, read_box, nodes_read, out_written};
ghost use Rattle.repair.specs.LiveNodes.{out_listed};
ghost use Rattle.repair.specs.ReadOut.{object_out};

use checks::Refusal;
use repair::{Answer, Session};

// C's mogtriz_session.
#[repr(C)]
#[derive(Clone, Copy)]
pub struct MarkedSession {
    pub family: usize,
    pub k: usize,
    pub len: usize,
    pub steps: usize,
    pub live: [u8; 256],
    pub reads: [u16; 256],
}

// C's mogtriz_started.
#[repr(C)]
#[derive(Clone, Copy)]
pub struct StartAnswer {
    pub refusal: u8,
    pub session: MarkedSession,
}

// C's mogtriz_written.
#[repr(C)]
#[derive(Clone, Copy)]
pub struct WriteAnswer {
    pub refusal: u8,
    pub length: usize,
    pub session: MarkedSession,
}

// C's mogtriz_read_out_answer.
#[repr(C)]
#[derive(Clone, Copy)]
pub struct ReadOutAnswer {
    pub refusal: u8,
    pub block: usize,
    pub session: MarkedSession,
}

// C's mogtriz_part.
#[repr(C)]
#[derive(Clone, Copy)]
pub struct Part {
    pub refusal: u8,
    pub from: usize,
    pub length: usize,
}

// The byte of a mark.
fn byte_of(live: bool) -> u8
    ensures { result ≡ byte_of live }
{
    u8::from(live)
}

// A byte for each mark: 1 live, 0 missing.
fn bytes_of(marks: [bool; 256]) -> [u8; 256]
    ensures { result ≡ map byte_of marks }
{
    let mut bytes = [0u8; 256];
    for (j, live) in marks.iter().enumerate() {
        bytes[j] = byte_of(*live);
    }
    bytes
}

// A mark for each byte: 1 live, any other missing.
fn marks_of_bytes(bytes: [u8; 256]) -> [bool; 256]
    ensures { result ≡ map mark_of bytes }
{
    let mut marks = [false; 256];
    for (j, byte) in bytes.iter().enumerate() {
        marks[j] = *byte == 1;
    }
    marks
}

// Whether a byte is neither 0 nor 1. All are gone through, so that the compiler can compare many at a time.
fn some_above_1(bytes: [u8; 256]) -> bool
    ensures { result ≡ some_above1 bytes }
{
    let mut above = false;
    for byte in bytes {
        if 1 < byte {
            above = true;
        }
    }
    above
}

// The session of zeros, with every mark missing.
fn no_session() -> Session
    ensures { result ≡ session_with 0 0 0 none_live }
{
    Session {
        family: 0,
        k: 0,
        len: 0,
        steps: 0,
        live: [false; 256],
        reads: [0u16; 256],
    }
}

// The session that C's is. For one with a byte above 1 stands the session of zeros, whose family is none, so that every call turns it
// away with 13.
impl From<MarkedSession> for Session {
    ghost from_gives = { λ given session. session ≡ session_of_c given };

    fn from(given: MarkedSession) -> Session {
        let bytes = given.live;
        if some_above_1(bytes) {
            return no_session();
        }
        let live = marks_of_bytes(bytes);
        let reads = given.reads;
        Session {
            family: given.family,
            k: given.k,
            len: given.len,
            steps: given.steps,
            live,
            reads,
        }
    }
}

// The session for C, its marks as bytes.
impl From<Session> for MarkedSession {
    ghost from_gives = { λ session given. given ≡ session_for_c session };

    fn from(session: Session) -> MarkedSession {
        let marks = session.live;
        let live = bytes_of(marks);
        let reads = session.reads;
        MarkedSession {
            family: session.family,
            k: session.k,
            len: session.len,
            steps: session.steps,
            live,
            reads,
        }
    }
}

// What a start or a box gives, for C: a refused one gives the session of zeros.
impl From<Result<Session, Refusal>> for StartAnswer {
    ghost from_gives = { λ given answer. answer ≡ started_c (started_as given) };

    fn from(given: Result<Session, Refusal>) -> StartAnswer {
        StartAnswer {
            refusal: checks::number(given),
            session: MarkedSession::from(given.unwrap_or(no_session())),
        }
    }
}

// A session with the nodes of a list live.
#[unsafe(no_mangle)]
pub extern "C" fn mogtriz_start(family: usize, k: usize, len: usize, list: &[u8]) -> StartAnswer
    ensures { result ≡ started_c (started family k len list.now) }
{
    StartAnswer::from(Session::start(family, k, len, list))
}

// A box checked alone.
#[unsafe(no_mangle)]
pub extern "C" fn mogtriz_check(bytes: &[u8]) -> StartAnswer
    ensures { result ≡ started_c (checked_box bytes.now) }
{
    StartAnswer::from(Session::check(bytes))
}

// A box read into a nodes buffer.
#[unsafe(no_mangle)]
pub extern "C" fn mogtriz_read(bytes: &[u8], nodes: &mut [u8]) -> StartAnswer
    ensures value { result ≡ started_c (read_box bytes.now nodes.old) }
    ensures nodes_after { nodes.new ≡ nodes_read bytes.now nodes.old }
{
    StartAnswer::from(Session::read(bytes, nodes))
}

// The body of one node, as a part of the box.
#[unsafe(no_mangle)]
pub extern "C" fn mogtriz_body(bytes: &[u8], node: usize) -> Part
    ensures { result ≡ part_in bytes.now node }
{
    if let Err(refusal) = boxes::check_body(bytes, node) {
        return Part {
            refusal: u8::from(refusal),
            from: 0,
            length: 0,
        };
    }
    Part {
        refusal: 0,
        from: boxes::body_start(bytes, node),
        length: boxes::block_length(bytes),
    }
}

// The number of bytes written, with the session as handed in. Both are lent: by value each would be copied once more.
fn length_for_c(answer: &Answer<usize>, session: &MarkedSession) -> WriteAnswer
    ensures { result ≡ length_c (written_as answer.now) session.now }
{
    WriteAnswer {
        refusal: checks::number(answer.result),
        length: answer.result.unwrap_or(0),
        session: *session,
    }
}

// A box of the listed live nodes.
#[unsafe(no_mangle)]
pub extern "C" fn mogtriz_write(
    session: MarkedSession,
    nodes: &[u8],
    list: &[u8],
    out: &mut [u8],
) -> WriteAnswer
    ensures value { result ≡ written_c session nodes.now list.now out.old }
    ensures out_after { out.new ≡ out_written (session_of_c session) nodes.now list.now out.old }
{
    let answer = Session::from(session).write(nodes, list, out);
    length_for_c(&answer, &session)
}

// The live nodes, rising, a byte each.
#[unsafe(no_mangle)]
pub extern "C" fn mogtriz_live_nodes(session: MarkedSession, out: &mut [u8]) -> WriteAnswer
    ensures value { result ≡ live_listed_c session out.old }
    ensures out_after { out.new ≡ out_listed (session_of_c session) out.old }
{
    let answer = Session::from(session).live_nodes(out);
    length_for_c(&answer, &session)
}

// The data block whose node is missing, which comes with 14; 0 with any other answer.
fn block_in(given: Result<(), Refusal>) -> usize
    ensures { result ≡ block_in given }
{
    match given {
        Ok(()) => 0,
        Err(refusal) => refusal.block(),
    }
}

// What reading out gives, with the session as handed in, lent as to `length_for_c`.
fn read_out_for_c(answer: &Answer<()>, session: &MarkedSession) -> ReadOutAnswer
    ensures { result ≡ record { refusal = number_in answer.now.result; block = block_in answer.now.result; session = session.now } }
{
    ReadOutAnswer {
        refusal: checks::number(answer.result),
        block: block_in(answer.result),
        session: *session,
    }
}

// The k data blocks.
#[unsafe(no_mangle)]
pub extern "C" fn mogtriz_read_out(
    session: MarkedSession,
    nodes: &[u8],
    object: &mut [u8],
) -> ReadOutAnswer
    ensures value { result ≡ read_out_c session nodes.now object.old }
    ensures object_after { object.new ≡ object_out (session_of_c session) nodes.now object.old }
{
    let answer = Session::from(session).read_out(nodes, object);
    read_out_for_c(&answer, &session)
}
