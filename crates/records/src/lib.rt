// What stands at the head of the bytes of a trace: one record at a time, in the order of document 01's tests. Whatever the bytes are, there is an answer.
#![tactic(auto)]

ghost use Rattle.std.specs.Prelude.{◌≡◌, get_or};
ghost use Rattle.records.specs.Records as Records;

use rounds::Event;

// How far a trace has come.
#[derive(Clone, Copy, Debug, PartialEq, Eq)]
pub enum Place {
    // The first record stands here: it must be an opening.
    First,
    // A later record stands here: it must not be one.
    Later,
    // The end record has been read: nothing may stand here.
    Behind,
}

// What is wrong with the bytes of a trace. Its number is that of document 01.
#[derive(Clone, Copy, Debug, PartialEq, Eq)]
pub enum Fault {
    // 9: the trace ends inside a record or without an end record.
    EndsInside,
    // 10: tag unknown.
    UnknownTag,
    // 11: length wrong for the tag.
    WrongLength,
    // 12: first record is not an opening, or a later one is.
    WrongPlace,
    // 13: bytes after the end record.
    BytesBehind,
}

// What a whole record says.
#[derive(Clone, Copy, Debug, PartialEq, Eq)]
pub enum Record {
    // An opening of this many processes; its values stand in the bytes.
    Opening(u8),
    Happens(Event),
    End,
}

// What a record's first byte says.
#[derive(Clone, Copy, Debug, PartialEq, Eq)]
enum Tag {
    Opening,
    Send,
    Receive,
    Step,
    Broadcast,
    End,
}

// The number that document 01 gives a fault: a call that the documents name, as that of a verdict, and so no `From`.
#[tactic(auto, unfolding(crate::specs::Records::fault_number))]
pub fn number(f: Fault) -> u32
    ensures { result ≡ Records.fault_number f }
{
    match f {
        Fault::EndsInside => 9,
        Fault::UnknownTag => 10,
        Fault::WrongLength => 11,
        Fault::WrongPlace => 12,
        Fault::BytesBehind => 13,
    }
}

impl TryFrom<u8> for Tag {
    type Error = Fault;

    ghost try_from_gives = { λ first r. r ≡ Records.tag_of first };

    #[tactic(auto, unfolding(crate::specs::Records::tag_of))]
    fn try_from(first: u8) -> Result<Tag, Fault> {
        match first {
            0x01 => Ok(Tag::Opening),
            0x10 => Ok(Tag::Send),
            0x11 => Ok(Tag::Receive),
            0x12 => Ok(Tag::Step),
            0x13 => Ok(Tag::Broadcast),
            0x7f => Ok(Tag::End),
            _ => Err(Fault::UnknownTag),
        }
    }
}

// The byte at a place, and 0 past the last one: as the definition reads a body, a step's has no second byte.
fn byte(bytes: &[u8], i: usize) -> u8
    ensures { result ≡ get_or bytes.now i 0 }
{
    bytes.get(i).copied().unwrap_or(0)
}

// The length of a body that is not an opening's.
#[tactic(auto, unfolding(crate::specs::Records::size_of))]
fn size(t: Tag) -> usize
    ensures { result ≡ Records.size_of t }
{
    match t {
        Tag::Send | Tag::Receive => 2,
        Tag::Step | Tag::Broadcast => 1,
        Tag::Opening | Tag::End => 0,
    }
}

// The record of a tag that is not an opening's, with its whole body.
#[tactic(auto, unfolding(crate::specs::Records::made))]
fn made(t: Tag, body: &[u8]) -> Record
    ensures { result ≡ Records.made t body.now }
{
    let p = byte(body, 0);
    let q = byte(body, 1);
    match t {
        Tag::Send => Record::Happens(Event::Send(p, q)),
        Tag::Receive => Record::Happens(Event::Receive(p, q)),
        Tag::Step => Record::Happens(Event::Step(p)),
        Tag::Broadcast => Record::Happens(Event::Broadcast(p)),
        Tag::Opening | Tag::End => Record::End,
    }
}

// A record that is not an opening: its length, then its body.
#[tactic(auto, unfolding(crate::specs::Records::plain))]
fn plain(t: Tag, length: usize, body: &[u8]) -> Result<Option<Record>, Fault>
    ensures { result ≡ Records.plain t length body.now }
{
    if length != size(t) {
        return Err(Fault::WrongLength);
    }
    let Some(whole) = body.get(..length) else {
        return Ok(None);
    };
    Ok(Some(made(t, whole)))
}

// An opening: its length, N, its length for N, then its body.
#[tactic(auto, unfolding(crate::specs::Records::opening))]
fn opening(length: usize, body: &[u8]) -> Result<Option<Record>, Fault>
    ensures { result ≡ Records.opening length body.now }
{
    if length == 0 {
        return Err(Fault::WrongLength);
    }
    let [n, ..] = *body else {
        return Ok(None);
    };
    if length != 1 + 4 * usize::from(n) {
        return Err(Fault::WrongLength);
    }
    if body.len() < length {
        return Ok(None);
    }
    Ok(Some(Record::Opening(n)))
}

// Any record, with a head of three bytes, big-endian as all numbers: its tag, its place, then its length and body.
#[tactic(auto, unfolding(crate::specs::Records::headed, crate::specs::Records::judged, crate::specs::Records::misplaced))]
fn headed(first: bool, bytes: &[u8]) -> Result<Option<Record>, Fault>
    ensures { result ≡ Records.headed first bytes.now }
{
    let [tag, high, low, body @ ..] = bytes else {
        return Ok(None);
    };
    let tag = Tag::try_from(*tag)?;
    if first != (tag == Tag::Opening) {
        return Err(Fault::WrongPlace);
    }
    let length = usize::from(u16::from_be_bytes([*high, *low]));
    if first {
        opening(length, body)
    } else {
        plain(tag, length, body)
    }
}

// What stands at the head of the bytes: a fault where they are wrong, nothing where bytes are missing, of a record or of all that could stand here.
#[tactic(auto, unfolding(crate::specs::Records::parse))]
pub fn read(bytes: &[u8], place: Place) -> Result<Option<Record>, Fault>
    ensures { result ≡ Records.parse place bytes.now }
{
    match place {
        Place::First => headed(true, bytes),
        Place::Later => headed(false, bytes),
        Place::Behind if bytes.is_empty() => Ok(None),
        Place::Behind => Err(Fault::BytesBehind),
    }
}

// How many bytes a whole record has; 0 for what is none. It takes all that `read` may answer, so that nobody asks first.
#[tactic(auto, unfolding(crate::specs::Records::extent_of, crate::specs::Records::extent, crate::specs::Records::event_extent))]
pub fn extent(found: Result<Option<Record>, Fault>) -> usize
    ensures { result ≡ Records.extent_of found }
{
    match found {
        Ok(Some(Record::Opening(n))) => 4 + 4 * usize::from(n),
        Ok(Some(Record::Happens(Event::Send(_, _) | Event::Receive(_, _)))) => 5,
        Ok(Some(Record::Happens(Event::Step(_) | Event::Broadcast(_)))) => 4,
        Ok(Some(Record::End)) => 3,
        Ok(None) | Err(_) => 0,
    }
}
