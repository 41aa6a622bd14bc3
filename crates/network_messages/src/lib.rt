// A message: its header, of which sort it is, and the message of a sort with a header.
#![tactic(auto)]

ghost use Rattle.std.specs.Prelude.{◌≡◌};
ghost use Rattle.rules.specs.Messages.{header_of, sort_of, message_of, asking, is_for_chunk};
ghost use Rattle.rules.specs.declared.Sort.{Sort};

use rules::{Epoch, Header, Message, Refusal, Request, Sort};

// "Each has host, chunk, block and timestamp". (One match of the ten: their fields' lines make it long.)
pub fn header_of(m: Message) -> Header
    ensures { result ≡ header_of m }
{
    match m {
        Message::Read {
            host,
            chunk,
            block,
            timestamp,
            ..
        }
        | Message::Prewrite {
            host,
            chunk,
            block,
            timestamp,
            ..
        }
        | Message::Commit {
            host,
            chunk,
            block,
            timestamp,
            ..
        }
        | Message::Abort {
            host,
            chunk,
            block,
            timestamp,
            ..
        }
        | Message::Mismatch {
            host,
            chunk,
            block,
            timestamp,
        }
        | Message::Error {
            host,
            chunk,
            block,
            timestamp,
        }
        | Message::OutOfOrder {
            host,
            chunk,
            block,
            timestamp,
        }
        | Message::Busy {
            host,
            chunk,
            block,
            timestamp,
        }
        | Message::ReadReply {
            host,
            chunk,
            block,
            timestamp,
            ..
        }
        | Message::PrewriteReply {
            host,
            chunk,
            block,
            timestamp,
        } => Header {
            host,
            chunk,
            block,
            timestamp,
        },
    }
}

// "the first four also the epoch the host knows; a prewrite and a read reply a value".
pub fn sort_of(m: Message) -> Sort
    ensures { result ≡ sort_of m }
{
    match m {
        Message::Read { epoch, .. } => Sort::Request(epoch, Request::Read),
        Message::Prewrite { epoch, value, .. } => Sort::Request(epoch, Request::Prewrite(value)),
        Message::Commit { epoch, .. } => Sort::Request(epoch, Request::Commit),
        Message::Abort { epoch, .. } => Sort::Request(epoch, Request::Abort),
        Message::Mismatch { .. } => Sort::Refusal(Refusal::Mismatch),
        Message::Error { .. } => Sort::Refusal(Refusal::Error),
        Message::OutOfOrder { .. } => Sort::Refusal(Refusal::OutOfOrder),
        Message::Busy { .. } => Sort::Refusal(Refusal::Busy),
        Message::ReadReply { value, .. } => Sort::ReadReply(value),
        Message::PrewriteReply { .. } => Sort::PrewriteReply,
    }
}

// What a host asks of a chunk.
fn request_of(header: Header, epoch: Epoch, request: Request) -> Message
    ensures { result ≡ asking header epoch request }
{
    let Header {
        host,
        chunk,
        block,
        timestamp,
    } = header;
    match request {
        Request::Read => Message::Read {
            host,
            chunk,
            block,
            timestamp,
            epoch,
        },
        Request::Prewrite(value) => Message::Prewrite {
            host,
            chunk,
            block,
            timestamp,
            epoch,
            value,
        },
        Request::Commit => Message::Commit {
            host,
            chunk,
            block,
            timestamp,
            epoch,
        },
        Request::Abort => Message::Abort {
            host,
            chunk,
            block,
            timestamp,
            epoch,
        },
    }
}

// A chunk's answer that it does not do what it is asked.
fn refusal_of(header: Header, why: Refusal) -> Message
    ensures { result ≡ message_of header (Sort.Refusal why) }
{
    let Header {
        host,
        chunk,
        block,
        timestamp,
    } = header;
    match why {
        Refusal::Mismatch => Message::Mismatch {
            host,
            chunk,
            block,
            timestamp,
        },
        Refusal::Error => Message::Error {
            host,
            chunk,
            block,
            timestamp,
        },
        Refusal::OutOfOrder => Message::OutOfOrder {
            host,
            chunk,
            block,
            timestamp,
        },
        Refusal::Busy => Message::Busy {
            host,
            chunk,
            block,
            timestamp,
        },
    }
}

// The message of a sort with a header.
pub fn message_of(header: Header, sort: Sort) -> Message
    ensures { result ≡ message_of header sort }
{
    let Header {
        host,
        chunk,
        block,
        timestamp,
    } = header;
    match sort {
        Sort::Request(epoch, request) => request_of(header, epoch, request),
        Sort::Refusal(why) => refusal_of(header, why),
        Sort::ReadReply(value) => Message::ReadReply {
            host,
            chunk,
            block,
            timestamp,
            value,
        },
        Sort::PrewriteReply => Message::PrewriteReply {
            host,
            chunk,
            block,
            timestamp,
        },
    }
}

// Requests go to the chunk, replies to the host.
pub fn is_for_chunk(m: Message) -> bool
    ensures { result ≡ is_for_chunk (sort_of m) }
{
    matches!(sort_of(m), Sort::Request(..))
}
