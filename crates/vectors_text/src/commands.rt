// The commands, the forms of their cases, and what they are called.
use crate::form;

// The most bytes that are read, sent or lent as a buffer in a case, and the most places of a lent table.
pub const BYTES: usize = 16384;

pub const PLACES: usize = 1024;

#[derive(Clone, Copy, PartialEq)]
pub enum Command {
    ReadAtContainer,
    ReadAtServer,
    Send(Sending),
    Build(Piece),
    NameOf(List),
    CodeOf(List),
    Check,
}

// The packets that are sent: in one call, or by closing one that was built.
#[derive(Clone, Copy, PartialEq)]
pub enum Sending {
    CPing,
    CPong,
    Body,
    Chunk,
    Get,
    End,
    Close,
}

// The pieces of a packet that is built.
#[derive(Clone, Copy, PartialEq)]
pub enum Piece {
    Forward,
    SendHeaders,
    HeaderByCode,
    HeaderByName,
    TextAttribute,
    IntegerAttribute,
    PairAttribute,
}

// The lists of names and codes.
#[derive(Clone, Copy, PartialEq)]
pub enum List {
    Method,
    Request,
    Response,
    Attribute,
}

// A command, the form of its cases (`form` says what a capital letter stands for), and what it is called.
#[derive(Clone, Copy)]
pub struct Listed {
    pub command: Command,
    pub form: &'static str,
    pub name: &'static str,
}

pub const COUNT: usize = 25;

pub static LISTED: [Listed; COUNT] = [
    Listed {
        command: Command::ReadAtContainer,
        form: "read container C T B",
        name: "read at the container",
    },
    Listed {
        command: Command::ReadAtServer,
        form: "read server C T B",
        name: "read at the server",
    },
    Listed {
        command: Command::Send(Sending::CPing),
        form: "cping C B",
        name: "cping",
    },
    Listed {
        command: Command::Send(Sending::CPong),
        form: "cpong C B",
        name: "cpong",
    },
    Listed {
        command: Command::Send(Sending::Body),
        form: "body C B B",
        name: "body",
    },
    Listed {
        command: Command::Send(Sending::Chunk),
        form: "chunk C B B",
        name: "chunk",
    },
    Listed {
        command: Command::Send(Sending::Get),
        form: "get C B N",
        name: "get",
    },
    Listed {
        command: Command::Send(Sending::End),
        form: "end C B F",
        name: "end",
    },
    Listed {
        command: Command::Send(Sending::Close),
        form: "close C K,N,N,N,F B",
        name: "close",
    },
    Listed {
        command: Command::Build(Piece::Forward),
        form: "forward B N S S S S S N F",
        name: "forward",
    },
    Listed {
        command: Command::Build(Piece::SendHeaders),
        form: "sendheaders B N S",
        name: "sendheaders",
    },
    Listed {
        command: Command::Build(Piece::HeaderByCode),
        form: "header K,N,N,N,F B code:N S",
        name: "header by its code",
    },
    Listed {
        command: Command::Build(Piece::HeaderByName),
        form: "header K,N,N,N,F B str:S S",
        name: "header by its name",
    },
    Listed {
        command: Command::Build(Piece::TextAttribute),
        form: "attribute K,N,N,N,F B N str:S",
        name: "attribute with a string",
    },
    Listed {
        command: Command::Build(Piece::IntegerAttribute),
        form: "attribute K,N,N,N,F B N int:N",
        name: "attribute with an integer",
    },
    Listed {
        command: Command::Build(Piece::PairAttribute),
        form: "attribute K,N,N,N,F B N pair:S:S",
        name: "attribute with a name and a string",
    },
    Listed {
        command: Command::NameOf(List::Method),
        form: "name method N",
        name: "name of a method",
    },
    Listed {
        command: Command::NameOf(List::Request),
        form: "name request N",
        name: "name of a request header",
    },
    Listed {
        command: Command::NameOf(List::Response),
        form: "name response N",
        name: "name of a response header",
    },
    Listed {
        command: Command::NameOf(List::Attribute),
        form: "name attribute N",
        name: "name of an attribute",
    },
    Listed {
        command: Command::CodeOf(List::Method),
        form: "code method B",
        name: "code of a method",
    },
    Listed {
        command: Command::CodeOf(List::Request),
        form: "code request B",
        name: "code of a request header",
    },
    Listed {
        command: Command::CodeOf(List::Response),
        form: "code response B",
        name: "code of a response header",
    },
    Listed {
        command: Command::CodeOf(List::Attribute),
        form: "code attribute B",
        name: "code of an attribute",
    },
    Listed {
        command: Command::Check,
        form: "check B",
        name: "check of a capture",
    },
];

// The command whose form a case has.
pub fn of(case: &[u8]) -> Option<Command> {
    LISTED
        .iter()
        .find(|listed| form::is_of(case, listed.form.as_bytes()))
        .map(|listed| listed.command)
}
