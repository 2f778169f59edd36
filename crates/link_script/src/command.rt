// The calls that a script makes.
use crate::desk::{GRANTS, PATHS};
use crate::words::{Bad, Words};
use sealing::{MAX_TOKEN_LEN, WORKING_LEN};
use sha256::HmacKey;
use stateless_reset::{BenchKey, RESET_WORKING_LEN, ResetToken};
use token_store::MAX_STORED_LEN;
use wire::{IpAddr, SocketAddr};

#[derive(Clone, Copy)]
pub(crate) struct Issue {
    pub(crate) low: u64,
    pub(crate) high: u64,
    pub(crate) ip: IpAddr,
    pub(crate) clock: u64,
    pub(crate) room: usize,
    pub(crate) working: usize,
}

#[derive(Drop)]
pub(crate) struct Arrive {
    pub(crate) token: Vec<u8>,
    pub(crate) destination: Vec<u8>,
    pub(crate) address: SocketAddr,
    pub(crate) clock: u64,
    pub(crate) working: usize,
}

#[derive(Clone, Copy)]
pub(crate) struct Retry {
    pub(crate) low: u64,
    pub(crate) high: u64,
    pub(crate) clock: u64,
    pub(crate) room: usize,
    pub(crate) working: usize,
}

// How a slip ends without a token.
#[derive(Clone, Copy)]
pub(crate) enum End {
    Accept,
    Refuse,
    Ignore,
}

#[derive(Drop)]
pub(crate) struct Insert<'a> {
    pub(crate) name: &'a str,
    pub(crate) token: Vec<u8>,
}

#[derive(Clone, Copy)]
pub(crate) struct Take<'a> {
    pub(crate) name: &'a str,
    pub(crate) room: usize,
}

// What is asked of a path and its grants, by the script's own numbers.
#[derive(Clone, Copy)]
pub(crate) enum PathCall {
    Open {
        path: usize,
    },
    Validate {
        path: usize,
    },
    Receive {
        path: usize,
        bytes: u64,
    },
    Grant {
        path: usize,
        grant: usize,
        bytes: u32,
    },
    Spend {
        path: usize,
        grant: usize,
        sent: u32,
    },
    Close {
        path: usize,
    },
}

// The keys that a reset token can be made by.
#[derive(Clone, Copy)]
pub(crate) enum ResetKey {
    Hmac(HmacKey),
    Bench(BenchKey),
}

#[derive(Drop)]
pub(crate) struct Reset {
    pub(crate) key: ResetKey,
    pub(crate) id: Vec<u8>,
    pub(crate) working: usize,
}

#[derive(Drop)]
pub(crate) enum Command<'a> {
    Issue(Issue),
    Arrive(Arrive),
    Retry(Retry),
    Spend(End),
    Insert(Insert<'a>),
    Take(Take<'a>),
    Path(PathCall),
    Reset(Reset),
    Remember(ResetToken),
    Datagram(Vec<u8>),
    HashCount { budget: u32, hits: u32 },
    HalfHashCount { budget: u32, hits: u32 },
}

// The fields of a struct are read in the order in which it has them, which is that of the words.
fn read_issue(words: &mut Words<'_>) -> Result<Issue, Bad> {
    Ok(Issue {
        low: words.number()?,
        high: words.number()?,
        ip: words.ip()?,
        clock: words.number()?,
        room: words.length("room", MAX_TOKEN_LEN)?,
        working: words.length("working", WORKING_LEN)?,
    })
}

fn read_arrive(words: &mut Words<'_>) -> Result<Arrive, Bad> {
    let token = words.bytes()?;
    let destination = words.bytes()?;
    let address = SocketAddr {
        ip: words.ip()?,
        port: words.port()?,
    };
    let clock = words.number()?;
    let working = words.length("working", WORKING_LEN)?;
    Ok(Arrive {
        token,
        destination,
        address,
        clock,
        working,
    })
}

fn read_retry(words: &mut Words<'_>) -> Result<Retry, Bad> {
    Ok(Retry {
        low: words.number()?,
        high: words.number()?,
        clock: words.number()?,
        room: words.length("room", MAX_TOKEN_LEN)?,
        working: words.length("working", WORKING_LEN)?,
    })
}

fn read_insert<'a>(words: &mut Words<'a>) -> Result<Insert<'a>, Bad> {
    let name = words.name()?;
    let token = words.bytes()?;
    Ok(Insert { name, token })
}

fn read_take<'a>(words: &mut Words<'a>) -> Result<Take<'a>, Bad> {
    let name = words.name()?;
    let room = words.length("room", MAX_STORED_LEN)?;
    Ok(Take { name, room })
}

fn read_path(words: &mut Words<'_>) -> Result<usize, Bad> {
    words.below(PATHS, "not a path")
}

fn read_grant_number(words: &mut Words<'_>) -> Result<usize, Bad> {
    words.below(GRANTS, "not a grant")
}

fn read_receive(words: &mut Words<'_>) -> Result<PathCall, Bad> {
    Ok(PathCall::Receive {
        path: read_path(words)?,
        bytes: words.number()?,
    })
}

fn read_grant(words: &mut Words<'_>) -> Result<PathCall, Bad> {
    Ok(PathCall::Grant {
        path: read_path(words)?,
        grant: read_grant_number(words)?,
        bytes: words.number()?,
    })
}

fn read_spend(words: &mut Words<'_>) -> Result<PathCall, Bad> {
    Ok(PathCall::Spend {
        path: read_path(words)?,
        grant: read_grant_number(words)?,
        sent: words.number()?,
    })
}

// What is asked of a path; none where the first word is no such call.
fn read_path_call(word: &str, words: &mut Words<'_>) -> Result<Option<PathCall>, Bad> {
    let call = match word {
        "open" => PathCall::Open {
            path: read_path(words)?,
        },
        "validate" => PathCall::Validate {
            path: read_path(words)?,
        },
        "receive" => read_receive(words)?,
        "grant" => read_grant(words)?,
        "spend" => read_spend(words)?,
        "close" => PathCall::Close {
            path: read_path(words)?,
        },
        _ => return Ok(None),
    };
    Ok(Some(call))
}

fn read_reset_key(words: &mut Words<'_>) -> Result<ResetKey, Bad> {
    match words.next()? {
        "hmac" => Ok(ResetKey::Hmac(HmacKey::new(&words.bytes()?))),
        "bench" => Ok(ResetKey::Bench(BenchKey::new(words.array()?))),
        _ => Err(Bad::Line("no such key")),
    }
}

fn read_reset(words: &mut Words<'_>) -> Result<Reset, Bad> {
    Ok(Reset {
        key: read_reset_key(words)?,
        id: words.bytes()?,
        working: words.length("working", RESET_WORKING_LEN)?,
    })
}

fn read_hash_count<'a>(words: &mut Words<'a>) -> Result<Command<'a>, Bad> {
    let half = words.skip("half");
    let budget = words.number()?;
    let hits = words.number()?;
    Ok(if half {
        Command::HalfHashCount { budget, hits }
    } else {
        Command::HashCount { budget, hits }
    })
}

// The call that a line makes.
pub(crate) fn read_call<'a>(mut words: Words<'a>) -> Result<Command<'a>, Bad> {
    let command = match words.next()? {
        "issue" => Command::Issue(read_issue(&mut words)?),
        "arrive" => Command::Arrive(read_arrive(&mut words)?),
        "retry" => Command::Retry(read_retry(&mut words)?),
        "accept" => Command::Spend(End::Accept),
        "refuse" => Command::Spend(End::Refuse),
        "ignore" => Command::Spend(End::Ignore),
        "insert" => Command::Insert(read_insert(&mut words)?),
        "take" => Command::Take(read_take(&mut words)?),
        "reset" => Command::Reset(read_reset(&mut words)?),
        "remember" => Command::Remember(ResetToken::from(words.array()?)),
        "datagram" => Command::Datagram(words.bytes()?),
        "k" => read_hash_count(&mut words)?,
        word => match read_path_call(word, &mut words)? {
            Some(call) => Command::Path(call),
            None => return Err(Bad::Line("no such command")),
        },
    };
    words.end()?;
    Ok(command)
}
