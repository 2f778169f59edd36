// The head of a script: the scheme, the log, the gate and the store, in this order.
use crate::words::{Bad, Words};

// A line of the head: its first word, what is said where another stands, and what follows it.
pub(crate) trait Head {
    const WORD: &'static str;

    const OTHERWISE: &'static str;

    fn read(words: &mut Words<'_>) -> Result<Self, Bad>
    where
        Self: Sized;
}

// Reads a line as this line of the head, and no more.
pub(crate) fn read_head<H: Head + Drop>(mut words: Words<'_>) -> Result<H, Bad> {
    if words.next()? != H::WORD {
        return Err(Bad::Line(H::OTHERWISE));
    }
    let head = H::read(&mut words)?;
    words.end()?;
    Ok(head)
}

#[derive(Clone, Copy)]
pub(crate) enum SchemeHead {
    Bench([u8; 16]),
    Ccm([u8; 32]),
}

impl Head for SchemeHead {
    const WORD: &'static str = "scheme";

    const OTHERWISE: &'static str = "the scheme comes first";

    fn read(words: &mut Words<'_>) -> Result<SchemeHead, Bad> {
        match words.next()? {
            "bench" => Ok(SchemeHead::Bench(words.array()?)),
            "ccm" => Ok(SchemeHead::Ccm(words.array()?)),
            _ => Err(Bad::Line("no such scheme")),
        }
    }
}

#[derive(Clone, Copy)]
pub(crate) enum LogHead {
    None,
    Set { capacity: u32 },
    Bloom { budget: u32, k: u32 },
    Turning { budget: u32, k: u32 },
    Expected { budget: u32, hits: u32 },
    Half { budget: u32, hits: u32 },
}

impl Head for LogHead {
    const WORD: &'static str = "log";

    const OTHERWISE: &'static str = "the log comes next";

    fn read(words: &mut Words<'_>) -> Result<LogHead, Bad> {
        let head = match words.next()? {
            "none" => LogHead::None,
            "set" => LogHead::Set {
                capacity: words.number()?,
            },
            "bloom" => LogHead::Bloom {
                budget: words.number()?,
                k: words.number()?,
            },
            "turning" => LogHead::Turning {
                budget: words.number()?,
                k: words.number()?,
            },
            "expected" => LogHead::Expected {
                budget: words.number()?,
                hits: words.number()?,
            },
            "half" => LogHead::Half {
                budget: words.number()?,
                hits: words.number()?,
            },
            _ => return Err(Bad::Line("no such log")),
        };
        Ok(head)
    }
}

#[derive(Clone, Copy)]
pub(crate) struct GateHead {
    pub(crate) retry: u64,
    pub(crate) validation: u64,
}

impl Head for GateHead {
    const WORD: &'static str = "gate";

    const OTHERWISE: &'static str = "the gate comes next";

    fn read(words: &mut Words<'_>) -> Result<GateHead, Bad> {
        Ok(GateHead {
            retry: words.number()?,
            validation: words.number()?,
        })
    }
}

// How many names a cache may hold, and how many tokens a name.
#[derive(Clone, Copy)]
pub(crate) struct Limits {
    pub(crate) names: u32,
    pub(crate) tokens: u32,
}

impl Limits {
    fn read(words: &mut Words<'_>) -> Result<Limits, Bad> {
        Ok(Limits {
            names: words.number()?,
            tokens: words.number()?,
        })
    }
}

#[derive(Clone, Copy)]
pub(crate) enum StoreHead {
    None,
    Cache(Limits),
    Newest(Limits),
}

impl Head for StoreHead {
    const WORD: &'static str = "store";

    const OTHERWISE: &'static str = "the store comes next";

    fn read(words: &mut Words<'_>) -> Result<StoreHead, Bad> {
        match words.next()? {
            "none" => Ok(StoreHead::None),
            "cache" => Ok(StoreHead::Cache(Limits::read(words)?)),
            "newest" => Ok(StoreHead::Newest(Limits::read(words)?)),
            _ => Err(Bad::Line("no such store")),
        }
    }
}
