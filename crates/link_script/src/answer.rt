// What a call answers, as a line shows it.
use crate::words::Bad;
use answers::Refusal;
use gate::Verdict;
use hex_text::Hex;
use std::{fmt, io};

// Bytes in hex, `-` for none.
#[derive(Drop)]
pub(crate) struct Bytes<'a>(pub(crate) &'a [u8]);

impl fmt::Display for Bytes<'_> {
    fn fmt<W: fmt::Write>(&self, f: &mut fmt::Formatter<W>) -> fmt::Result {
        if self.0.is_empty() {
            return f.write_str("-");
        }
        write!(f, "{}", Hex(self.0))
    }
}

pub(crate) fn print_refusal(rt: &impl Print, refusal: Refusal) -> io::Result<()> {
    println!(rt; "refused {}", refusal.number())
}

// Says what is wrong with a line, by its number; the run goes on.
pub(crate) fn print_error(rt: &impl Print, number: u64, bad: Bad) -> io::Result<()> {
    println!(rt; "error {number} {bad}")
}

pub(crate) fn print_verdict(rt: &impl Print, verdict: &Verdict) -> io::Result<()> {
    let number = verdict.number();
    match verdict {
        Verdict::Validated {
            retry_src_cid: Some(source),
            orig_dst_cid,
        } => println!(rt;
            "validated {number} source {} original {}",
            Bytes(source.as_slice()),
            Bytes(orig_dst_cid.as_slice())
        ),
        Verdict::Validated {
            retry_src_cid: None,
            orig_dst_cid,
        } => println!(rt;
            "validated {number} source none original {}",
            Bytes(orig_dst_cid.as_slice())
        ),
        Verdict::Unvalidated { orig_dst_cid, .. } => println!(rt;
            "unvalidated {number} source none original {}",
            Bytes(orig_dst_cid.as_slice())
        ),
        Verdict::Rejected { .. } => println!(rt; "rejected {number}"),
    }
}
