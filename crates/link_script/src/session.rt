// Makes the calls, and keeps the slip of the last arrival until it is spent.
ghost use Rattle.std.specs.Prelude.{◌≤◌, vec_len};

use crate::answer::{Bytes, print_error, print_refusal, print_verdict};
use crate::command::{Arrive, Command, End, Insert, Issue, PathCall, Reset, ResetKey, Retry, Take};
use crate::desk::{Desk, Unmade};
use crate::words::{Bad, MOST};
use answers::{Refusal, Refused};
use bloom::{optimal_k_num, optimal_k_num_by_half};
use gate::{Accepted, Arrived, Gate, Slip};
use sealing::{Nonce, SealingScheme};
use stateless_reset::{ResetToken, ResetTokenTable};
use std::{io, mem};
use token_log::TokenLog;
use token_store::TokenStore;

// What a script's calls are made on: the gate, the store, the paths, the table of reset tokens, two buffers, the slip that is
// open, if one is, and the last arrival that was accepted, if no path opened for it.
pub(crate) struct Session<'a, S, L, T> {
    gate: Gate<S, L>,
    store: T,
    desk: Desk<'a>,
    resets: ResetTokenTable<'a>,
    slip: Option<Slip>,
    accepted: Option<Accepted>,
    out: Vec<u8>,
    working: Vec<u8>,
}

// Ignores a slip that is still open.
fn ignore(slip: Option<Slip>) {
    if let Some(slip) = slip {
        slip.ignore();
    }
}

// The reset token of a connection id under either key.
fn reset_token(key: ResetKey, id: &[u8], working: &mut [u8]) -> Result<ResetToken, Refusal> {
    match key {
        ResetKey::Hmac(key) => ResetToken::new(&key, id, working),
        ResetKey::Bench(key) => ResetToken::new(&key, id, working),
    }
}

// The front of a buffer, or all of it.
fn cut(buffer: &Vec<u8>, length: usize) -> usize
    ensures { result ≤ vec_len buffer.now }
{
    length.min(buffer.len())
}

impl<'a, S: SealingScheme + Drop, L: TokenLog + Drop, T: TokenStore + Drop> Session<'a, S, L, T> {
    pub(crate) fn new(
        gate: Gate<S, L>,
        store: T,
        desk: Desk<'a>,
        resets: ResetTokenTable<'a>,
        out: Vec<u8>,
        working: Vec<u8>,
    ) -> Session<'a, S, L, T> {
        Session {
            gate,
            store,
            desk,
            resets,
            slip: None,
            accepted: None,
            out,
            working,
        }
    }

    // Ends the session. A slip that is still open is ignored, and paths and grants lapse.
    pub(crate) fn end(self) {
        let Session {
            gate: _,
            store: _,
            desk,
            resets: _,
            slip,
            accepted: _,
            out: _,
            working: _,
        } = self;
        ignore(slip);
        desk.end();
    }
}

impl<S: SealingScheme, L: TokenLog, T: TokenStore> Session<'_, S, L, T> {
    // Has this slip open, and no other.
    fn open(&mut self, slip: Option<Slip>) {
        ignore(mem::replace(&mut self.slip, slip));
    }

    fn issue(&mut self, rt: &impl Print, call: Issue) -> io::Result<()> {
        let room = cut(&self.out, call.room);
        let working = cut(&self.working, call.working);
        let out = &mut self.out[0..room];
        match self.gate.issue(
            Nonce::new(call.low, call.high),
            call.ip,
            call.clock,
            out,
            &mut self.working[0..working],
        ) {
            Ok(len) => println!(rt; "token {}", Bytes(&out[0..len.min(out.len())])),
            Err(unsealed) => print_refusal(rt, unsealed.refusal),
        }
    }

    // Every arrival first ignores a slip that is still open.
    fn arrive(&mut self, rt: &impl Print, call: Arrive) -> io::Result<()> {
        self.open(None);
        let working = cut(&self.working, call.working);
        match self.gate.arrive(
            &call.token,
            &call.destination,
            call.address,
            call.clock,
            &mut self.working[0..working],
        ) {
            Ok(Arrived { verdict, slip }) => {
                self.open(slip);
                print_verdict(rt, &verdict)
            }
            Err(refusal) => print_refusal(rt, refusal),
        }
    }

    fn retry(&mut self, rt: &impl Print, call: Retry) -> io::Result<()> {
        let Some(slip) = self.slip.take() else {
            return println!(rt; "no slip");
        };
        let room = cut(&self.out, call.room);
        let working = cut(&self.working, call.working);
        let out = &mut self.out[0..room];
        match self.gate.retry(
            slip,
            Nonce::new(call.low, call.high),
            call.clock,
            out,
            &mut self.working[0..working],
        ) {
            Ok(len) => println!(rt; "token {}", Bytes(&out[0..len.min(out.len())])),
            Err(
                Refused {
                    refusal,
                    back: (slip, _),
                },
            ) => {
                self.open(Some(slip));
                print_refusal(rt, refusal)
            }
        }
    }

    fn spend(&mut self, rt: &impl Print, end: End) -> io::Result<()> {
        let Some(slip) = self.slip.take() else {
            return println!(rt; "no slip");
        };
        match end {
            End::Accept => {
                self.accepted = Some(slip.accept());
                println!(rt; "accepted")
            }
            End::Refuse => {
                slip.refuse();
                println!(rt; "refused slip")
            }
            End::Ignore => {
                slip.ignore();
                println!(rt; "ignored")
            }
        }
    }

    fn insert(&mut self, rt: &impl Print, call: Insert<'_>) -> io::Result<()> {
        match self.store.insert(call.name, &call.token) {
            Ok(()) => println!(rt; "stored"),
            Err(refusal) => print_refusal(rt, refusal),
        }
    }

    fn take(&mut self, rt: &impl Print, call: Take<'_>) -> io::Result<()> {
        let room = cut(&self.out, call.room);
        let out = &mut self.out[0..room];
        match self.store.take(call.name, out) {
            Ok(Some(len)) => println!(rt; "taken {}", Bytes(&out[0..len.min(out.len())])),
            Ok(None) => println!(rt; "none"),
            Err(refusal) => print_refusal(rt, refusal),
        }
    }

    // Makes a call on a path, and gives the word for it.
    fn on_path(&mut self, call: PathCall) -> Result<&'static str, Unmade> {
        match call {
            PathCall::Open { path } => {
                self.desk.open(path, &mut self.accepted)?;
                Ok("opened")
            }
            PathCall::Validate { path } => {
                self.desk.validate(path)?;
                Ok("validated")
            }
            PathCall::Receive { path, bytes } => {
                self.desk.receive(path, bytes)?;
                Ok("received")
            }
            PathCall::Grant { path, grant, bytes } => {
                self.desk.grant(path, grant, bytes)?;
                Ok("granted")
            }
            PathCall::Spend { path, grant, sent } => {
                self.desk.spend(path, grant, sent)?;
                Ok("spent")
            }
            PathCall::Close { path } => {
                self.desk.close(path)?;
                Ok("closed")
            }
        }
    }

    fn path(&mut self, rt: &impl Print, number: u64, call: PathCall) -> io::Result<()> {
        match self.on_path(call) {
            Ok(word) => println!(rt; "{word}"),
            Err(Unmade::Taken) => print_error(rt, number, Bad::Line("taken")),
            Err(Unmade::Refused(refusal)) => print_refusal(rt, refusal),
            Err(unmade) => println!(rt; "{unmade}"),
        }
    }

    fn reset(&mut self, rt: &impl Print, call: Reset) -> io::Result<()> {
        let working = cut(&self.working, call.working);
        match reset_token(call.key, &call.id, &mut self.working[0..working]) {
            Ok(token) => println!(rt; "reset {}", Bytes(token.as_bytes())),
            Err(refusal) => print_refusal(rt, refusal),
        }
    }

    fn remember(&mut self, rt: &impl Print, token: ResetToken) -> io::Result<()> {
        match self.resets.remember(token) {
            Ok(()) => println!(rt; "remembered"),
            Err(refusal) => print_refusal(rt, refusal),
        }
    }

    fn datagram(&self, rt: &impl Print, datagram: &[u8]) -> io::Result<()> {
        if self.resets.is_reset(datagram) {
            return println!(rt; "a reset");
        }
        println!(rt; "no reset")
    }

    // Makes the call of a line, and prints what it answers.
    pub(crate) fn call(
        &mut self,
        rt: &impl Print,
        number: u64,
        command: Command<'_>,
    ) -> io::Result<()> {
        match command {
            Command::Issue(call) => self.issue(rt, call),
            Command::Arrive(call) => self.arrive(rt, call),
            Command::Retry(call) => self.retry(rt, call),
            Command::Spend(end) => self.spend(rt, end),
            Command::Insert(call) => self.insert(rt, call),
            Command::Take(call) => self.take(rt, call),
            Command::Path(call) => self.path(rt, number, call),
            Command::Reset(call) => self.reset(rt, call),
            Command::Remember(token) => self.remember(rt, token),
            Command::Datagram(datagram) => self.datagram(rt, &datagram),
            Command::HashCount { budget, hits } => println!(rt;
                "k {}",
                optimal_k_num(budget, hits)
            ),
            Command::HalfHashCount { budget, hits } => println!(rt;
                "k {}",
                optimal_k_num_by_half(budget, hits)
            ),
        }
    }
}
