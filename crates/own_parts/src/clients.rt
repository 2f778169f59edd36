ghost use Rattle.std.specs.Prelude.{◌≡◌, ℕ, ◌<◌, ◌≤◌, true, List, ◌∷◌, Ok, IfOk};
ghost use Rattle.token_log.specs.Log.{expiry};
ghost use Rattle.token_log.specs.Generations.{Unused};
ghost use Rattle.gate.specs.Calls.{second};
ghost use Rattle.gate.specs.Successions.{Call, Leads};
ghost use Rattle.gate.specs.declared.Gate.{Gate};
ghost use Rattle.gate.specs.Laws.{honours};
ghost use Rattle.own_parts.specs.Clients.{Told, NoneTwice};

use answers::Refusal;
use filter::Filter;
use gate::{
    Arrived, Gate, Verdict, every_issued_token_in_date_is_honoured, no_token_is_honoured_twice,
};
use sealing::{Nonce, SealingScheme};
use token_log::{TokenLog, TwoGenerationLog};
use wire::SocketAddr;

/// What a client's first packet brings.
#[derive(Drop)]
pub struct Guest {
    pub token: Vec<u8>,
    pub destination: Vec<u8>,
    pub address: SocketAddr,
    pub clock: u64,
}

// Whether a verdict honours a validation token.
fn by_token(verdict: &Verdict) -> bool
    ensures { result ≡ honours (Ok verdict.now) }
{
    matches!(
        verdict,
        Verdict::Validated {
            retry_src_cid: None,
            ..
        }
    )
}

/// Serves one guest at a gate that was used before or not, and answers whether its token was honoured: then no call before
/// honoured it. A refused guest is not.
pub fn serve<S: SealingScheme, L: TokenLog>(
    gate: &mut Gate<S, L>,
    guest: &Guest,
    working: &mut [u8],
) -> bool
    ensures { (start : Gate S L) (xs : List Call) → Leads S.image S.opened L.logs start xs gate.old → (x : Call) × Leads S.image S.opened L.logs start (x ∷ xs) gate.new × Told guest.now.token.items result x xs }
{
    let answer = gate.arrive(
        &guest.token,
        &guest.destination,
        guest.address,
        guest.clock,
        working,
    );
    no_token_is_honoured_twice(gate);
    match answer {
        Ok(Arrived { verdict, slip }) => {
            if let Some(slip) = slip {
                slip.ignore();
            }
            by_token(&verdict)
        }
        Err(_) => false,
    }
}

/// Serves guests in order, as many as there are places to note the answers in: no two of them with one token are noted as
/// honoured.
pub fn serve_all<S: SealingScheme, L: TokenLog>(
    gate: &mut Gate<S, L>,
    guests: &[Guest],
    honoured: &mut [bool],
    working: &mut [u8],
)
    ensures { NoneTwice guests.now honoured.new }
{
    for i in 0..guests.len().min(honoured.len()) {
        honoured[i] = serve(gate, &guests[i], working);
    }
}

/// Issues a token at a gate and admits it later, and answers whether it was honoured. At a gate whose log is unused, over
/// filters of a sure count above zero and under a validation lifetime above zero, it is, if the later clock is in date.
pub fn issue_and_admit<S: SealingScheme, F: Filter>(
    gate: &mut Gate<S, TwoGenerationLog<F>>,
    nonce: Nonce,
    address: SocketAddr,
    clock: u64,
    later: u64,
    out: &mut [u8],
    working: &mut [u8],
) -> Result<bool, Refusal>
    ensures { (c : ℕ) → 0 < c → Unused F.meaning c gate.old.log → 0 < gate.old.validation → later ≤ expiry gate.old.validation (second clock) → IfOk result (λ honoured. honoured ≡ true) }
{
    let written = match gate.issue(nonce, address.ip, clock, out, working) {
        Ok(len) => len,
        Err(refused) => return Err(refused.refusal),
    };
    let answer = gate.arrive(&out[..written], &[], address, later, working);
    every_issued_token_in_date_is_honoured(gate);
    match answer {
        Ok(Arrived { verdict, slip }) => {
            if let Some(slip) = slip {
                slip.ignore();
            }
            Ok(by_token(&verdict))
        }
        Err(refusal) => Err(refusal),
    }
}
